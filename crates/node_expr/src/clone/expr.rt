//! Clones of expressions.

ghost use Rattle.std.specs.Prelude.{◌≡◌, IfOk};

use crate::clone::path::{clone_generic_arguments, clone_qself};
use crate::expr::{BinOp, Expr, ExprArray, ExprClosure, ExprPath, ExprRange, Member, UnOp};
use crate::path::GenericArgument;
use base_core::{Boxed, Items, Mem, TryClone};
use std::alloc::Global;
use tok_types::{Ident, Span};

impl TryClone for Expr {
    #[cycle(clone)]
    fn try_clone(&self, alloc: Global) -> Mem<Expr> {
        match self {
            Expr::Lit(lit) => Ok(Expr::Lit(lit.try_clone(alloc)?)),
            Expr::Path(path) => Ok(Expr::Path(path.try_clone(alloc)?)),
            Expr::Array(array) => Ok(Expr::Array(array.try_clone(alloc)?)),
            Expr::Repeat { expr, len, span } => clone_repeat(alloc, expr, len, *span),
            Expr::Tuple { elems, span } => clone_tuple(alloc, elems, *span),
            Expr::Paren { expr, span } => clone_paren(alloc, expr, *span),
            Expr::Group { expr, span } => clone_group(alloc, expr, *span),
            Expr::Unary { op, expr, span } => clone_unary(alloc, *op, expr, *span),
            Expr::Reference {
                mutable,
                expr,
                span,
            } => clone_reference(alloc, *mutable, expr, *span),
            Expr::Binary {
                left,
                op,
                right,
                span,
            } => clone_binary(alloc, left, *op, right, *span),
            Expr::Call { func, args, span } => clone_call(alloc, func, args, *span),
            Expr::MethodCall {
                receiver,
                method,
                turbofish,
                args,
                span,
            } => clone_method_call(alloc, receiver, method, turbofish, args, *span),
            Expr::Field { base, member, span } => clone_field(alloc, base, member, *span),
            Expr::Index { expr, index, span } => clone_index(alloc, expr, index, *span),
            Expr::Try { expr, span } => clone_try(alloc, expr, *span),
            Expr::Range(range) => Ok(Expr::Range(range.try_clone(alloc)?)),
            Expr::Closure(closure) => Ok(Expr::Closure(closure.try_clone(alloc)?)),
            Expr::Block { stmts, last, span } => clone_block(alloc, stmts, last, *span),
            Expr::Infer { span } => Ok(Expr::Infer { span: *span }),
            Expr::Verbatim(tokens) => Ok(Expr::Verbatim(tokens.try_clone(alloc)?)),
        }
    }
}

impl TryClone for ExprPath {
    #[cycle(clone)]
    fn try_clone(&self, alloc: Global) -> Mem<ExprPath> {
        Ok(ExprPath {
            qself: clone_qself(alloc, &self.qself)?,
            path: self.path.try_clone(alloc)?,
            span: self.span,
        })
    }
}

impl TryClone for ExprArray {
    #[cycle(clone)]
    fn try_clone(&self, alloc: Global) -> Mem<ExprArray> {
        Ok(ExprArray {
            elems: clone_exprs(alloc, &self.elems)?,
            span: self.span,
        })
    }
}

impl TryClone for ExprRange {
    #[cycle(clone)]
    fn try_clone(&self, alloc: Global) -> Mem<ExprRange> {
        Ok(ExprRange {
            start: clone_optional_expr(alloc, &self.start)?,
            end: clone_optional_expr(alloc, &self.end)?,
            closed: self.closed,
            span: self.span,
        })
    }
}

impl TryClone for ExprClosure {
    #[cycle(clone)]
    fn try_clone(&self, alloc: Global) -> Mem<ExprClosure> {
        Ok(ExprClosure {
            tokens: self.tokens.try_clone(alloc)?,
            body: clone_boxed_expr(alloc, &self.body)?,
            span: self.span,
        })
    }
}

impl TryClone for Member {
    fn try_clone(&self, alloc: Global) -> Mem<Member> {
        match self {
            Member::Named(name) => Ok(Member::Named(name.try_clone(alloc)?)),
            Member::Unnamed(index) => Ok(Member::Unnamed(index.try_clone(alloc)?)),
        }
    }
}

#[cycle(clone)]
fn clone_repeat(alloc: Global, expr: &Boxed<Expr>, len: &Boxed<Expr>, span: Span) -> Mem<Expr>
    ensures { IfOk result (λ copy. copy ≡ Expr.Repeat expr.now len.now span) }
{
    Ok(Expr::Repeat {
        expr: clone_boxed_expr(alloc, expr)?,
        len: clone_boxed_expr(alloc, len)?,
        span,
    })
}

#[cycle(clone)]
fn clone_tuple(alloc: Global, elems: &Items<Expr>, span: Span) -> Mem<Expr>
    ensures { IfOk result (λ copy. copy ≡ Expr.Tuple elems.now span) }
{
    let elems = clone_exprs(alloc, elems)?;
    Ok(Expr::Tuple { elems, span })
}

#[cycle(clone)]
fn clone_paren(alloc: Global, expr: &Boxed<Expr>, span: Span) -> Mem<Expr>
    ensures { IfOk result (λ copy. copy ≡ Expr.Paren expr.now span) }
{
    let expr = clone_boxed_expr(alloc, expr)?;
    Ok(Expr::Paren { expr, span })
}

#[cycle(clone)]
fn clone_group(alloc: Global, expr: &Boxed<Expr>, span: Span) -> Mem<Expr>
    ensures { IfOk result (λ copy. copy ≡ Expr.Group expr.now span) }
{
    let expr = clone_boxed_expr(alloc, expr)?;
    Ok(Expr::Group { expr, span })
}

#[cycle(clone)]
fn clone_unary(alloc: Global, op: UnOp, expr: &Boxed<Expr>, span: Span) -> Mem<Expr>
    ensures { IfOk result (λ copy. copy ≡ Expr.Unary op expr.now span) }
{
    let expr = clone_boxed_expr(alloc, expr)?;
    Ok(Expr::Unary { op, expr, span })
}

#[cycle(clone)]
fn clone_reference(alloc: Global, mutable: bool, expr: &Boxed<Expr>, span: Span) -> Mem<Expr>
    ensures { IfOk result (λ copy. copy ≡ Expr.Reference mutable expr.now span) }
{
    let expr = clone_boxed_expr(alloc, expr)?;
    Ok(Expr::Reference {
        mutable,
        expr,
        span,
    })
}

#[cycle(clone)]
fn clone_binary(
    alloc: Global,
    left: &Boxed<Expr>,
    op: BinOp,
    right: &Boxed<Expr>,
    span: Span,
) -> Mem<Expr>
    ensures { IfOk result (λ copy. copy ≡ Expr.Binary left.now op right.now span) }
{
    Ok(Expr::Binary {
        left: clone_boxed_expr(alloc, left)?,
        op,
        right: clone_boxed_expr(alloc, right)?,
        span,
    })
}

#[cycle(clone)]
fn clone_call(alloc: Global, func: &Boxed<Expr>, args: &Items<Expr>, span: Span) -> Mem<Expr>
    ensures { IfOk result (λ copy. copy ≡ Expr.Call func.now args.now span) }
{
    Ok(Expr::Call {
        func: clone_boxed_expr(alloc, func)?,
        args: clone_exprs(alloc, args)?,
        span,
    })
}

#[cycle(clone)]
fn clone_method_call(
    alloc: Global,
    receiver: &Boxed<Expr>,
    method: &Ident,
    turbofish: &Items<GenericArgument>,
    args: &Items<Expr>,
    span: Span,
) -> Mem<Expr>
    ensures { IfOk result (λ copy. copy
        ≡ Expr.MethodCall receiver.now method.now turbofish.now args.now span) }
{
    Ok(Expr::MethodCall {
        receiver: clone_boxed_expr(alloc, receiver)?,
        method: method.try_clone(alloc)?,
        turbofish: clone_generic_arguments(alloc, turbofish)?,
        args: clone_exprs(alloc, args)?,
        span,
    })
}

#[cycle(clone)]
fn clone_field(alloc: Global, base: &Boxed<Expr>, member: &Member, span: Span) -> Mem<Expr>
    ensures { IfOk result (λ copy. copy ≡ Expr.Field base.now member.now span) }
{
    Ok(Expr::Field {
        base: clone_boxed_expr(alloc, base)?,
        member: member.try_clone(alloc)?,
        span,
    })
}

#[cycle(clone)]
fn clone_index(alloc: Global, expr: &Boxed<Expr>, index: &Boxed<Expr>, span: Span) -> Mem<Expr>
    ensures { IfOk result (λ copy. copy ≡ Expr.Index expr.now index.now span) }
{
    Ok(Expr::Index {
        expr: clone_boxed_expr(alloc, expr)?,
        index: clone_boxed_expr(alloc, index)?,
        span,
    })
}

#[cycle(clone)]
fn clone_try(alloc: Global, expr: &Boxed<Expr>, span: Span) -> Mem<Expr>
    ensures { IfOk result (λ copy. copy ≡ Expr.Try expr.now span) }
{
    let expr = clone_boxed_expr(alloc, expr)?;
    Ok(Expr::Try { expr, span })
}

#[cycle(clone)]
fn clone_block(
    alloc: Global,
    stmts: &Items<Expr>,
    last: &Option<Boxed<Expr>>,
    span: Span,
) -> Mem<Expr>
    ensures { IfOk result (λ copy. copy ≡ Expr.Block stmts.now last.now span) }
{
    Ok(Expr::Block {
        stmts: clone_exprs(alloc, stmts)?,
        last: clone_optional_expr(alloc, last)?,
        span,
    })
}

#[cycle(clone)]
fn clone_boxed_expr(alloc: Global, expr: &Boxed<Expr>) -> Mem<Boxed<Expr>>
    ensures { IfOk result (λ copy. copy ≡ expr.now) }
{
    let copy = expr.get().try_clone(alloc)?;
    Boxed::new(alloc, copy)
}

#[cycle(clone)]
fn clone_optional_expr(alloc: Global, expr: &Option<Boxed<Expr>>) -> Mem<Option<Boxed<Expr>>>
    ensures { IfOk result (λ copy. copy ≡ expr.now) }
{
    match expr {
        Some(expr) => Ok(Some(clone_boxed_expr(alloc, expr)?)),
        None => Ok(None),
    }
}

#[cycle(clone)]
fn clone_exprs(alloc: Global, exprs: &Items<Expr>) -> Mem<Items<Expr>>
    ensures { IfOk result (λ copies. copies ≡ exprs.now) }
{
    let mut copies = Items::new(alloc);
    for expr in exprs.as_slice() {
        let copy = expr.try_clone(alloc)?;
        copies.push(copy)?;
    }
    Ok(copies)
}
