//! Nodes of their parts, where a node holds a part in a box: the part comes as itself, and is boxed
//! here. Want of memory drops the parts.
ghost use Rattle.std.specs.Prelude.{◌≡◌, IfOk};

use base_core::{Boxed, Items, Mem};
use node_expr::{
    BinOp, Expr, ExprClosure, ExprRange, GenericArgument, Member, QSelf, ReturnType, Type,
    TypeGroup, TypeParen, TypePtr, TypeReference, UnOp,
};
use std::alloc::Global;
use tok_types::{Ident, Lifetime, Span, TokenStream};

/// `[expr; len]`
pub fn expr_repeat(alloc: Global, expr: Expr, len: Expr, span: Span) -> Mem<Expr>
    ensures { IfOk result (λ it. it ≡ Expr.Repeat expr len span) }
{
    Ok(Expr::Repeat {
        expr: Boxed::new(alloc, expr)?,
        len: Boxed::new(alloc, len)?,
        span,
    })
}

/// `(expr)`
pub fn expr_paren(alloc: Global, expr: Expr, span: Span) -> Mem<Expr>
    ensures { IfOk result (λ it. it ≡ Expr.Paren expr span) }
{
    let expr = Boxed::new(alloc, expr)?;
    Ok(Expr::Paren { expr, span })
}

/// The expression in a group without delimiters.
pub fn expr_group(alloc: Global, expr: Expr, span: Span) -> Mem<Expr>
    ensures { IfOk result (λ it. it ≡ Expr.Group expr span) }
{
    let expr = Boxed::new(alloc, expr)?;
    Ok(Expr::Group { expr, span })
}

/// `*expr`, `!expr`, `-expr`
pub fn expr_unary(alloc: Global, op: UnOp, expr: Expr, span: Span) -> Mem<Expr>
    ensures { IfOk result (λ it. it ≡ Expr.Unary op expr span) }
{
    let expr = Boxed::new(alloc, expr)?;
    Ok(Expr::Unary { op, expr, span })
}

/// `&expr`, `&mut expr`
pub fn expr_reference(alloc: Global, mutable: bool, expr: Expr, span: Span) -> Mem<Expr>
    ensures { IfOk result (λ it. it ≡ Expr.Reference mutable expr span) }
{
    let expr = Boxed::new(alloc, expr)?;
    Ok(Expr::Reference {
        mutable,
        expr,
        span,
    })
}

/// `left + right`, `left == right`
pub fn expr_binary(alloc: Global, left: Expr, op: BinOp, right: Expr, span: Span) -> Mem<Expr>
    ensures { IfOk result (λ it. it ≡ Expr.Binary left op right span) }
{
    Ok(Expr::Binary {
        left: Boxed::new(alloc, left)?,
        op,
        right: Boxed::new(alloc, right)?,
        span,
    })
}

/// `func(a, b)`
pub fn expr_call(alloc: Global, func: Expr, args: Items<Expr>, span: Span) -> Mem<Expr>
    ensures { IfOk result (λ it. it ≡ Expr.Call func args span) }
{
    let func = Boxed::new(alloc, func)?;
    Ok(Expr::Call { func, args, span })
}

/// `receiver.method(a, b)`, `receiver.method::<T>(a, b)`
pub fn expr_method_call(
    alloc: Global,
    receiver: Expr,
    method: Ident,
    turbofish: Items<GenericArgument>,
    args: Items<Expr>,
    span: Span,
) -> Mem<Expr>
    ensures { IfOk result (λ it. it ≡ Expr.MethodCall receiver method turbofish args span) }
{
    let receiver = Boxed::new(alloc, receiver)?;
    Ok(Expr::MethodCall {
        receiver,
        method,
        turbofish,
        args,
        span,
    })
}

/// `base.name`, `base.0`
pub fn expr_field(alloc: Global, base: Expr, member: Member, span: Span) -> Mem<Expr>
    ensures { IfOk result (λ it. it ≡ Expr.Field base member span) }
{
    let base = Boxed::new(alloc, base)?;
    Ok(Expr::Field { base, member, span })
}

/// `expr[index]`
pub fn expr_index(alloc: Global, expr: Expr, index: Expr, span: Span) -> Mem<Expr>
    ensures { IfOk result (λ it. it ≡ Expr.Index expr index span) }
{
    Ok(Expr::Index {
        expr: Boxed::new(alloc, expr)?,
        index: Boxed::new(alloc, index)?,
        span,
    })
}

/// `expr?`
pub fn expr_try(alloc: Global, expr: Expr, span: Span) -> Mem<Expr>
    ensures { IfOk result (λ it. it ≡ Expr.Try expr span) }
{
    let expr = Boxed::new(alloc, expr)?;
    Ok(Expr::Try { expr, span })
}

/// `start..end`, or closed `start..=end`; either end may lack.
pub fn expr_range(
    alloc: Global,
    start: Option<Expr>,
    end: Option<Expr>,
    closed: bool,
    span: Span,
) -> Mem<ExprRange>
    ensures { IfOk result (λ it. it ≡ record { start = start; end = end; closed = closed; span = span }) }
{
    Ok(ExprRange {
        start: optional(alloc, start)?,
        end: optional(alloc, end)?,
        closed,
        span,
    })
}

/// `|a, b| body`, where `tokens` are what stands before the body.
pub fn expr_closure(alloc: Global, tokens: TokenStream, body: Expr, span: Span) -> Mem<ExprClosure>
    ensures { IfOk result (λ it. it ≡ record { tokens = tokens; body = body; span = span }) }
{
    let body = Boxed::new(alloc, body)?;
    Ok(ExprClosure { tokens, body, span })
}

/// `{ stmt; stmt; last }`; the last expression may lack.
pub fn expr_block(alloc: Global, stmts: Items<Expr>, last: Option<Expr>, span: Span) -> Mem<Expr>
    ensures { IfOk result (λ it. it ≡ Expr.Block stmts last span) }
{
    let last = optional(alloc, last)?;
    Ok(Expr::Block { stmts, last, span })
}

/// `&ty`, `&'a ty`, `&mut ty`
pub fn type_reference(
    alloc: Global,
    lifetime: Option<Lifetime>,
    mutable: bool,
    elem: Type,
    span: Span,
) -> Mem<TypeReference>
    ensures { IfOk result (λ it. it
        ≡ record { lifetime = lifetime; mutable = mutable; elem = elem; span = span }) }
{
    let elem = Boxed::new(alloc, elem)?;
    Ok(TypeReference {
        lifetime,
        mutable,
        elem,
        span,
    })
}

/// `*const ty`, or mutable `*mut ty`
pub fn type_ptr(alloc: Global, mutable: bool, elem: Type, span: Span) -> Mem<TypePtr>
    ensures { IfOk result (λ it. it ≡ record { mutable = mutable; elem = elem; span = span }) }
{
    let elem = Boxed::new(alloc, elem)?;
    Ok(TypePtr {
        mutable,
        elem,
        span,
    })
}

/// `(ty)`
pub fn type_paren(alloc: Global, elem: Type, span: Span) -> Mem<TypeParen>
    ensures { IfOk result (λ it. it ≡ record { elem = elem; span = span }) }
{
    let elem = Boxed::new(alloc, elem)?;
    Ok(TypeParen { elem, span })
}

/// The type in a group without delimiters.
pub fn type_group(alloc: Global, elem: Type, span: Span) -> Mem<TypeGroup>
    ensures { IfOk result (λ it. it ≡ record { elem = elem; span = span }) }
{
    let elem = Boxed::new(alloc, elem)?;
    Ok(TypeGroup { elem, span })
}

/// `-> ty`
pub fn return_type(alloc: Global, ty: Type) -> Mem<ReturnType>
    ensures { IfOk result (λ it. it ≡ ReturnType.Ty ty) }
{
    let ty = Boxed::new(alloc, ty)?;
    Ok(ReturnType::Ty(ty))
}

/// `<ty as a::b>` before the rest of a path of which `position` segments stand after `as`
pub fn qself(alloc: Global, ty: Type, position: usize, span: Span) -> Mem<QSelf>
    ensures { IfOk result (λ it. it ≡ record { ty = ty; position = position; span = span }) }
{
    let ty = Boxed::new(alloc, ty)?;
    Ok(QSelf { ty, position, span })
}

fn optional(alloc: Global, expr: Option<Expr>) -> Mem<Option<Boxed<Expr>>>
    ensures { IfOk result (λ it. it ≡ expr) }
{
    match expr {
        Some(expr) => Ok(Some(Boxed::new(alloc, expr)?)),
        None => Ok(None),
    }
}
