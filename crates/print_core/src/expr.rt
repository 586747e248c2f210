//! The tokens of expressions.

ghost use Rattle.std.specs.Prelude.{◌≡◌, ◌++◌, codes, map, OnOk};
ghost use Rattle.print_core.specs.Marks.{comma, mark, after, ended, group, joined, tuple};
ghost use Rattle.print_core.specs.Exprs.{bin_op_tokens, called_with, turbofish, un_op_tokens};
ghost use Rattle.print_core.specs.Nodes.{argument_tokens, expr_path_tokens, expr_tokens};
ghost use Rattle.print_core.specs.Kinds.{array_tokens, closure_tokens, range_tokens};
ghost use Rattle.print_core.specs.Fronts.{IsFront};

use crate::path::{PathStyle, print_after_type, print_angled, print_path};
use crate::push::{push_colons, push_comma, push_group, push_mark, push_word};
use crate::to_tokens::ToTokens;
use crate::ty::print_mutability;
use base_core::{Items, Mem};
use node_expr::{BinOp, Expr, ExprArray, ExprClosure, ExprPath, ExprRange, GenericArgument, UnOp};
use std::alloc::Global;
use tok_types::{Delimiter, Span, TokenTree};

impl ToTokens for Expr {
    ghost printing = { expr_tokens };

    #[cycle(print)]
    fn print(&self, alloc: Global, trees: &mut Items<TokenTree>) -> Mem<()> {
        match self {
            Expr::Lit(it) => it.print(alloc, trees),
            Expr::Path(it) => it.print(alloc, trees),
            Expr::Array(ExprArray { elems, span }) => {
                print_array(elems.as_slice(), *span, alloc, trees)
            }
            Expr::Repeat { expr, len, span } => {
                let mut inside = Items::new(alloc);
                expr.get().print(alloc, &mut inside)?;
                push_mark(&mut inside, &[';'], *span)?;
                len.get().print(alloc, &mut inside)?;
                push_group(alloc, trees, Delimiter::Bracket, inside, *span)
            }
            Expr::Tuple { elems, span } => print_tuple(elems.as_slice(), *span, alloc, trees),
            Expr::Paren { expr, span } => {
                print_inside(expr.get(), Delimiter::Parenthesis, *span, alloc, trees)
            }
            Expr::Group { expr, span } => {
                print_inside(expr.get(), Delimiter::None, *span, alloc, trees)
            }
            Expr::Unary { op, expr, span } => {
                push_un_op(trees, *op, *span)?;
                expr.get().print(alloc, trees)
            }
            Expr::Reference {
                mutable,
                expr,
                span,
            } => {
                push_mark(trees, &['&'], *span)?;
                print_mutability(*mutable, *span, alloc, trees)?;
                expr.get().print(alloc, trees)
            }
            Expr::Binary {
                left,
                op,
                right,
                span,
            } => {
                left.get().print(alloc, trees)?;
                push_bin_op(trees, *op, *span)?;
                right.get().print(alloc, trees)
            }
            Expr::Call { func, args, span } => {
                func.get().print(alloc, trees)?;
                print_args(args.as_slice(), *span, alloc, trees)
            }
            Expr::MethodCall {
                receiver,
                method,
                turbofish,
                args,
                span,
            } => {
                receiver.get().print(alloc, trees)?;
                push_mark(trees, &['.'], *span)?;
                method.print(alloc, trees)?;
                print_turbofish(turbofish.as_slice(), *span, alloc, trees)?;
                print_args(args.as_slice(), *span, alloc, trees)
            }
            Expr::Field { base, member, span } => {
                base.get().print(alloc, trees)?;
                push_mark(trees, &['.'], *span)?;
                member.print(alloc, trees)
            }
            Expr::Index { expr, index, span } => {
                expr.get().print(alloc, trees)?;
                print_inside(index.get(), Delimiter::Bracket, *span, alloc, trees)
            }
            Expr::Try { expr, span } => {
                expr.get().print(alloc, trees)?;
                push_mark(trees, &['?'], *span)
            }
            Expr::Range(it) => it.print(alloc, trees),
            Expr::Closure(it) => it.print(alloc, trees),
            Expr::Block { stmts, last, span } => {
                let mut inside = Items::new(alloc);
                print_statements(stmts.as_slice(), *span, alloc, &mut inside)?;
                if let Some(last) = last {
                    last.get().print(alloc, &mut inside)?;
                }
                push_group(alloc, trees, Delimiter::Brace, inside, *span)
            }
            Expr::Infer { span } => push_word(alloc, trees, "_", *span),
            Expr::Verbatim(it) => it.print(alloc, trees),
        }
    }
}

impl ToTokens for ExprPath {
    ghost printing = { expr_path_tokens };

    #[cycle(print)]
    fn print(&self, alloc: Global, trees: &mut Items<TokenTree>) -> Mem<()> {
        match &self.qself {
            None => print_path(&self.path, PathStyle::Turbofish, alloc, trees),
            Some(qself) => {
                push_mark(trees, &['<'], qself.span)?;
                qself.ty.get().print(alloc, trees)?;
                print_after_type(
                    &self.path,
                    qself.position,
                    qself.span,
                    PathStyle::Turbofish,
                    alloc,
                    trees,
                )
            }
        }
    }
}

impl ToTokens for ExprArray {
    ghost printing = { array_tokens };

    fn print(&self, alloc: Global, trees: &mut Items<TokenTree>) -> Mem<()> {
        print_array(self.elems.as_slice(), self.span, alloc, trees)
    }
}

impl ToTokens for ExprRange {
    ghost printing = { range_tokens };

    #[cycle(print)]
    fn print(&self, alloc: Global, trees: &mut Items<TokenTree>) -> Mem<()> {
        if let Some(start) = &self.start {
            start.get().print(alloc, trees)?;
        }
        if self.closed {
            push_mark(trees, &['.', '.', '='], self.span)?;
        } else {
            push_mark(trees, &['.', '.'], self.span)?;
        }
        match &self.end {
            Some(end) => end.get().print(alloc, trees),
            None => Ok(()),
        }
    }
}

impl ToTokens for ExprClosure {
    ghost printing = { closure_tokens };

    #[cycle(print)]
    fn print(&self, alloc: Global, trees: &mut Items<TokenTree>) -> Mem<()> {
        self.tokens.print(alloc, trees)?;
        self.body.get().print(alloc, trees)
    }
}

/// Alone, with no node around it.
impl ToTokens for UnOp {
    ghost use Rattle.tok_types.specs.declared.span.Span.TheVariants.{CallSite};

    ghost printing = { λ op. un_op_tokens op CallSite };

    fn print(&self, _alloc: Global, trees: &mut Items<TokenTree>) -> Mem<()> {
        push_un_op(trees, *self, Span::CallSite)
    }
}

/// Alone, with no node around it.
impl ToTokens for BinOp {
    ghost use Rattle.tok_types.specs.declared.span.Span.TheVariants.{CallSite};

    ghost printing = { λ op. bin_op_tokens op CallSite };

    fn print(&self, _alloc: Global, trees: &mut Items<TokenTree>) -> Mem<()> {
        push_bin_op(trees, *self, Span::CallSite)
    }
}

fn push_un_op(trees: &mut Items<TokenTree>, op: UnOp, span: Span) -> Mem<()>
    ensures ok { OnOk result (trees.new ≡ trees.old ++ un_op_tokens op span) }
    ensures front { IsFront trees.old trees.new }
{
    match op {
        UnOp::Deref => push_mark(trees, &['*'], span),
        UnOp::Not => push_mark(trees, &['!'], span),
        UnOp::Neg => push_mark(trees, &['-'], span),
    }
}

fn push_bin_op(trees: &mut Items<TokenTree>, op: BinOp, span: Span) -> Mem<()>
    ensures ok { OnOk result (trees.new ≡ trees.old ++ bin_op_tokens op span) }
    ensures front { IsFront trees.old trees.new }
{
    match op {
        BinOp::Or => push_mark(trees, &['|', '|'], span),
        BinOp::And => push_mark(trees, &['&', '&'], span),
        BinOp::Eq => push_mark(trees, &['=', '='], span),
        BinOp::Ne => push_mark(trees, &['!', '='], span),
        BinOp::Lt => push_mark(trees, &['<'], span),
        BinOp::Gt => push_mark(trees, &['>'], span),
        BinOp::Le => push_mark(trees, &['<', '='], span),
        BinOp::Ge => push_mark(trees, &['>', '='], span),
        BinOp::BitOr => push_mark(trees, &['|'], span),
        BinOp::BitXor => push_mark(trees, &['^'], span),
        BinOp::BitAnd => push_mark(trees, &['&'], span),
        BinOp::Shl => push_mark(trees, &['<', '<'], span),
        BinOp::Shr => push_mark(trees, &['>', '>'], span),
        BinOp::Add => push_mark(trees, &['+'], span),
        BinOp::Sub => push_mark(trees, &['-'], span),
        BinOp::Mul => push_mark(trees, &['*'], span),
        BinOp::Div => push_mark(trees, &['/'], span),
        BinOp::Rem => push_mark(trees, &['%'], span),
    }
}

/// Writes `a, b`.
#[cycle(print)]
fn print_exprs(exprs: &[Expr], span: Span, alloc: Global, trees: &mut Items<TokenTree>) -> Mem<()>
    ensures ok { OnOk result (trees.new ≡ trees.old ++ joined (comma span) (map expr_tokens exprs.now)) }
    ensures front { IsFront trees.old trees.new }
{
    if let Some((first, others)) = exprs.split_first() {
        first.print(alloc, trees)?;
        for expr in others {
            push_comma(trees, span)?;
            expr.print(alloc, trees)?;
        }
    }
    Ok(())
}

/// Writes `[a, b]`.
#[cycle(print)]
fn print_array(elems: &[Expr], span: Span, alloc: Global, trees: &mut Items<TokenTree>) -> Mem<()>
    ensures ok { OnOk result (trees.new ≡ trees.old ++ group Delimiter.Bracket (joined (comma span) (map expr_tokens elems.now)) span) }
    ensures front { IsFront trees.old trees.new }
{
    let mut inside = Items::new(alloc);
    print_exprs(elems, span, alloc, &mut inside)?;
    push_group(alloc, trees, Delimiter::Bracket, inside, span)
}

/// Writes `()`, `(a,)`, `(a, b)`.
#[cycle(print)]
fn print_tuple(elems: &[Expr], span: Span, alloc: Global, trees: &mut Items<TokenTree>) -> Mem<()>
    ensures ok { OnOk result (trees.new ≡ trees.old ++ group Delimiter.Parenthesis (tuple (map expr_tokens elems.now) span) span) }
    ensures front { IsFront trees.old trees.new }
{
    let mut inside = Items::new(alloc);
    print_exprs(elems, span, alloc, &mut inside)?;
    if elems.len() == 1 {
        push_comma(&mut inside, span)?;
    }
    push_group(alloc, trees, Delimiter::Parenthesis, inside, span)
}

/// Writes `(a, b)`.
#[cycle(print)]
fn print_args(args: &[Expr], span: Span, alloc: Global, trees: &mut Items<TokenTree>) -> Mem<()>
    ensures ok { OnOk result (trees.new ≡ trees.old ++ called_with (map expr_tokens args.now) span) }
    ensures front { IsFront trees.old trees.new }
{
    let mut inside = Items::new(alloc);
    print_exprs(args, span, alloc, &mut inside)?;
    push_group(alloc, trees, Delimiter::Parenthesis, inside, span)
}

/// Writes `a; b;`.
#[cycle(print)]
fn print_statements(
    stmts: &[Expr],
    span: Span,
    alloc: Global,
    trees: &mut Items<TokenTree>,
) -> Mem<()>
    ensures ok { OnOk result (trees.new ≡ trees.old ++ ended (mark (codes ";") span) (map expr_tokens stmts.now)) }
    ensures front { IsFront trees.old trees.new }
{
    for stmt in stmts {
        stmt.print(alloc, trees)?;
        push_mark(trees, &[';'], span)?;
    }
    Ok(())
}

/// Writes an expression between two delimiters.
#[cycle(print)]
fn print_inside(
    expr: &Expr,
    delimiter: Delimiter,
    span: Span,
    alloc: Global,
    trees: &mut Items<TokenTree>,
) -> Mem<()>
    ensures ok { OnOk result (trees.new ≡ trees.old ++ group delimiter (expr_tokens expr.now) span) }
    ensures front { IsFront trees.old trees.new }
{
    let mut inside = Items::new(alloc);
    expr.print(alloc, &mut inside)?;
    push_group(alloc, trees, delimiter, inside, span)
}

/// Writes `::<T>`, or nothing without members.
#[cycle(print)]
fn print_turbofish(
    members: &[GenericArgument],
    span: Span,
    alloc: Global,
    trees: &mut Items<TokenTree>,
) -> Mem<()>
    ensures ok { OnOk result (trees.new ≡ trees.old ++ turbofish (map argument_tokens members.now) span) }
    ensures front { IsFront trees.old trees.new }
{
    if members.is_empty() {
        return Ok(());
    }
    push_colons(trees, span)?;
    print_angled(members, span, alloc, trees)
}
