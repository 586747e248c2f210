//! Expressions.

ghost use Rattle.std.specs.Prelude.{◌≡◌};
ghost use Rattle.node_expr.specs.declared.expr.Expr.{out-Expr};
ghost use Rattle.node_expr.specs.Kinds.{array_in, path_in, range_in};

use crate::lit::{Lit, LitInt};
use crate::path::{GenericArgument, Path, QSelf};
use base_core::{Boxed, Items};
use tok_types::{Ident, Span, TokenStream};

/// An expression: `1`, `a::b`, `[a, b]`, `-a`, `a + b`, `f(a)`, `|a| a`, `{ a; b }`
#[cycle(nodes)]
#[derive_where(PartialEq, Eq, Hash)]
pub enum Expr {
    /// `1`, `"text"`
    Lit(Lit),
    /// `a::b`, `<T as Trait>::f`
    Path(ExprPath),
    /// `[a, b]`
    Array(ExprArray),
    /// `[expr; len]`
    Repeat {
        expr: Boxed<Expr>,
        len: Boxed<Expr>,
        #[derive_where(skip(EqHashOrd))]
        span: Span,
    },
    /// `()`, `(a,)`, `(a, b)`
    Tuple {
        elems: Items<Expr>,
        #[derive_where(skip(EqHashOrd))]
        span: Span,
    },
    /// `(expr)`
    Paren {
        expr: Boxed<Expr>,
        #[derive_where(skip(EqHashOrd))]
        span: Span,
    },
    /// An expression in a group without delimiters.
    Group {
        expr: Boxed<Expr>,
        #[derive_where(skip(EqHashOrd))]
        span: Span,
    },
    /// `*expr`, `!expr`, `-expr`
    Unary {
        op: UnOp,
        expr: Boxed<Expr>,
        #[derive_where(skip(EqHashOrd))]
        span: Span,
    },
    /// `&expr`, `&mut expr`
    Reference {
        mutable: bool,
        expr: Boxed<Expr>,
        #[derive_where(skip(EqHashOrd))]
        span: Span,
    },
    /// `left + right`, `left == right`
    Binary {
        left: Boxed<Expr>,
        op: BinOp,
        right: Boxed<Expr>,
        #[derive_where(skip(EqHashOrd))]
        span: Span,
    },
    /// `func(a, b)`
    Call {
        func: Boxed<Expr>,
        args: Items<Expr>,
        #[derive_where(skip(EqHashOrd))]
        span: Span,
    },
    /// `receiver.method(a, b)`, `receiver.method::<T>(a, b)`
    MethodCall {
        receiver: Boxed<Expr>,
        method: Ident,
        turbofish: Items<GenericArgument>,
        args: Items<Expr>,
        #[derive_where(skip(EqHashOrd))]
        span: Span,
    },
    /// `base.name`, `base.0`
    Field {
        base: Boxed<Expr>,
        member: Member,
        #[derive_where(skip(EqHashOrd))]
        span: Span,
    },
    /// `expr[index]`
    Index {
        expr: Boxed<Expr>,
        index: Boxed<Expr>,
        #[derive_where(skip(EqHashOrd))]
        span: Span,
    },
    /// `expr?`
    Try {
        expr: Boxed<Expr>,
        #[derive_where(skip(EqHashOrd))]
        span: Span,
    },
    /// `a..b`, `a..=b`, `..`
    Range(ExprRange),
    /// `|a, b| body`
    Closure(ExprClosure),
    /// `{ stmt; stmt; last }`
    Block {
        stmts: Items<Expr>,
        last: Option<Boxed<Expr>>,
        #[derive_where(skip(EqHashOrd))]
        span: Span,
    },
    /// `_`
    Infer {
        #[derive_where(skip(EqHashOrd))]
        span: Span,
    },
    /// The tokens of an attribute's value that are no expression.
    Verbatim(TokenStream),
}

/// `a::b`, or with a type in front `<T as Trait>::f`
#[cycle(nodes)]
#[derive_where(PartialEq, Eq, Hash)]
pub struct ExprPath {
    pub qself: Option<QSelf>,
    pub path: Path,
    #[derive_where(skip(EqHashOrd))]
    pub span: Span,
}

/// `[a, b]`
#[derive_where(PartialEq, Eq, Hash; E)]
pub struct ExprArray<E = Expr> {
    pub elems: Items<E>,
    #[derive_where(skip(EqHashOrd))]
    pub span: Span,
}

/// `start..end`, or closed `start..=end`; either end may be left out.
#[derive_where(PartialEq, Eq, Hash; E)]
pub struct ExprRange<E = Expr> {
    pub start: Option<Boxed<E>>,
    pub end: Option<Boxed<E>>,
    pub closed: bool,
    #[derive_where(skip(EqHashOrd))]
    pub span: Span,
}

/// `move |a, b: u8| body`. What stands before the body, `move |a, b: u8|`, is kept as tokens.
#[derive_where(PartialEq, Eq, Hash; E)]
pub struct ExprClosure<E = Expr> {
    pub tokens: TokenStream,
    pub body: Boxed<E>,
    #[derive_where(skip(EqHashOrd))]
    pub span: Span,
}

/// What stands after the dot of a field: `name`, or the index `0`
#[derive_where(PartialEq, Eq, Hash)]
pub enum Member {
    Named(Ident),
    Unnamed(LitInt),
}

/// The operator of `*a`, `!a`, `-a`
#[derive(Clone, Copy, Debug, PartialEq, Eq, Hash)]
pub enum UnOp {
    /// `*`
    Deref,
    /// `!`
    Not,
    /// `-`
    Neg,
}

/// The operator of `a + b`, `a == b`, `a || b`
#[derive(Clone, Copy, Debug, PartialEq, Eq, Hash)]
pub enum BinOp {
    /// `||`
    Or,
    /// `&&`
    And,
    /// `==`
    Eq,
    /// `!=`
    Ne,
    /// `<`
    Lt,
    /// `>`
    Gt,
    /// `<=`
    Le,
    /// `>=`
    Ge,
    /// `|`
    BitOr,
    /// `^`
    BitXor,
    /// `&`
    BitAnd,
    /// `<<`
    Shl,
    /// `>>`
    Shr,
    /// `+`
    Add,
    /// `-`
    Sub,
    /// `*`
    Mul,
    /// `/`
    Div,
    /// `%`
    Rem,
}

impl Expr {
    /// The array that the expression is.
    pub fn into_array(self) -> Option<ExprArray>
        ensures { result ≡ array_in (out-Expr self) }
    {
        match self {
            Expr::Array(array) => Some(array),
            _ => None,
        }
    }

    /// The path that the expression is.
    pub fn into_path(self) -> Option<ExprPath>
        ensures { result ≡ path_in (out-Expr self) }
    {
        match self {
            Expr::Path(path) => Some(path),
            _ => None,
        }
    }

    /// The range that the expression is.
    pub fn into_range(self) -> Option<ExprRange>
        ensures { result ≡ range_in (out-Expr self) }
    {
        match self {
            Expr::Range(range) => Some(range),
            _ => None,
        }
    }
}

impl Drop for Expr {
    #[cycle(drops)]
    fn drop(self) {
        match self {
            Expr::Lit(_a) => {}
            Expr::Path(_a) => {}
            Expr::Array(_a) => {}
            Expr::Repeat {
                expr: _expr,
                len: _len,
                span: _,
            } => {}
            Expr::Tuple {
                elems: _elems,
                span: _,
            } => {}
            Expr::Paren {
                expr: _expr,
                span: _,
            } => {}
            Expr::Group {
                expr: _expr,
                span: _,
            } => {}
            Expr::Unary {
                op: _,
                expr: _expr,
                span: _,
            } => {}
            Expr::Reference {
                mutable: _,
                expr: _expr,
                span: _,
            } => {}
            Expr::Binary {
                left: _left,
                op: _,
                right: _right,
                span: _,
            } => {}
            Expr::Call {
                func: _func,
                args: _args,
                span: _,
            } => {}
            Expr::MethodCall {
                receiver: _receiver,
                method: _method,
                turbofish: _turbofish,
                args: _args,
                span: _,
            } => {}
            Expr::Field {
                base: _base,
                member: _member,
                span: _,
            } => {}
            Expr::Index {
                expr: _expr,
                index: _index,
                span: _,
            } => {}
            Expr::Try {
                expr: _expr,
                span: _,
            } => {}
            Expr::Range(_a) => {}
            Expr::Closure(_a) => {}
            Expr::Block {
                stmts: _stmts,
                last: _last,
                span: _,
            } => {}
            Expr::Infer { span: _ } => {}
            Expr::Verbatim(_a) => {}
        }
    }
}

impl Drop for ExprPath {
    #[cycle(drops)]
    fn drop(self) {
        let Self {
            qself: _qself,
            path: _path,
            span: _,
        } = self;
    }
}

impl<E: Drop> Drop for ExprArray<E> {
    fn drop(self) {
        let Self {
            elems: _elems,
            span: _,
        } = self;
    }
}

impl<E: Drop> Drop for ExprRange<E> {
    fn drop(self) {
        let Self {
            start: _start,
            end: _end,
            closed: _,
            span: _,
        } = self;
    }
}

impl<E: Drop> Drop for ExprClosure<E> {
    fn drop(self) {
        let Self {
            tokens: _tokens,
            body: _body,
            span: _,
        } = self;
    }
}

impl Drop for Member {
    fn drop(self) {
        match self {
            Member::Named(_a) => {}
            Member::Unnamed(_a) => {}
        }
    }
}
