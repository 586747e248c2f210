//! The cycle of types, expressions and bounds: each reads its parts one level down.

ghost use Rattle.std.specs.Prelude.{◌≡◌, ◌≤◌};
ghost use Rattle.syn_grammar.specs.Depth.{bound_depth, expr_depth, path_depth, type_depth};
ghost use Rattle.syn_grammar.specs.Grammar.{within, bounds_depth};
ghost use Rattle.syn_grammar.specs.Paths as paths;
ghost use Rattle.syn_grammar.specs.Reads.{Reads};
ghost use Rattle.syn_lists.specs.Lists.{all_depth};
ghost use Rattle.syn_rules.specs.ReadsParts.{ReadsParts};

use crate::rules::ExprRules;
use base_core::Items;
use node_expr::{Expr, Path, Type, TypeParamBound};
use std::alloc::Global;
use syn_grammar::{Cursor, ReadFail};
use syn_lists::Parsed;
use syn_types::{ReadParts, Rules};

/// Readers as values.
#[derive(Drop)]
struct Readers<T, E, B> {
    ty: T,
    expr: E,
    bounds: B,
}

impl<T, E, B> ReadParts for Readers<T, E, B>
where
    T: Fn(Global, &mut Cursor<'_>, usize, bool) -> Parsed<Type>,
    E: Fn(Global, &mut Cursor<'_>, usize, u8) -> Parsed<Expr>,
    B: Fn(Global, &mut Cursor<'_>, usize) -> Parsed<Items<TypeParamBound>>,
{
    ghost reads_within = { λ readers depth. ReadsParts depth (T.pre readers.ty) (T.post readers.ty) (E.pre readers.expr) (E.post readers.expr) (B.pre readers.bounds) (B.post readers.bounds) };

    fn ty(
        &self,
        alloc: Global,
        tokens: &mut Cursor<'_>,
        depth: usize,
        allow_plus: bool,
    ) -> Parsed<Type> {
        (self.ty)(alloc, tokens, depth, allow_plus)
    }

    fn expr(
        &self,
        alloc: Global,
        tokens: &mut Cursor<'_>,
        depth: usize,
        level: u8,
    ) -> Parsed<Expr> {
        (self.expr)(alloc, tokens, depth, level)
    }

    fn bounds(
        &self,
        alloc: Global,
        tokens: &mut Cursor<'_>,
        depth: usize,
    ) -> Parsed<Items<TypeParamBound>> {
        (self.bounds)(alloc, tokens, depth)
    }
}

// A level of a tree costs the frames on its way: a rule that is rarely on it keeps its frame to itself.

/// A type that is at most `depth` deep. A `dyn` or `impl` has several bounds where `allow_plus` says so,
/// and else one.
#[cycle(parts)]
pub fn read_type(
    alloc: Global,
    tokens: &mut Cursor<'_>,
    depth: usize,
    allow_plus: bool,
) -> Parsed<Type>
    requires { depth ≤ 1000 }
    ensures { Reads type_depth depth ((within depth).ty allow_plus tokens.old) result tokens.new }
{
    if depth == 0 {
        return Err(ReadFail::Syntax);
    }
    Rules {
        alloc,
        depth: depth - 1,
        parts: Readers {
            ty: read_type,
            expr: read_expr,
            bounds: constraint_bounds,
        },
    }
    .type_step(tokens, allow_plus)
}

/// An expression of this level or a tighter one, at most `depth` deep.
#[cycle(parts)]
pub fn read_expr(alloc: Global, tokens: &mut Cursor<'_>, depth: usize, level: u8) -> Parsed<Expr>
    requires { depth ≤ 1000 }
    ensures { Reads expr_depth depth ((within depth).expr level tokens.old) result tokens.new }
{
    if depth == 0 {
        return Err(ReadFail::Syntax);
    }
    let rules = Rules {
        alloc,
        depth: depth - 1,
        parts: Readers {
            ty: read_type,
            expr: read_expr,
            bounds: constraint_bounds,
        },
    };
    ExprRules { rules }.expr_step(tokens, level)
}

/// The bounds of a constraint, which are one level.
#[cycle(parts)]
pub(crate) fn constraint_bounds(
    alloc: Global,
    tokens: &mut Cursor<'_>,
    depth: usize,
) -> Parsed<Items<TypeParamBound>>
    requires { depth ≤ 1000 }
    ensures { Reads bounds_depth depth ((within depth).bounds tokens.old) result tokens.new }
{
    if depth == 0 {
        return Err(ReadFail::Syntax);
    }
    Rules {
        alloc,
        depth: depth - 1,
        parts: Readers {
            ty: read_type,
            expr: read_expr,
            bounds: constraint_bounds,
        },
    }
    .bounds_step(tokens)
}

/// A path whose parts are at most `depth` deep, as in a type or as in an expression.
pub fn read_path(
    alloc: Global,
    tokens: &mut Cursor<'_>,
    depth: usize,
    in_type: bool,
) -> Parsed<Path>
    requires { depth ≤ 1000 }
    ensures { Reads path_depth depth (paths.path (within depth) in_type tokens.old) result tokens.new }
{
    let rules = Rules {
        alloc,
        depth,
        parts: Readers {
            ty: read_type,
            expr: read_expr,
            bounds: constraint_bounds,
        },
    };
    rules.path(tokens, in_type)
}

/// Bounds joined by `+`, whose parts are at most `depth` deep.
pub fn read_bounds(
    alloc: Global,
    tokens: &mut Cursor<'_>,
    depth: usize,
) -> Parsed<Items<TypeParamBound>>
    requires { depth ≤ 1000 }
    ensures { Reads (all_depth bound_depth) depth (paths.joined_bounds (within depth) tokens.old) result tokens.new }
{
    let rules = Rules {
        alloc,
        depth,
        parts: Readers {
            ty: read_type,
            expr: read_expr,
            bounds: constraint_bounds,
        },
    };
    rules.joined_bounds(tokens)
}
