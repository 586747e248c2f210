//! The rules of paths and types, over any readers of their parts, so that each rule is proved by itself.

ghost use Rattle.std.specs.Prelude.{◌≤◌, ℕ};
ghost use Rattle.syn_grammar.specs.Depth.{expr_depth, type_depth};
ghost use Rattle.syn_grammar.specs.Grammar.{within, bounds_depth};
ghost use Rattle.syn_grammar.specs.Reads.{Reads};

use base_core::Items;
use node_expr::{Expr, Type, TypeParamBound};
use std::alloc::Global;
use syn_grammar::Cursor;
use syn_lists::Parsed;

/// How deep a type or an expression of a parser may be.
pub const MAX_DEPTH: usize = 256;

/// The level of any expression.
pub const ANY_LEVEL: u8 = 11;

/// The level of a literal or a block.
pub const CONSTANT_LEVEL: u8 = 12;

/// The readers of the parts of a rule.
pub trait ReadParts {
    /// Whether they read what the grammar reads no deeper than a number.
    ghost reads_within: { Self → ℕ → Type 0 };

    /// A type. A `dyn` or `impl` has several bounds where `allow_plus` says so, and else one.
    fn ty(
        &self,
        alloc: Global,
        tokens: &mut Cursor<'_>,
        depth: usize,
        allow_plus: bool,
    ) -> Parsed<Type>
        requires { reads_within self.now depth }
        ensures { Reads type_depth depth ((within depth).ty allow_plus tokens.old) result tokens.new };

    /// An expression of this level or a tighter one.
    fn expr(&self, alloc: Global, tokens: &mut Cursor<'_>, depth: usize, level: u8) -> Parsed<Expr>
        requires { reads_within self.now depth }
        ensures { Reads expr_depth depth ((within depth).expr level tokens.old) result tokens.new };

    /// The bounds of a constraint.
    fn bounds(
        &self,
        alloc: Global,
        tokens: &mut Cursor<'_>,
        depth: usize,
    ) -> Parsed<Items<TypeParamBound>>
        requires { reads_within self.now depth }
        ensures { Reads bounds_depth depth ((within depth).bounds tokens.old) result tokens.new };
}

/// The rules, whose parts may be `depth` deep.
#[derive(Drop)]
pub struct Rules<R> {
    pub alloc: Global,
    pub depth: usize,
    pub parts: R,
    // so that the depth of a node is a number of the machine
    ghost bounded: { depth ≤ 1000 },
}

impl<R: ReadParts> Rules<R> {
    /// A type. A `dyn` or `impl` has several bounds where `allow_plus` says so, and else one.
    pub fn ty(&self, tokens: &mut Cursor<'_>, allow_plus: bool) -> Parsed<Type>
        requires { R.reads_within self.now.parts self.now.depth }
        ensures { Reads type_depth self.now.depth ((within self.now.depth).ty allow_plus tokens.old) result tokens.new }
    {
        self.parts.ty(self.alloc, tokens, self.depth, allow_plus)
    }

    /// An expression of this level or a tighter one.
    pub fn expr(&self, tokens: &mut Cursor<'_>, level: u8) -> Parsed<Expr>
        requires { R.reads_within self.now.parts self.now.depth }
        ensures { Reads expr_depth self.now.depth ((within self.now.depth).expr level tokens.old) result tokens.new }
    {
        self.parts.expr(self.alloc, tokens, self.depth, level)
    }

    pub(crate) fn constraint_bounds(&self, tokens: &mut Cursor<'_>) -> Parsed<Items<TypeParamBound>>
        requires { R.reads_within self.now.parts self.now.depth }
        ensures { Reads bounds_depth self.now.depth ((within self.now.depth).bounds tokens.old) result tokens.new }
    {
        self.parts.bounds(self.alloc, tokens, self.depth)
    }
}
