//! What reads the items of the lists in paths and types.

ghost use Rattle.std.specs.Prelude.{true};
ghost use Rattle.syn_grammar.specs.Depth.{argument_depth, bound_depth, segment_depth, type_depth};
ghost use Rattle.syn_grammar.specs.Grammar.{within};
ghost use Rattle.syn_grammar.specs.Input as input;
ghost use Rattle.syn_grammar.specs.Paths as paths;
ghost use Rattle.syn_grammar.specs.Token.{lifetime_of};
ghost use Rattle.syn_grammar.specs.Types as types;

use crate::rules::{ReadParts, Rules};
use node_expr::{GenericArgument, NamedArg, PathSegment, Type, TypeParamBound};
use std::alloc::Global;
use syn_grammar::{Cursor, ReadFail};
use syn_lists::{Parsed, ReadDeepItem, ReadItem};
use tok_types::Lifetime;

/// Reads a lifetime.
#[derive(Drop)]
pub struct LifetimeReader {
    pub alloc: Global,
}

impl ReadItem<Lifetime> for LifetimeReader {
    ghost reader = { λ it. input.take_as lifetime_of };

    fn read(&mut self, tokens: &mut Cursor<'_>) -> Result<Lifetime, ReadFail> {
        tokens.take_lifetime(self.alloc)
    }
}

/// Reads a segment of a path.
#[derive(Drop)]
pub(crate) struct SegmentReader<'a, R> {
    pub rules: &'a Rules<R>,
    pub in_type: bool,
}

impl<R: ReadParts> ReadDeepItem<PathSegment> for SegmentReader<'_, R> {
    ghost reader = { λ it. paths.segment (within it.rules.now.depth) it.in_type };

    ghost ready = { λ it. R.reads_within it.rules.now.parts it.rules.now.depth };

    ghost size = { λ it. segment_depth };

    ghost limit = { λ it. it.rules.now.depth };

    fn read(&self, tokens: &mut Cursor<'_>) -> Parsed<PathSegment> {
        self.rules.segment(tokens, self.in_type)
    }
}

impl<R: ReadParts> ReadDeepItem<Type> for Rules<R> {
    ghost reader = { λ it. (within it.depth).ty true };

    ghost ready = { λ it. R.reads_within it.parts it.depth };

    ghost size = { λ it. type_depth };

    ghost limit = { λ it. it.depth };

    fn read(&self, tokens: &mut Cursor<'_>) -> Parsed<Type> {
        self.ty(tokens, true)
    }
}

impl<R: ReadParts> ReadDeepItem<GenericArgument> for Rules<R> {
    ghost reader = { λ it. paths.generic_argument (within it.depth) };

    ghost ready = { λ it. R.reads_within it.parts it.depth };

    ghost size = { λ it. argument_depth };

    ghost limit = { λ it. it.depth };

    fn read(&self, tokens: &mut Cursor<'_>) -> Parsed<GenericArgument> {
        self.generic_argument(tokens)
    }
}

impl<R: ReadParts> ReadDeepItem<TypeParamBound> for Rules<R> {
    ghost reader = { λ it. paths.one_bound (within it.depth) };

    ghost ready = { λ it. R.reads_within it.parts it.depth };

    ghost size = { λ it. bound_depth };

    ghost limit = { λ it. it.depth };

    fn read(&self, tokens: &mut Cursor<'_>) -> Parsed<TypeParamBound> {
        self.one_bound(tokens)
    }
}

impl<R: ReadParts> ReadDeepItem<NamedArg> for Rules<R> {
    ghost reader = { λ it. types.named_arg (within it.depth) };

    ghost ready = { λ it. R.reads_within it.parts it.depth };

    ghost size = { λ it arg. type_depth arg.ty };

    ghost limit = { λ it. it.depth };

    fn read(&self, tokens: &mut Cursor<'_>) -> Parsed<NamedArg> {
        self.named_arg(tokens)
    }
}
