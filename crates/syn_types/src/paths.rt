//! Paths, their arguments, and bounds.

ghost use Rattle.std.specs.Prelude.{◌≡◌, ◌+◌, ◌≤◌, max, true};
ghost use Rattle.syn_grammar.specs.Depth.{argument_depth, arguments_depth, bound_depth, path_depth, return_depth, segment_depth, type_depth};
ghost use Rattle.syn_grammar.specs.Grammar.{within, bounds_depth};
ghost use Rattle.syn_grammar.specs.Input as input;
ghost use Rattle.syn_grammar.specs.Paths as paths;
ghost use Rattle.syn_grammar.specs.Reads.{Gives, Reads};
ghost use Rattle.tok_types.specs.declared.tree.Delimiter.TheVariants as delimiter;
ghost use Rattle.syn_lists.specs.Lists.{all_depth};

use crate::readers::{LifetimeReader, SegmentReader};
use crate::rules::{CONSTANT_LEVEL, ReadParts, Rules};
use base_core::{Boxed, Items};
use node_expr::{
    GenericArgument, Path, PathArguments, PathSegment, QSelf, ReturnType, TraitBound, Type,
    TypeParamBound,
};
use node_make::make;
use std::alloc::Global;
use syn_grammar::{
    ArgumentStart, ArgumentsStart, Cursor, ReadFail, Word, argument_start, arguments_start,
    is_group, lifetime_of,
};
use syn_lists::{Deepest, Joint, Parsed, items_after, joined_by, until};
use tok_types::{Delimiter, Lifetime, Span};

/// `for<'a, 'b>`, or nothing
#[tactic(auto, unfolding(syn_grammar::specs::Paths::binder))]
pub fn binder(alloc: Global, tokens: &mut Cursor<'_>) -> Result<Items<Lifetime>, ReadFail>
    ensures { Gives (paths.binder tokens.old) result tokens.new }
{
    if !tokens.eat_word(Word::For) {
        return Ok(Items::new(alloc));
    }
    tokens.expect_mark('<')?;
    until(alloc, tokens, '>', &mut LifetimeReader { alloc })
}

impl<R: ReadParts> Rules<R> {
    /// `-> type`, or nothing. The type has one bound.
    #[tactic(auto, unfolding(syn_grammar::specs::Paths::return_type), using(syn_grammar::proofs::Depths::depths))]
    pub(crate) fn return_type(&self, tokens: &mut Cursor<'_>) -> Parsed<ReturnType>
        requires { R.reads_within self.now.parts self.now.depth }
        ensures { Reads return_depth self.now.depth (paths.return_type (within self.now.depth) tokens.old) result tokens.new }
    {
        if !tokens.eat_arrow() {
            return Ok((ReturnType::Default, 0));
        }
        let (ty, depth) = self.ty(tokens, false)?;
        Ok((make::return_type(self.alloc, ty)?, depth))
    }

    /// More types of a list, behind those that are `found` and at most `depth` deep.
    pub(crate) fn types_after(
        &self,
        tokens: &mut Cursor<'_>,
        found: Items<Type>,
        depth: usize,
    ) -> Parsed<Items<Type>>
        requires reads_within { R.reads_within self.now.parts self.now.depth }
        requires found { depth ≡ all_depth type_depth found }
        requires within { depth ≤ self.now.depth }
        ensures { Reads (all_depth type_depth) self.now.depth (input.items_after ((within self.now.depth).ty true) found tokens.old) result tokens.new }
    {
        let mut types = Deepest { inner: self, depth };
        let found = items_after(tokens, &mut types, found)?;
        Ok((found, types.depth))
    }

    /// All types of a list.
    fn type_list(&self, tokens: &mut Cursor<'_>) -> Parsed<Items<Type>>
        requires { R.reads_within self.now.parts self.now.depth }
        ensures { Reads (all_depth type_depth) self.now.depth (paths.list ((within self.now.depth).ty true) tokens.old) result tokens.new }
    {
        self.types_after(tokens, Items::new(self.alloc), 0)
    }

    /// The types in `(A, B)`.
    fn inputs(&self, tokens: &mut Cursor<'_>) -> Parsed<Items<Type>>
        requires { R.reads_within self.now.parts self.now.depth }
        ensures { Reads (all_depth type_depth) self.now.depth (input.inside delimiter.Parenthesis (paths.list ((within self.now.depth).ty true)) tokens.old) result tokens.new }
    {
        if !is_group(Delimiter::Parenthesis, tokens.rest()) {
            return Err(ReadFail::Syntax);
        }
        let mut inner = tokens.contents();
        let inputs = self.type_list(&mut inner)?;
        inner.finish()?;
        tokens.skip();
        Ok(inputs)
    }

    /// `(A, B) -> C`
    #[tactic(auto, unfolding(syn_grammar::specs::Paths::parenthesized), using(syn_grammar::proofs::Depths::depths))]
    fn parenthesized(&self, tokens: &mut Cursor<'_>) -> Parsed<PathArguments>
        requires { R.reads_within self.now.parts self.now.depth }
        ensures { Reads arguments_depth self.now.depth (paths.parenthesized (within self.now.depth) tokens.old) result tokens.new }
    {
        let start = tokens.here();
        let (inputs, inputs_depth) = self.inputs(tokens)?;
        let (output, output_depth) = self.return_type(tokens)?;
        let span = tokens.upto(start);
        Ok((
            PathArguments::Parenthesized {
                inputs,
                output,
                span,
            },
            inputs_depth.max(output_depth),
        ))
    }

    /// `N = 8`
    #[tactic(auto, unfolding(syn_grammar::specs::Paths::assoc_const), using(syn_grammar::proofs::Depths::depths))]
    fn assoc_const(&self, tokens: &mut Cursor<'_>) -> Parsed<GenericArgument>
        requires { R.reads_within self.now.parts self.now.depth }
        ensures { Reads argument_depth self.now.depth (paths.assoc_const (within self.now.depth) tokens.old) result tokens.new }
    {
        let start = tokens.here();
        let ident = tokens.take_name(self.alloc)?;
        tokens.skip();
        let (value, depth) = self.expr(tokens, CONSTANT_LEVEL)?;
        let span = tokens.upto(start);
        Ok((GenericArgument::AssocConst { ident, value, span }, depth))
    }

    /// `Item = u8`
    #[tactic(auto, unfolding(syn_grammar::specs::Paths::assoc_type), using(syn_grammar::proofs::Depths::depths))]
    fn assoc_type(&self, tokens: &mut Cursor<'_>) -> Parsed<GenericArgument>
        requires { R.reads_within self.now.parts self.now.depth }
        ensures { Reads argument_depth self.now.depth (paths.assoc_type (within self.now.depth) tokens.old) result tokens.new }
    {
        let start = tokens.here();
        let ident = tokens.take_name(self.alloc)?;
        tokens.skip();
        let (ty, depth) = self.ty(tokens, true)?;
        let span = tokens.upto(start);
        Ok((GenericArgument::AssocType { ident, ty, span }, depth))
    }

    /// `I: Copy`
    #[tactic(auto, unfolding(syn_grammar::specs::Paths::constraint), using(syn_grammar::proofs::Depths::depths))]
    fn constraint(&self, tokens: &mut Cursor<'_>) -> Parsed<GenericArgument>
        requires { R.reads_within self.now.parts self.now.depth }
        ensures { Reads argument_depth self.now.depth (paths.constraint (within self.now.depth) tokens.old) result tokens.new }
    {
        let start = tokens.here();
        let ident = tokens.take_name(self.alloc)?;
        tokens.skip();
        let (bounds, depth) = self.constraint_bounds(tokens)?;
        let span = tokens.upto(start);
        Ok((
            GenericArgument::Constraint {
                ident,
                bounds,
                span,
            },
            depth,
        ))
    }

    /// One of the arguments in `<..>`.
    #[tactic(auto, unfolding(syn_grammar::specs::Paths::generic_argument), using(syn_grammar::proofs::Depths::depths))]
    pub(crate) fn generic_argument(&self, tokens: &mut Cursor<'_>) -> Parsed<GenericArgument>
        requires { R.reads_within self.now.parts self.now.depth }
        ensures { Reads argument_depth self.now.depth (paths.generic_argument (within self.now.depth) tokens.old) result tokens.new }
    {
        match argument_start(tokens.rest()) {
            ArgumentStart::Lifetime => {
                let lifetime = tokens.take_lifetime(self.alloc)?;
                Ok((GenericArgument::Lifetime(lifetime), 0))
            }
            ArgumentStart::Constant => {
                let (value, depth) = self.expr(tokens, CONSTANT_LEVEL)?;
                Ok((GenericArgument::Const(value), depth))
            }
            ArgumentStart::AssocConst => self.assoc_const(tokens),
            ArgumentStart::AssocType => self.assoc_type(tokens),
            ArgumentStart::Constraint => self.constraint(tokens),
            ArgumentStart::Type => {
                let (ty, depth) = self.ty(tokens, true)?;
                Ok((GenericArgument::Ty(ty), depth))
            }
        }
    }

    /// What is left of the arguments in `<..>`, with its end.
    pub fn angle_arguments(&self, tokens: &mut Cursor<'_>) -> Parsed<Items<GenericArgument>>
        requires { R.reads_within self.now.parts self.now.depth }
        ensures { Reads (all_depth argument_depth) self.now.depth (paths.angle_list (paths.generic_argument (within self.now.depth)) tokens.old) result tokens.new }
    {
        let mut arguments = Deepest {
            inner: self,
            depth: 0,
        };
        let found = until(self.alloc, tokens, '>', &mut arguments)?;
        Ok((found, arguments.depth))
    }

    /// What follows the word of a segment: `::<A>`, and in a type also `<A>` or `(A) -> B`.
    #[tactic(auto, unfolding(syn_grammar::specs::Paths::arguments), using(syn_grammar::proofs::Depths::depths))]
    fn arguments(&self, tokens: &mut Cursor<'_>, in_type: bool) -> Parsed<PathArguments>
        requires { R.reads_within self.now.parts self.now.depth }
        ensures { Reads arguments_depth self.now.depth (paths.arguments (within self.now.depth) in_type tokens.old) result tokens.new }
    {
        match arguments_start(in_type, tokens.rest()) {
            ArgumentsStart::Turbofish => {
                tokens.skip_by(3);
                let (arguments, depth) = self.angle_arguments(tokens)?;
                Ok((PathArguments::AngleBracketed(arguments), depth))
            }
            ArgumentsStart::Less => {
                tokens.skip();
                let (arguments, depth) = self.angle_arguments(tokens)?;
                Ok((PathArguments::AngleBracketed(arguments), depth))
            }
            ArgumentsStart::Parenthesis => self.parenthesized(tokens),
            ArgumentsStart::Nothing => Ok((PathArguments::None, 0)),
        }
    }

    /// One segment of a path. In a type `<` may stand for `::<`, and inputs in parentheses may follow.
    #[tactic(auto, unfolding(syn_grammar::specs::Paths::segment), using(syn_grammar::proofs::Depths::depths))]
    pub(crate) fn segment(&self, tokens: &mut Cursor<'_>, in_type: bool) -> Parsed<PathSegment>
        requires { R.reads_within self.now.parts self.now.depth }
        ensures { Reads segment_depth self.now.depth (paths.segment (within self.now.depth) in_type tokens.old) result tokens.new }
    {
        let start = tokens.here();
        let ident = tokens.take_segment_word(self.alloc)?;
        let (arguments, depth) = self.arguments(tokens, in_type)?;
        let span = tokens.upto(start);
        Ok((
            PathSegment {
                ident,
                arguments,
                span,
            },
            depth,
        ))
    }

    /// Segments joined by `::`.
    #[tactic(auto, unfolding(syn_grammar::specs::Paths::segments), using(syn_grammar::proofs::Depths::depths))]
    fn segments(&self, tokens: &mut Cursor<'_>, in_type: bool) -> Parsed<Items<PathSegment>>
        requires { R.reads_within self.now.parts self.now.depth }
        ensures { Reads (all_depth segment_depth) self.now.depth (paths.segments (within self.now.depth) in_type tokens.old) result tokens.new }
    {
        let reader = SegmentReader {
            rules: self,
            in_type,
        };
        let mut segments = Deepest {
            inner: &reader,
            depth: 0,
        };
        let found = joined_by(self.alloc, tokens, Joint::Colons, &mut segments)?;
        Ok((found, segments.depth))
    }

    /// A path, of a type or of an expression.
    #[tactic(auto, unfolding(syn_grammar::specs::Paths::path), using(syn_grammar::proofs::Depths::depths))]
    pub fn path(&self, tokens: &mut Cursor<'_>, in_type: bool) -> Parsed<Path>
        requires { R.reads_within self.now.parts self.now.depth }
        ensures { Reads path_depth self.now.depth (paths.path (within self.now.depth) in_type tokens.old) result tokens.new }
    {
        let start = tokens.here();
        let leading_colon = tokens.eat_colons();
        let (segments, depth) = self.segments(tokens, in_type)?;
        let span = tokens.upto(start);
        Ok((
            Path {
                leading_colon,
                segments,
                span,
            },
            depth,
        ))
    }

    /// `as a::b::Trait>::Item` behind `<T`, where `T` is `depth` deep.
    #[tactic(auto, unfolding(syn_grammar::specs::Paths::after_as), using(syn_grammar::proofs::MadeDepths::path_depths))]
    fn after_as(
        &self,
        tokens: &mut Cursor<'_>,
        in_type: bool,
        start: Span,
        ty: Boxed<Type>,
        depth: usize,
    ) -> Parsed<(QSelf, Path)>
        requires reads_within { R.reads_within self.now.parts self.now.depth }
        requires depth { depth ≡ type_depth ty }
        requires within { depth ≤ self.now.depth }
        ensures { Reads (λ found. max (type_depth found.0.ty) (path_depth found.1)) self.now.depth (paths.after_as (within self.now.depth) in_type start ty tokens.old) result tokens.new }
    {
        let path_start = tokens.here();
        let leading_colon = tokens.eat_colons();
        let (mut segments, before_depth) = self.segments(tokens, true)?;
        let position = segments.len();
        tokens.expect_mark('>')?;
        let qself_span = tokens.upto(start);
        tokens.expect_colons()?;
        let (behind, behind_depth) = self.segments(tokens, in_type)?;
        segments.append(behind)?;
        let span = tokens.upto(path_start);
        let qself = QSelf {
            ty,
            position,
            span: qself_span,
        };
        let path = Path {
            leading_colon,
            segments,
            span,
        };
        Ok(((qself, path), depth.max(before_depth).max(behind_depth)))
    }

    /// `>::Item` behind `<T`, where `T` is `depth` deep.
    #[tactic(auto, unfolding(syn_grammar::specs::Paths::without_as), using(syn_grammar::proofs::MadeDepths::path_depths))]
    fn without_as(
        &self,
        tokens: &mut Cursor<'_>,
        in_type: bool,
        start: Span,
        ty: Boxed<Type>,
        depth: usize,
    ) -> Parsed<(QSelf, Path)>
        requires reads_within { R.reads_within self.now.parts self.now.depth }
        requires depth { depth ≡ type_depth ty }
        requires within { depth ≤ self.now.depth }
        ensures { Reads (λ found. max (type_depth found.0.ty) (path_depth found.1)) self.now.depth (paths.without_as (within self.now.depth) in_type start ty tokens.old) result tokens.new }
    {
        tokens.expect_mark('>')?;
        let qself_span = tokens.upto(start);
        let path_start = tokens.here();
        tokens.expect_colons()?;
        let (segments, path_depth) = self.segments(tokens, in_type)?;
        let span = tokens.upto(path_start);
        let qself = QSelf {
            ty,
            position: 0,
            span: qself_span,
        };
        let path = Path {
            leading_colon: true,
            segments,
            span,
        };
        Ok(((qself, path), depth.max(path_depth)))
    }

    /// `<T as a::b::Trait>::Item`, `<T>::Item`
    #[tactic(auto, unfolding(syn_grammar::specs::Paths::qualified))]
    pub fn qualified(&self, tokens: &mut Cursor<'_>, in_type: bool) -> Parsed<(QSelf, Path)>
        requires { R.reads_within self.now.parts self.now.depth }
        ensures { Reads (λ found. max (type_depth found.0.ty) (path_depth found.1)) self.now.depth (paths.qualified (within self.now.depth) in_type tokens.old) result tokens.new }
    {
        let start = tokens.here();
        tokens.expect_mark('<')?;
        let (ty, depth) = self.ty(tokens, true)?;
        let ty = Boxed::new(self.alloc, ty)?;
        if tokens.eat_word(Word::As) {
            self.after_as(tokens, in_type, start, ty, depth)
        } else {
            self.without_as(tokens, in_type, start, ty, depth)
        }
    }

    /// `Copy`, `?Sized`, `for<'a> Fn(&'a T) -> bool`
    #[tactic(auto, unfolding(syn_grammar::specs::Paths::trait_bound), using(syn_grammar::proofs::Depths::depths))]
    fn trait_bound(&self, tokens: &mut Cursor<'_>) -> Parsed<TypeParamBound>
        requires { R.reads_within self.now.parts self.now.depth }
        ensures { Reads bound_depth self.now.depth (paths.trait_bound (within self.now.depth) tokens.old) result tokens.new }
    {
        let start = tokens.here();
        let maybe = tokens.eat_mark('?');
        let lifetimes = binder(self.alloc, tokens)?;
        let (path, depth) = self.path(tokens, true)?;
        let span = tokens.upto(start);
        let bound = TraitBound {
            maybe,
            lifetimes,
            path,
            span,
        };
        Ok((TypeParamBound::Trait(bound), depth))
    }

    /// A lifetime, or a bound that is a path.
    #[tactic(auto, unfolding(syn_grammar::specs::Paths::one_bound), using(syn_grammar::proofs::Depths::depths))]
    pub(crate) fn one_bound(&self, tokens: &mut Cursor<'_>) -> Parsed<TypeParamBound>
        requires { R.reads_within self.now.parts self.now.depth }
        ensures { Reads bound_depth self.now.depth (paths.one_bound (within self.now.depth) tokens.old) result tokens.new }
    {
        if lifetime_of(tokens.rest()).is_some() {
            let lifetime = tokens.take_lifetime(self.alloc)?;
            return Ok((TypeParamBound::Lifetime(lifetime), 0));
        }
        self.trait_bound(tokens)
    }

    /// Bounds joined by `+`.
    #[tactic(auto, unfolding(syn_grammar::specs::Paths::joined_bounds), using(syn_grammar::proofs::Depths::depths))]
    pub fn joined_bounds(&self, tokens: &mut Cursor<'_>) -> Parsed<Items<TypeParamBound>>
        requires { R.reads_within self.now.parts self.now.depth }
        ensures { Reads (all_depth bound_depth) self.now.depth (paths.joined_bounds (within self.now.depth) tokens.old) result tokens.new }
    {
        let mut bounds = Deepest {
            inner: self,
            depth: 0,
        };
        let found = joined_by(self.alloc, tokens, Joint::Plus, &mut bounds)?;
        Ok((found, bounds.depth))
    }

    /// Bounds joined by `+`; or one alone.
    #[tactic(auto, unfolding(syn_grammar::specs::Paths::bounds), using(syn_grammar::proofs::Depths::depths))]
    pub(crate) fn bounds(
        &self,
        tokens: &mut Cursor<'_>,
        allow_plus: bool,
    ) -> Parsed<Items<TypeParamBound>>
        requires { R.reads_within self.now.parts self.now.depth }
        ensures { Reads (all_depth bound_depth) self.now.depth (paths.bounds (within self.now.depth) allow_plus tokens.old) result tokens.new }
    {
        if allow_plus {
            return self.joined_bounds(tokens);
        }
        let (bound, depth) = self.one_bound(tokens)?;
        Ok((Items::of(self.alloc, bound)?, depth))
    }

    /// The bounds of a constraint, which are one level.
    pub fn bounds_step(&self, tokens: &mut Cursor<'_>) -> Parsed<Items<TypeParamBound>>
        requires { R.reads_within self.now.parts self.now.depth }
        ensures { Reads bounds_depth (self.now.depth + 1) (paths.bounds (within self.now.depth) true tokens.old) result tokens.new }
    {
        let (found, depth) = self.bounds(tokens, true)?;
        Ok((found, depth + 1))
    }
}
