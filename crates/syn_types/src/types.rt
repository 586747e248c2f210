//! Types.

ghost use Rattle.std.specs.Prelude.{◌≡◌, ◌+◌, if◌then◌else◌};
ghost use Rattle.syn_grammar.specs.Depth.{type_depth};
ghost use Rattle.syn_grammar.specs.Grammar.{within};
ghost use Rattle.syn_grammar.specs.Input as input;
ghost use Rattle.syn_grammar.specs.Paths as paths;
ghost use Rattle.syn_grammar.specs.Reads.{Gives, Reads};
ghost use Rattle.syn_grammar.specs.Token.{lifetime_of};
ghost use Rattle.syn_grammar.specs.Types as types;
ghost use Rattle.syn_grammar.specs.Words as words;
ghost use Rattle.syn_grammar.specs.declared.word.Word.TheVariants as word;
ghost use Rattle.tok_types.specs.declared.tree.Delimiter.TheVariants as delimiter;
ghost use Rattle.syn_lists.specs.Lists.{all_depth};

use crate::paths::binder;
use crate::rules::{ANY_LEVEL, ReadParts, Rules};
use base_core::{Boxed, Items, TryClone};
use node_expr::{
    NamedArg, Type, TypeArray, TypeFnPtr, TypeImplTrait, TypeInfer, TypeNever, TypePath, TypeSlice,
    TypeTraitObject, TypeTuple,
};
use node_make::make;
use std::alloc::Global;
use syn_grammar::{
    Cursor, ReadFail, TypeStart, Word, after_one, is_colon, is_group, lifetime_of, name_of,
    type_start,
};
use syn_lists::{Deepest, Parsed, items_after};
use tok_types::{Delimiter, Ident, Lifetime, Span};

/// `'a`, or nothing
fn optional_lifetime(alloc: Global, tokens: &mut Cursor<'_>) -> Result<Option<Lifetime>, ReadFail>
    ensures { Gives (input.eat_as lifetime_of tokens.old) result tokens.new }
{
    if lifetime_of(tokens.rest()).is_none() {
        return Ok(None);
    }
    let lifetime = tokens.take_lifetime(alloc)?;
    Ok(Some(lifetime))
}

/// `const`, unless `mut` stood there.
fn const_unless(mutable: bool, tokens: &mut Cursor<'_>) -> Result<(), ReadFail>
    ensures { Gives ((if mutable then input.pure tt else input.expect 1 (words.peek word.Const)) tokens.old) result tokens.new }
{
    if mutable {
        Ok(())
    } else {
        tokens.expect_word(Word::Const)
    }
}

/// `name:`, or nothing
#[tactic(auto, unfolding(syn_grammar::specs::Types::name_before_colon))]
fn arg_name(alloc: Global, tokens: &mut Cursor<'_>) -> Result<Option<Ident>, ReadFail>
    ensures { Gives (types.arg_name tokens.old) result tokens.new }
{
    if !is_colon(after_one(tokens.rest())) {
        return Ok(None);
    }
    let Some(name) = name_of(tokens.rest()) else {
        return Ok(None);
    };
    let name = name.try_clone(alloc)?;
    tokens.skip_by(2);
    Ok(Some(name))
}

// A level of a tree costs the frames on its way: a rule that is rarely on it keeps its frame to itself.

impl<R: ReadParts> Rules<R> {
    /// What stands in `(..)`: a tuple where a comma stands, or nothing at all.
    #[tactic(auto, unfolding(syn_grammar::specs::Types::type_group), using(syn_grammar::proofs::MadeDepths::group_depths))]
    fn type_group(&self, tokens: &mut Cursor<'_>, span: Span) -> Parsed<Type>
        requires { R.reads_within self.now.parts self.now.depth }
        ensures { Reads type_depth (self.now.depth + 1) (types.type_group (within self.now.depth) span tokens.old) result tokens.new }
    {
        if tokens.at_end() {
            let elems = Items::new(self.alloc);
            return Ok((Type::Tuple(TypeTuple { elems, span }), 1));
        }
        let (first, depth) = self.ty(tokens, true)?;
        if !tokens.eat_mark(',') {
            let paren = make::type_paren(self.alloc, first, span)?;
            return Ok((Type::Paren(paren), depth + 1));
        }
        let found = Items::of(self.alloc, first)?;
        let (elems, depth) = self.types_after(tokens, found, depth)?;
        Ok((Type::Tuple(TypeTuple { elems, span }), depth + 1))
    }

    /// What stands in `[..]`.
    #[tactic(auto, unfolding(syn_grammar::specs::Types::type_bracket), using(syn_grammar::proofs::MadeDepths::group_depths))]
    fn type_bracket(&self, tokens: &mut Cursor<'_>, span: Span) -> Parsed<Type>
        requires { R.reads_within self.now.parts self.now.depth }
        ensures { Reads type_depth (self.now.depth + 1) (types.type_bracket (within self.now.depth) span tokens.old) result tokens.new }
    {
        let (elem, depth) = self.ty(tokens, true)?;
        let elem = Boxed::new(self.alloc, elem)?;
        if !tokens.eat_mark(';') {
            return Ok((Type::Slice(TypeSlice { elem, span }), depth + 1));
        }
        let (len, len_depth) = self.expr(tokens, ANY_LEVEL)?;
        let array = TypeArray { elem, len, span };
        Ok((Type::Array(array), depth.max(len_depth) + 1))
    }

    /// `&'a mut T`
    #[inline(never)]
    #[tactic(auto, unfolding(syn_grammar::specs::Types::type_reference), using(syn_grammar::proofs::Depths::depths))]
    fn type_reference(&self, tokens: &mut Cursor<'_>) -> Parsed<Type>
        requires { R.reads_within self.now.parts self.now.depth }
        ensures { Reads type_depth (self.now.depth + 1) (types.type_reference (within self.now.depth) tokens.old) result tokens.new }
    {
        let start = tokens.here();
        tokens.skip();
        let lifetime = optional_lifetime(self.alloc, tokens)?;
        let mutable = tokens.eat_word(Word::Mut);
        let (elem, depth) = self.ty(tokens, false)?;
        let span = tokens.upto(start);
        let reference = make::type_reference(self.alloc, lifetime, mutable, elem, span)?;
        Ok((Type::Reference(reference), depth + 1))
    }

    /// `*const T`, `*mut T`
    #[inline(never)]
    #[tactic(auto, unfolding(syn_grammar::specs::Types::type_pointer), using(syn_grammar::proofs::Depths::depths))]
    fn type_pointer(&self, tokens: &mut Cursor<'_>) -> Parsed<Type>
        requires { R.reads_within self.now.parts self.now.depth }
        ensures { Reads type_depth (self.now.depth + 1) (types.type_pointer (within self.now.depth) tokens.old) result tokens.new }
    {
        let start = tokens.here();
        tokens.skip();
        let mutable = tokens.eat_word(Word::Mut);
        const_unless(mutable, tokens)?;
        let (elem, depth) = self.ty(tokens, false)?;
        let span = tokens.upto(start);
        let pointer = make::type_ptr(self.alloc, mutable, elem, span)?;
        Ok((Type::Ptr(pointer), depth + 1))
    }

    /// `T`, `name: T`
    #[tactic(auto, unfolding(syn_grammar::specs::Types::named_arg), using(syn_grammar::proofs::Depths::depths))]
    pub(crate) fn named_arg(&self, tokens: &mut Cursor<'_>) -> Parsed<NamedArg>
        requires { R.reads_within self.now.parts self.now.depth }
        ensures { Reads (λ arg. type_depth arg.ty) self.now.depth (types.named_arg (within self.now.depth) tokens.old) result tokens.new }
    {
        let start = tokens.here();
        let name = arg_name(self.alloc, tokens)?;
        let (ty, depth) = self.ty(tokens, true)?;
        let span = tokens.upto(start);
        Ok((NamedArg { name, ty, span }, depth))
    }

    /// The inputs in `(A, name: B)`.
    fn named_args(&self, tokens: &mut Cursor<'_>) -> Parsed<Items<NamedArg>>
        requires { R.reads_within self.now.parts self.now.depth }
        ensures { Reads (all_depth (λ arg. type_depth arg.ty)) self.now.depth (input.inside delimiter.Parenthesis (paths.list (types.named_arg (within self.now.depth))) tokens.old) result tokens.new }
    {
        if !is_group(Delimiter::Parenthesis, tokens.rest()) {
            return Err(ReadFail::Syntax);
        }
        let mut inner = tokens.contents();
        let inputs = self.named_arg_list(&mut inner)?;
        inner.finish()?;
        tokens.skip();
        Ok(inputs)
    }

    /// Inputs of a function pointer, to the end.
    fn named_arg_list(&self, tokens: &mut Cursor<'_>) -> Parsed<Items<NamedArg>>
        requires { R.reads_within self.now.parts self.now.depth }
        ensures { Reads (all_depth (λ arg. type_depth arg.ty)) self.now.depth (paths.list (types.named_arg (within self.now.depth)) tokens.old) result tokens.new }
    {
        let mut args = Deepest {
            inner: self,
            depth: 0,
        };
        let found = items_after(tokens, &mut args, Items::new(self.alloc))?;
        Ok((found, args.depth))
    }

    /// `for<'a> fn(&'a A, name: B) -> C`
    #[inline(never)]
    #[tactic(auto, unfolding(syn_grammar::specs::Types::type_fn_ptr), using(syn_grammar::proofs::MadeDepths::fn_ptr_depths))]
    fn type_fn_ptr(&self, tokens: &mut Cursor<'_>) -> Parsed<Type>
        requires { R.reads_within self.now.parts self.now.depth }
        ensures { Reads type_depth (self.now.depth + 1) (types.type_fn_ptr (within self.now.depth) tokens.old) result tokens.new }
    {
        let start = tokens.here();
        let lifetimes = binder(self.alloc, tokens)?;
        tokens.expect_word(Word::Fn)?;
        let (inputs, inputs_depth) = self.named_args(tokens)?;
        let (output, output_depth) = self.return_type(tokens)?;
        let span = tokens.upto(start);
        let pointer = TypeFnPtr {
            lifetimes,
            inputs,
            output,
            span,
        };
        Ok((Type::FnPtr(pointer), inputs_depth.max(output_depth) + 1))
    }

    /// `dyn` and bounds
    #[inline(never)]
    #[tactic(auto, unfolding(syn_grammar::specs::Types::type_trait_object), using(syn_grammar::proofs::MadeDepths::bounds_depths))]
    fn type_trait_object(&self, tokens: &mut Cursor<'_>, allow_plus: bool) -> Parsed<Type>
        requires { R.reads_within self.now.parts self.now.depth }
        ensures { Reads type_depth (self.now.depth + 1) (types.type_trait_object (within self.now.depth) allow_plus tokens.old) result tokens.new }
    {
        let start = tokens.here();
        tokens.skip();
        let (bounds, depth) = self.bounds(tokens, allow_plus)?;
        let span = tokens.upto(start);
        let object = TypeTraitObject { bounds, span };
        Ok((Type::TraitObject(object), depth + 1))
    }

    /// `impl` and bounds
    #[inline(never)]
    #[tactic(auto, unfolding(syn_grammar::specs::Types::type_impl_trait), using(syn_grammar::proofs::MadeDepths::bounds_depths))]
    fn type_impl_trait(&self, tokens: &mut Cursor<'_>, allow_plus: bool) -> Parsed<Type>
        requires { R.reads_within self.now.parts self.now.depth }
        ensures { Reads type_depth (self.now.depth + 1) (types.type_impl_trait (within self.now.depth) allow_plus tokens.old) result tokens.new }
    {
        let start = tokens.here();
        tokens.skip();
        let (bounds, depth) = self.bounds(tokens, allow_plus)?;
        let span = tokens.upto(start);
        Ok((Type::ImplTrait(TypeImplTrait { bounds, span }), depth + 1))
    }

    /// `<T as Trait>::Item`
    #[inline(never)]
    #[tactic(auto, unfolding(syn_grammar::specs::Types::type_qualified), using(syn_grammar::proofs::Depths::depths))]
    fn type_qualified(&self, tokens: &mut Cursor<'_>) -> Parsed<Type>
        requires { R.reads_within self.now.parts self.now.depth }
        ensures { Reads type_depth (self.now.depth + 1) (types.type_qualified (within self.now.depth) tokens.old) result tokens.new }
    {
        let start = tokens.here();
        let ((qself, path), depth) = self.qualified(tokens, true)?;
        let span = tokens.upto(start);
        let found = TypePath {
            qself: Some(qself),
            path,
            span,
        };
        Ok((Type::Path(found), depth + 1))
    }

    /// `a::B<T>`
    #[tactic(auto, unfolding(syn_grammar::specs::Types::type_path), using(syn_grammar::proofs::Depths::depths))]
    fn type_path(&self, tokens: &mut Cursor<'_>) -> Parsed<Type>
        requires { R.reads_within self.now.parts self.now.depth }
        ensures { Reads type_depth (self.now.depth + 1) (types.type_path (within self.now.depth) tokens.old) result tokens.new }
    {
        let start = tokens.here();
        let (path, depth) = self.path(tokens, true)?;
        let span = tokens.upto(start);
        let found = TypePath {
            qself: None,
            path,
            span,
        };
        Ok((Type::Path(found), depth + 1))
    }

    /// `(T)`, `(A, B)`, `()`
    #[inline(never)]
    #[tactic(auto, unfolding(syn_grammar::specs::Types::type_in_parentheses), using(syn_grammar::proofs::Depths::depths))]
    fn type_in_parentheses(&self, tokens: &mut Cursor<'_>) -> Parsed<Type>
        requires { R.reads_within self.now.parts self.now.depth }
        ensures { Reads type_depth (self.now.depth + 1) (types.type_in_parentheses (within self.now.depth) tokens.old) result tokens.new }
    {
        let span = tokens.here();
        if !is_group(Delimiter::Parenthesis, tokens.rest()) {
            return Err(ReadFail::Syntax);
        }
        let mut inner = tokens.contents();
        let group = self.type_group(&mut inner, span)?;
        inner.finish()?;
        tokens.skip();
        Ok(group)
    }

    /// `[T]`, `[T; n]`
    #[inline(never)]
    #[tactic(auto, unfolding(syn_grammar::specs::Types::type_in_brackets), using(syn_grammar::proofs::Depths::depths))]
    fn type_in_brackets(&self, tokens: &mut Cursor<'_>) -> Parsed<Type>
        requires { R.reads_within self.now.parts self.now.depth }
        ensures { Reads type_depth (self.now.depth + 1) (types.type_in_brackets (within self.now.depth) tokens.old) result tokens.new }
    {
        let span = tokens.here();
        if !is_group(Delimiter::Bracket, tokens.rest()) {
            return Err(ReadFail::Syntax);
        }
        let mut inner = tokens.contents();
        let bracket = self.type_bracket(&mut inner, span)?;
        inner.finish()?;
        tokens.skip();
        Ok(bracket)
    }

    /// A type. A `dyn` or `impl` has several bounds where `allow_plus` says so, and else one.
    #[tactic(auto, unfolding(syn_grammar::specs::Types::type_step), using(syn_grammar::proofs::Depths::depths))]
    pub fn type_step(&self, tokens: &mut Cursor<'_>, allow_plus: bool) -> Parsed<Type>
        requires { R.reads_within self.now.parts self.now.depth }
        ensures { Reads type_depth (self.now.depth + 1) (types.type_step (within self.now.depth) allow_plus tokens.old) result tokens.new }
    {
        match type_start(tokens.rest()) {
            TypeStart::Parenthesis => self.type_in_parentheses(tokens),
            TypeStart::Bracket => self.type_in_brackets(tokens),
            TypeStart::Never => {
                let span = tokens.here();
                tokens.skip();
                Ok((Type::Never(TypeNever { span }), 1))
            }
            TypeStart::Infer => {
                let span = tokens.here();
                tokens.skip();
                Ok((Type::Infer(TypeInfer { span }), 1))
            }
            TypeStart::Reference => self.type_reference(tokens),
            TypeStart::Pointer => self.type_pointer(tokens),
            TypeStart::FnPtr => self.type_fn_ptr(tokens),
            TypeStart::TraitObject => self.type_trait_object(tokens, allow_plus),
            TypeStart::ImplTrait => self.type_impl_trait(tokens, allow_plus),
            TypeStart::Qualified => self.type_qualified(tokens),
            TypeStart::Path => self.type_path(tokens),
            TypeStart::Nothing => Err(ReadFail::Syntax),
        }
    }
}
