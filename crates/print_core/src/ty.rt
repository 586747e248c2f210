//! The tokens of types.

ghost use Rattle.std.specs.Prelude.{◌≡◌, ◌++◌, map, OnOk};
ghost use Rattle.print_core.specs.Marks.{comma, after, group, joined, tuple, word};
ghost use Rattle.print_core.specs.Paths.{return_of, sum_of};
ghost use Rattle.print_core.specs.Types.{maybe_name, mutability, named_arg_rule};
ghost use Rattle.print_core.specs.Nodes.{bound_tokens, type_array_tokens, type_path_tokens, type_tokens};
ghost use Rattle.print_core.specs.Kinds.{fn_ptr_tokens, impl_trait_tokens, named_arg_tokens, printed_arg, printed_return, ptr_tokens, reference_tokens, return_tokens, slice_tokens, trait_object_tokens, type_group_tokens, type_paren_tokens, type_tuple_tokens};
ghost use Rattle.print_core.specs.Fronts.{IsFront};

use crate::bound::{print_binder, print_bounds};
use crate::path::{PathStyle, print_after_type, print_path};
use crate::push::{push_comma, push_group, push_mark, push_word};
use crate::to_tokens::ToTokens;
use base_core::{Items, Mem};
use node_expr::{
    NamedArg, ReturnType, Type, TypeArray, TypeFnPtr, TypeGroup, TypeImplTrait, TypeInfer,
    TypeNever, TypeParamBound, TypeParen, TypePath, TypePtr, TypeReference, TypeSlice,
    TypeTraitObject, TypeTuple,
};
use std::alloc::Global;
use tok_types::{Delimiter, Ident, Span, TokenTree};

impl ToTokens for Type {
    ghost printing = { type_tokens };

    #[cycle(print)]
    fn print(&self, alloc: Global, trees: &mut Items<TokenTree>) -> Mem<()> {
        match self {
            Type::Path(it) => it.print(alloc, trees),
            Type::Reference(it) => it.print(alloc, trees),
            Type::Ptr(it) => it.print(alloc, trees),
            Type::Slice(it) => it.print(alloc, trees),
            Type::Array(it) => it.print(alloc, trees),
            Type::Tuple(TypeTuple { elems, span }) => {
                print_tuple(elems.as_slice(), *span, alloc, trees)
            }
            Type::Paren(it) => it.print(alloc, trees),
            Type::Group(it) => it.print(alloc, trees),
            Type::FnPtr(it) => it.print(alloc, trees),
            Type::TraitObject(TypeTraitObject { bounds, span }) => {
                print_bounded("dyn", bounds.as_slice(), *span, alloc, trees)
            }
            Type::ImplTrait(TypeImplTrait { bounds, span }) => {
                print_bounded("impl", bounds.as_slice(), *span, alloc, trees)
            }
            Type::Never(it) => it.print(alloc, trees),
            Type::Infer(it) => it.print(alloc, trees),
        }
    }
}

impl ToTokens for TypePath {
    ghost printing = { type_path_tokens };

    #[cycle(print)]
    fn print(&self, alloc: Global, trees: &mut Items<TokenTree>) -> Mem<()> {
        match &self.qself {
            None => print_path(&self.path, PathStyle::Plain, alloc, trees),
            Some(qself) => {
                push_mark(trees, &['<'], qself.span)?;
                qself.ty.get().print(alloc, trees)?;
                print_after_type(
                    &self.path,
                    qself.position,
                    qself.span,
                    PathStyle::Plain,
                    alloc,
                    trees,
                )
            }
        }
    }
}

impl ToTokens for TypeReference {
    ghost printing = { reference_tokens };

    #[cycle(print)]
    fn print(&self, alloc: Global, trees: &mut Items<TokenTree>) -> Mem<()> {
        push_mark(trees, &['&'], self.span)?;
        self.lifetime.print(alloc, trees)?;
        print_mutability(self.mutable, self.span, alloc, trees)?;
        self.elem.get().print(alloc, trees)
    }
}

impl ToTokens for TypePtr {
    ghost printing = { ptr_tokens };

    #[cycle(print)]
    fn print(&self, alloc: Global, trees: &mut Items<TokenTree>) -> Mem<()> {
        push_mark(trees, &['*'], self.span)?;
        let word = if self.mutable { "mut" } else { "const" };
        push_word(alloc, trees, word, self.span)?;
        self.elem.get().print(alloc, trees)
    }
}

impl ToTokens for TypeSlice {
    ghost printing = { slice_tokens };

    #[cycle(print)]
    fn print(&self, alloc: Global, trees: &mut Items<TokenTree>) -> Mem<()> {
        let mut inside = Items::new(alloc);
        self.elem.get().print(alloc, &mut inside)?;
        push_group(alloc, trees, Delimiter::Bracket, inside, self.span)
    }
}

impl ToTokens for TypeArray {
    ghost printing = { type_array_tokens };

    #[cycle(print)]
    fn print(&self, alloc: Global, trees: &mut Items<TokenTree>) -> Mem<()> {
        let mut inside = Items::new(alloc);
        self.elem.get().print(alloc, &mut inside)?;
        push_mark(&mut inside, &[';'], self.span)?;
        self.len.print(alloc, &mut inside)?;
        push_group(alloc, trees, Delimiter::Bracket, inside, self.span)
    }
}

impl ToTokens for TypeTuple {
    ghost printing = { type_tuple_tokens };

    fn print(&self, alloc: Global, trees: &mut Items<TokenTree>) -> Mem<()> {
        print_tuple(self.elems.as_slice(), self.span, alloc, trees)
    }
}

impl ToTokens for TypeParen {
    ghost printing = { type_paren_tokens };

    #[cycle(print)]
    fn print(&self, alloc: Global, trees: &mut Items<TokenTree>) -> Mem<()> {
        let mut inside = Items::new(alloc);
        self.elem.get().print(alloc, &mut inside)?;
        push_group(alloc, trees, Delimiter::Parenthesis, inside, self.span)
    }
}

impl ToTokens for TypeGroup {
    ghost printing = { type_group_tokens };

    #[cycle(print)]
    fn print(&self, alloc: Global, trees: &mut Items<TokenTree>) -> Mem<()> {
        let mut inside = Items::new(alloc);
        self.elem.get().print(alloc, &mut inside)?;
        push_group(alloc, trees, Delimiter::None, inside, self.span)
    }
}

impl ToTokens for TypeFnPtr {
    ghost printing = { fn_ptr_tokens };

    #[cycle(print)]
    fn print(&self, alloc: Global, trees: &mut Items<TokenTree>) -> Mem<()> {
        let span = self.span;
        print_binder(self.lifetimes.as_slice(), span, alloc, trees)?;
        push_word(alloc, trees, "fn", span)?;
        let mut inside = Items::new(alloc);
        if let Some((first, others)) = self.inputs.as_slice().split_first() {
            print_maybe_name(&first.name, first.span, alloc, &mut inside)?;
            first.ty.print(alloc, &mut inside)?;
            for arg in others {
                push_comma(&mut inside, span)?;
                print_maybe_name(&arg.name, arg.span, alloc, &mut inside)?;
                arg.ty.print(alloc, &mut inside)?;
            }
        }
        push_group(alloc, trees, Delimiter::Parenthesis, inside, span)?;
        match &self.output {
            ReturnType::Default => Ok(()),
            ReturnType::Ty(ty) => {
                push_mark(trees, &['-', '>'], span)?;
                ty.get().print(alloc, trees)
            }
        }
    }
}

impl ToTokens for TypeTraitObject {
    ghost printing = { trait_object_tokens };

    fn print(&self, alloc: Global, trees: &mut Items<TokenTree>) -> Mem<()> {
        print_bounded("dyn", self.bounds.as_slice(), self.span, alloc, trees)
    }
}

impl ToTokens for TypeImplTrait {
    ghost printing = { impl_trait_tokens };

    fn print(&self, alloc: Global, trees: &mut Items<TokenTree>) -> Mem<()> {
        print_bounded("impl", self.bounds.as_slice(), self.span, alloc, trees)
    }
}

impl ToTokens for TypeNever {
    ghost use Rattle.print_core.specs.Types.{never_rule};

    ghost printing = { never_rule };

    fn print(&self, alloc: Global, trees: &mut Items<TokenTree>) -> Mem<()> {
        push_mark(trees, &['!'], self.span)
    }
}

impl ToTokens for TypeInfer {
    ghost use Rattle.print_core.specs.Types.{type_infer_rule};

    ghost printing = { type_infer_rule };

    fn print(&self, alloc: Global, trees: &mut Items<TokenTree>) -> Mem<()> {
        push_word(alloc, trees, "_", self.span)
    }
}

/// `-> T`, or nothing
impl ToTokens for ReturnType {
    ghost printing = { return_tokens };

    fn print(&self, alloc: Global, trees: &mut Items<TokenTree>) -> Mem<()> {
        print_return(self, Span::CallSite, alloc, trees)
    }
}

/// `T`, `name: T`
impl ToTokens for NamedArg {
    ghost printing = { named_arg_tokens };

    fn print(&self, alloc: Global, trees: &mut Items<TokenTree>) -> Mem<()> {
        print_maybe_name(&self.name, self.span, alloc, trees)?;
        self.ty.print(alloc, trees)
    }
}

/// Writes `-> T`, or nothing.
#[cycle(print)]
pub fn print_return(
    output: &ReturnType,
    span: Span,
    alloc: Global,
    trees: &mut Items<TokenTree>,
) -> Mem<()>
    ensures ok { OnOk result (trees.new ≡ trees.old ++ return_of (printed_return output.now) span) }
    ensures front { IsFront trees.old trees.new }
{
    match output {
        ReturnType::Default => Ok(()),
        ReturnType::Ty(ty) => {
            push_mark(trees, &['-', '>'], span)?;
            ty.get().print(alloc, trees)
        }
    }
}

/// Writes `A, B`.
#[cycle(print)]
pub fn print_types(
    types: &[Type],
    span: Span,
    alloc: Global,
    trees: &mut Items<TokenTree>,
) -> Mem<()>
    ensures ok { OnOk result (trees.new ≡ trees.old ++ joined (comma span) (map type_tokens types.now)) }
    ensures front { IsFront trees.old trees.new }
{
    if let Some((first, others)) = types.split_first() {
        first.print(alloc, trees)?;
        for ty in others {
            push_comma(trees, span)?;
            ty.print(alloc, trees)?;
        }
    }
    Ok(())
}

/// Writes `()`, `(A,)`, `(A, B)`.
#[cycle(print)]
fn print_tuple(elems: &[Type], span: Span, alloc: Global, trees: &mut Items<TokenTree>) -> Mem<()>
    ensures ok { OnOk result (trees.new ≡ trees.old ++ group Delimiter.Parenthesis (tuple (map type_tokens elems.now) span) span) }
    ensures front { IsFront trees.old trees.new }
{
    let mut inside = Items::new(alloc);
    print_types(elems, span, alloc, &mut inside)?;
    if elems.len() == 1 {
        push_comma(&mut inside, span)?;
    }
    push_group(alloc, trees, Delimiter::Parenthesis, inside, span)
}

/// Writes `dyn A + B` or `impl A + B`.
#[cycle(print)]
fn print_bounded(
    keyword: &str,
    bounds: &[TypeParamBound],
    span: Span,
    alloc: Global,
    trees: &mut Items<TokenTree>,
) -> Mem<()>
    ensures ok { OnOk result (trees.new ≡ trees.old ++ (word keyword.now span ++ sum_of (map bound_tokens bounds.now) span)) }
    ensures front { IsFront trees.old trees.new }
{
    push_word(alloc, trees, keyword, span)?;
    print_bounds(bounds, span, alloc, trees)
}

/// Writes `mut`, or nothing.
pub fn print_mutability(
    mutable: bool,
    span: Span,
    alloc: Global,
    trees: &mut Items<TokenTree>,
) -> Mem<()>
    ensures ok { OnOk result (trees.new ≡ trees.old ++ mutability mutable span) }
    ensures front { IsFront trees.old trees.new }
{
    if mutable {
        push_word(alloc, trees, "mut", span)?;
    }
    Ok(())
}

/// Writes `name:`, or nothing.
pub fn print_maybe_name(
    name: &Option<Ident>,
    span: Span,
    alloc: Global,
    trees: &mut Items<TokenTree>,
) -> Mem<()>
    ensures ok { OnOk result (trees.new ≡ trees.old ++ maybe_name name.now span) }
    ensures front { IsFront trees.old trees.new }
{
    match name {
        None => Ok(()),
        Some(name) => {
            name.print(alloc, trees)?;
            push_mark(trees, &[':'], span)
        }
    }
}
