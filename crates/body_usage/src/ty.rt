//! What types mention.

ghost use Rattle.std.specs.Prelude.{◌≡◌, ◌++◌, map, OnOk};
ghost use Rattle.body_usage.specs.Mentions.{all_of, nothing};
ghost use Rattle.body_usage.specs.Rules.{input_rule};
ghost use Rattle.body_usage.specs.Nodes.{array_mentions, bound_mentions, type_mentions, type_path_mentions};
ghost use Rattle.body_usage.specs.Kinds.{fn_ptr_mentions, input_of, output_mentions, reference_mentions};

use crate::bound::push_bounds;
use crate::mentions::Mentions;
use crate::searched::Searched;
use base_core::Mem;
use node_expr::{
    NamedArg, ReturnType, Type, TypeArray, TypeFnPtr, TypeGroup, TypeImplTrait, TypeInfer,
    TypeNever, TypeParen, TypePath, TypePtr, TypeReference, TypeSlice, TypeTraitObject, TypeTuple,
};

impl Searched for Type {
    ghost mentions = { type_mentions };

    #[cycle(search)]
    fn push_mentions<'n>(&'n self, in_qself: bool, found: &mut Mentions<'n>) -> Mem<()> {
        match self {
            Type::Path(it) => it.push_mentions(in_qself, found),
            Type::Reference(TypeReference { lifetime, elem, .. }) => {
                lifetime.push_mentions(in_qself, found)?;
                elem.get().push_mentions(in_qself, found)
            }
            Type::Ptr(TypePtr { elem, .. }) => elem.get().push_mentions(in_qself, found),
            Type::Slice(TypeSlice { elem, .. }) => elem.get().push_mentions(in_qself, found),
            Type::Array(TypeArray { elem, .. }) => elem.get().push_mentions(in_qself, found),
            Type::Tuple(TypeTuple { elems, .. }) => push_types(elems.as_slice(), in_qself, found),
            Type::Paren(TypeParen { elem, .. }) => elem.get().push_mentions(in_qself, found),
            Type::Group(TypeGroup { elem, .. }) => elem.get().push_mentions(in_qself, found),
            Type::FnPtr(TypeFnPtr { inputs, output, .. }) => {
                push_inputs(inputs.as_slice(), in_qself, found)?;
                push_output(output, in_qself, found)
            }
            Type::TraitObject(TypeTraitObject { bounds, .. }) => {
                push_bounds(bounds.as_slice(), in_qself, found)
            }
            Type::ImplTrait(TypeImplTrait { bounds, .. }) => {
                push_bounds(bounds.as_slice(), in_qself, found)
            }
            Type::Never(_) | Type::Infer(_) => Ok(()),
        }
    }
}

impl Searched for TypePath {
    ghost mentions = { type_path_mentions };

    #[cycle(search)]
    fn push_mentions<'n>(&'n self, in_qself: bool, found: &mut Mentions<'n>) -> Mem<()> {
        if let Some(qself) = &self.qself {
            qself.ty.get().push_mentions(true, found)?;
        }
        self.path.push_mentions(in_qself, found)
    }
}

impl Searched for TypeReference {
    ghost mentions = { reference_mentions };

    fn push_mentions<'n>(&'n self, in_qself: bool, found: &mut Mentions<'n>) -> Mem<()> {
        self.lifetime.push_mentions(in_qself, found)?;
        self.elem.get().push_mentions(in_qself, found)
    }
}

impl Searched for TypePtr {
    ghost mentions = { λ it. type_mentions it.elem };

    fn push_mentions<'n>(&'n self, in_qself: bool, found: &mut Mentions<'n>) -> Mem<()> {
        self.elem.get().push_mentions(in_qself, found)
    }
}

impl Searched for TypeSlice {
    ghost mentions = { λ it. type_mentions it.elem };

    fn push_mentions<'n>(&'n self, in_qself: bool, found: &mut Mentions<'n>) -> Mem<()> {
        self.elem.get().push_mentions(in_qself, found)
    }
}

impl Searched for TypeArray {
    ghost mentions = { array_mentions };

    fn push_mentions<'n>(&'n self, in_qself: bool, found: &mut Mentions<'n>) -> Mem<()> {
        self.elem.get().push_mentions(in_qself, found)
    }
}

impl Searched for TypeTuple {
    ghost mentions = { λ it. all_of (map type_mentions it.elems) };

    fn push_mentions<'n>(&'n self, in_qself: bool, found: &mut Mentions<'n>) -> Mem<()> {
        push_types(self.elems.as_slice(), in_qself, found)
    }
}

impl Searched for TypeParen {
    ghost mentions = { λ it. type_mentions it.elem };

    fn push_mentions<'n>(&'n self, in_qself: bool, found: &mut Mentions<'n>) -> Mem<()> {
        self.elem.get().push_mentions(in_qself, found)
    }
}

impl Searched for TypeGroup {
    ghost mentions = { λ it. type_mentions it.elem };

    fn push_mentions<'n>(&'n self, in_qself: bool, found: &mut Mentions<'n>) -> Mem<()> {
        self.elem.get().push_mentions(in_qself, found)
    }
}

impl Searched for TypeFnPtr {
    ghost mentions = { fn_ptr_mentions };

    fn push_mentions<'n>(&'n self, in_qself: bool, found: &mut Mentions<'n>) -> Mem<()> {
        push_inputs(self.inputs.as_slice(), in_qself, found)?;
        push_output(&self.output, in_qself, found)
    }
}

impl Searched for TypeTraitObject {
    ghost mentions = { λ it. all_of (map bound_mentions it.bounds) };

    fn push_mentions<'n>(&'n self, in_qself: bool, found: &mut Mentions<'n>) -> Mem<()> {
        push_bounds(self.bounds.as_slice(), in_qself, found)
    }
}

impl Searched for TypeImplTrait {
    ghost mentions = { λ it. all_of (map bound_mentions it.bounds) };

    fn push_mentions<'n>(&'n self, in_qself: bool, found: &mut Mentions<'n>) -> Mem<()> {
        push_bounds(self.bounds.as_slice(), in_qself, found)
    }
}

impl Searched for TypeNever {
    ghost mentions = { λ it. nothing };

    fn push_mentions<'n>(&'n self, _in_qself: bool, _found: &mut Mentions<'n>) -> Mem<()> {
        Ok(())
    }
}

impl Searched for TypeInfer {
    ghost mentions = { λ it. nothing };

    fn push_mentions<'n>(&'n self, _in_qself: bool, _found: &mut Mentions<'n>) -> Mem<()> {
        Ok(())
    }
}

impl Searched for ReturnType {
    ghost mentions = { output_mentions };

    fn push_mentions<'n>(&'n self, in_qself: bool, found: &mut Mentions<'n>) -> Mem<()> {
        push_output(self, in_qself, found)
    }
}

impl Searched for NamedArg {
    ghost mentions = { λ it. type_mentions it.ty };

    fn push_mentions<'n>(&'n self, in_qself: bool, found: &mut Mentions<'n>) -> Mem<()> {
        self.ty.push_mentions(in_qself, found)
    }
}

/// Adds what each type mentions.
#[cycle(search)]
pub fn push_types<'n>(types: &'n [Type], in_qself: bool, found: &mut Mentions<'n>) -> Mem<()>
    ensures { OnOk result (found.new ≡ found.old ++ all_of (map type_mentions types.now) in_qself) }
{
    for ty in types {
        ty.push_mentions(in_qself, found)?;
    }
    Ok(())
}

/// Adds what the type of each input mentions.
#[cycle(search)]
fn push_inputs<'n>(inputs: &'n [NamedArg], in_qself: bool, found: &mut Mentions<'n>) -> Mem<()>
    ensures { OnOk result (found.new ≡ found.old ++ all_of (map input_rule (map input_of inputs.now)) in_qself) }
{
    for input in inputs {
        input.ty.push_mentions(in_qself, found)?;
    }
    Ok(())
}

/// Adds what the type after `->` mentions.
#[cycle(search)]
pub fn push_output<'n>(output: &'n ReturnType, in_qself: bool, found: &mut Mentions<'n>) -> Mem<()>
    ensures { OnOk result (found.new ≡ found.old ++ output_mentions output.now in_qself) }
{
    match output {
        ReturnType::Default => Ok(()),
        ReturnType::Ty(ty) => ty.get().push_mentions(in_qself, found),
    }
}
