//! What is compiled from options under `FromMeta`: it borrows its parts from them.

ghost use Rattle.std.specs.Prelude.{◌≡◌, IfOk};
ghost use Rattle.options_meta.specs.MetaViews as spec;

use crate::from_meta::FromMetaOptions;
use base_core::{Mem, TryClone};
use body_core::ast::Data;
use codegen_core::FromMetaImpl;
use codegen_word::word_closure;
use options_members::InputVariant;
use options_rows::Callable;
use std::alloc::Global;

impl FromMetaOptions {
    /// What is compiled from it.
    pub fn as_impl(&self, alloc: Global) -> Mem<FromMetaImpl<'_>>
        ensures { IfOk result (λ it. spec.IsMetaImpl it self.now) }
    {
        let from_word = self.to_from_word(alloc)?;
        let base = self.base.as_trait_impl(alloc)?;
        Ok(FromMetaImpl {
            base,
            from_word,
            from_none: self.from_none.as_ref(),
            from_expr: self.from_expr.as_ref(),
            derive_syn_parse: self.derive_syn_parse.unwrap_or(false),
        })
    }

    /// What a word alone is read by: what `from_word` names, else the closure of the variant whose word it is.
    fn to_from_word(&self, alloc: Global) -> Mem<Option<Callable>>
        ensures { IfOk result (λ it. it ≡ spec.from_word_of self.now) }
    {
        match &self.from_word {
            Some(callable) => Ok(Some(callable.try_clone(alloc)?)),
            None => self.to_word(alloc),
        }
    }

    /// The closure of the variant that a word alone stands for.
    fn to_word(&self, alloc: Global) -> Mem<Option<Callable>>
        ensures { IfOk result (λ it. it ≡ spec.body_word self.now.base.body) }
    {
        match &self.base.body {
            Data::Struct(_) => Ok(None),
            Data::Enum(variants) => word_among(alloc, variants.as_slice()),
        }
    }
}

fn word_among(alloc: Global, variants: &[InputVariant]) -> Mem<Option<Callable>>
    ensures { IfOk result (λ it. it ≡ spec.worded variants.now) }
{
    for variant in variants {
        if variant.has_word() {
            return Ok(Some(word_closure(alloc, &variant.ident)?));
        }
    }
    Ok(None)
}
