//! What the calls share: the items of a list, and the place of a fault.

ghost use Rattle.std.specs.Prelude.{◌≡◌};
ghost use Rattle.error_core.specs.Answers.{Answers};
ghost use Rattle.meta_nested.specs.Dispatch as spec;
ghost use Rattle.meta_nested.specs.Places.{answer_at};

use crate::NestedMeta;
use base_core::Items;
use error_core::{Error, Fail, Result};
use std::alloc::Global;
use syn_core::ParseFail;
use tok_types::{Span, TokenStream};

/// The nested items that the tokens of a list are. Of tokens that are none the parser's fault is answered.
pub fn items_of(alloc: Global, tokens: &TokenStream) -> Result<Items<NestedMeta>>
    ensures { Answers (λ items. items) result (spec.items_of tokens.now) }
{
    match NestedMeta::parse_meta_list(alloc, tokens) {
        Ok(items) => Ok(items),
        Err(ParseFail::Syn(error)) => Err(Fail::Faults(Error::from_syn(alloc, error)?)),
        Err(ParseFail::NoMemory) => Err(Fail::NoMemory),
    }
}

/// The answer, whose error stands at this place where its root has none.
pub fn spanned<T>(answer: Result<T>, span: Span) -> Result<T>
    ensures { result ≡ answer_at answer span }
{
    match answer {
        Ok(value) => Ok(value),
        Err(fail) => match fail.into_error() {
            Some(error) => Err(Fail::Faults(error.with_span_at(span))),
            None => Err(Fail::NoMemory),
        },
    }
}
