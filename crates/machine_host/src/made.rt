//! What hosts answer and name, made of texts.

ghost use Rattle.std.specs.Prelude.{◌≡◌, IfOk};
ghost use Rattle.machine_host.specs.Made as spec;

use crate::said::Said;
use base_core::{Items, Mem, Text};
use error_fault::{Fault, FaultKind};
use node_expr::{Path, PathArguments, PathSegment, Type, TypePath};
use std::alloc::Global;
use tok_types::{Ident, Span};

/// A fault with this text, in no field and at no place.
pub fn custom(alloc: Global, text: &str) -> Mem<Said>
    ensures { IfOk result (λ said. said ≡ spec.custom text.now) }
{
    let text = Text::from_str(alloc, text)?;
    let fault = Fault::new(alloc, FaultKind::Custom(text));
    Ok(Said::Faults(fault, Items::new(alloc)))
}

/// The type of this name, at no place.
pub fn named_type(alloc: Global, text: &str) -> Mem<Type>
    ensures { IfOk result (λ ty. ty ≡ spec.named_type text.now) }
{
    let path = named_path(alloc, text)?;
    let qself = None;
    let span = Span::CallSite;
    Ok(Type::Path(TypePath { qself, path, span }))
}

fn named_path(alloc: Global, text: &str) -> Mem<Path>
    ensures { IfOk result (λ path. path ≡ spec.named_path text.now) }
{
    let text = Text::from_str(alloc, text)?;
    let raw = false;
    let span = Span::CallSite;
    let segment = PathSegment {
        ident: Ident { text, raw, span },
        arguments: PathArguments::None,
        span,
    };
    Ok(Path {
        leading_colon: false,
        segments: Items::of(alloc, segment)?,
        span,
    })
}
