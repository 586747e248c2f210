//! How what a type around another reads is shown as a value.

ghost use Rattle.std.specs.Prelude.{◌≡◌, ◌∷◌, ◌++◌, [], IfOk, OnOk, codes};
ghost use Rattle.print_core.specs.Items.{meta_tokens};
ghost use Rattle.error_core.specs.ErrorView.{first_leaf, more_leaves};
ghost use Rattle.error_fault.specs.Outcome as outcomes;
ghost use Rattle.machine_leaf.specs.Override.TheVariants.{Explicit, Inherit};
ghost use Rattle.machine_leaf.specs.Values as spec;

use base_core::{Items, Mem, Text};
use error_core::Error;
use machine_leaf::syntax_value;
use machine_value::Value;
use node_core::{Meta, Style};
use std::alloc::Global;
use tok_types::Span;

/// A struct of this name, so written, with these members.
fn struct_with(alloc: Global, name: &str, style: Style, fields: Items<(Text, Value)>) -> Mem<Value>
    ensures { IfOk result (λ it. it ≡ Value.Struct name.now style fields) }
{
    let name = Text::from_str(alloc, name)?;
    Ok(Value::Struct {
        name,
        style,
        fields,
    })
}

/// A variant of this enum and name, so written, with these members.
fn variant_with(
    alloc: Global,
    ty: &str,
    name: &str,
    style: Style,
    fields: Items<(Text, Value)>,
) -> Mem<Value>
    ensures { IfOk result (λ it. it ≡ Value.Variant ty.now name.now style fields) }
{
    let ty = Text::from_str(alloc, ty)?;
    let name = Text::from_str(alloc, name)?;
    Ok(Value::Variant {
        ty,
        name,
        style,
        fields,
    })
}

/// A variant of one member, which has no name.
fn variant_of(alloc: Global, ty: &str, name: &str, member: Value) -> Mem<Value>
    ensures { IfOk result (λ it. it ≡ spec.variant_of ty.now name.now member) }
{
    let fields = Items::of(alloc, (Text::new(alloc), member))?;
    variant_with(alloc, ty, name, Style::Tuple, fields)
}

/// A value that is given.
pub(crate) fn explicit(alloc: Global, it: Value) -> Mem<Value>
    ensures { IfOk result (λ made. made ≡ spec.given (Explicit it)) }
{
    variant_of(alloc, "Override", "Explicit", it)
}

/// A value that is to come from elsewhere.
pub(crate) fn inherit(alloc: Global) -> Mem<Value>
    ensures { IfOk result (λ made. made ≡ spec.given Inherit) }
{
    variant_with(alloc, "Override", "Inherit", Style::Unit, Items::new(alloc))
}

/// A value that was read, as a result.
pub(crate) fn read_value(alloc: Global, it: Value) -> Mem<Value>
    ensures { IfOk result (λ made. made ≡ spec.kept (outcomes.Value it)) }
{
    variant_of(alloc, "Result", "Ok", it)
}

/// The faults of an error, as a result.
pub(crate) fn kept_faults(alloc: Global, error: Error) -> Mem<Value>
    ensures { IfOk result (λ made. made ≡ spec.kept (outcomes.Faults (first_leaf error) (more_leaves error))) }
{
    let faults = error.into_faults(alloc)?;
    variant_of(alloc, "Result", "Err", Value::Faults(faults))
}

/// A meta that was not read, as a result.
pub(crate) fn kept_meta(alloc: Global, item: &Meta) -> Mem<Value>
    ensures { IfOk result (λ made. made ≡ spec.kept_meta (Err item.now)) }
{
    let item = syntax_value(alloc, item)?;
    variant_of(alloc, "Result", "Err", item)
}

/// A value and its place.
pub(crate) fn spanned_value(alloc: Global, it: Value, span: Span) -> Mem<Value>
    ensures { IfOk result (λ made. made ≡ spec.spanned it span) }
{
    let mut fields = member_alone(alloc, "value", it)?;
    push_member(alloc, &mut fields, "span", Value::Span(Some(span)))?;
    struct_with(alloc, "SpannedValue", Style::Struct, fields)
}

/// A value and the meta that it was read from.
pub(crate) fn original_value(alloc: Global, it: Value, item: &Meta) -> Mem<Value>
    ensures { IfOk result (λ made. made ≡ spec.with_original it item.now) }
{
    let mut fields = member_alone(alloc, "parsed", it)?;
    push_original(alloc, &mut fields, item)?;
    struct_with(alloc, "WithOriginal", Style::Struct, fields)
}

fn push_original(alloc: Global, fields: &mut Items<(Text, Value)>, item: &Meta) -> Mem<()>
    ensures { OnOk result (fields.new ≡ fields.old ++ (codes "original", spec.syntax meta_tokens item.now) ∷ []) }
{
    let original = syntax_value(alloc, item)?;
    push_member(alloc, fields, "original", original)
}

fn member_alone(alloc: Global, name: &str, it: Value) -> Mem<Items<(Text, Value)>>
    ensures { IfOk result (λ members. members ≡ (name.now, it) ∷ []) }
{
    let name = Text::from_str(alloc, name)?;
    Items::of(alloc, (name, it))
}

fn push_member(alloc: Global, fields: &mut Items<(Text, Value)>, name: &str, it: Value) -> Mem<()>
    ensures { OnOk result (fields.new ≡ fields.old ++ (name.now, it) ∷ []) }
{
    let name = Text::from_str(alloc, name)?;
    fields.push((name, it))
}
