//! Items and parts of items, and what each type makes of them.

use crate::asked::{must_be, told};
use crate::shown::{Debugged, Own, Printed, Shows};
use body_core::{
    FromDeriveInput, FromField, FromGenericParam, FromGenerics, FromTypeParam, FromVariant,
};
use error_core::{Error, Fail as Refusal, Result as Answer, Text};
use node_core::{Data, DeriveInput, Field, Fields, GenericParam, Generics, TypeParam, Variant};
use options_types::{Ignored, SpannedValue, WithOriginal};
use std::alloc::Global;
use std::test::Fail;
use syn_core::parse_derive_input;
use tests_checks::{Tested, given, tokens};

/// A type that takes no field and no generics.
#[derive(Debug, Drop)]
struct Nothing;

impl FromField for Nothing {
    ghost use Rattle.std.specs.Prelude.{codes};
    ghost use Rattle.error_fault.specs.Outcome.{refused};
    ghost use Rattle.error_fault.specs.declared.kind.FaultKind.TheVariants.{Custom};

    ghost Seen = { Unit {0} };

    ghost seen = { λ _. tt };

    ghost meaning = { λ _. refused (Custom (codes "no")) };

    fn from_field(alloc: Global, _field: &Field) -> Answer<Nothing> {
        Err(Refusal::Faults(Error::custom(alloc, "no")?))
    }
}

impl FromGenerics for Nothing {
    ghost use Rattle.std.specs.Prelude.{codes};
    ghost use Rattle.error_fault.specs.Outcome.{refused};
    ghost use Rattle.error_fault.specs.declared.kind.FaultKind.TheVariants.{Custom};

    ghost Seen = { Unit {0} };

    ghost seen = { λ _. tt };

    ghost meaning = { λ _. refused (Custom (codes "no")) };

    fn from_generics(alloc: Global, _generics: &Generics) -> Answer<Nothing> {
        Err(Refusal::Faults(Error::custom(alloc, "no")?))
    }
}

/// The item that the text is.
fn input(alloc: Global, text: &str) -> Tested<DeriveInput> {
    let tokens = tokens(alloc, 0, text)?;
    given(parse_derive_input(alloc, &tokens), text)
}

/// The part that was asked for.
fn there<T>(found: Option<&T>) -> Tested<&T> {
    match found {
        Some(part) => Ok(part),
        None => Err(Fail::new(format_args!("it has no such part"))),
    }
}

fn first_field(item: &DeriveInput) -> Option<&Field> {
    match &item.body {
        Data::Struct(body) => match &body.fields {
            Fields::Named(fields) => fields.named.first(),
            _ => None,
        },
        _ => None,
    }
}

fn first_variant(item: &DeriveInput) -> Option<&Variant> {
    match &item.body {
        Data::Enum(body) => body.variants.first(),
        _ => None,
    }
}

fn type_param_of(param: &GenericParam) -> Option<&TypeParam> {
    match param {
        GenericParam::Ty(type_param) => Some(type_param),
        _ => None,
    }
}

const STRUCT: &str = "struct S<T: B> { a: u8 }";

const ENUM: &str = "enum E { V(u8) }";

/// Adds what is told of an answer, and a comma.
fn push_told<T: Drop, S: Shows<T>>(
    alloc: Global,
    text: &mut Text,
    answer: Answer<T>,
) -> Tested<()> {
    text.push_str(told::<T, S>(alloc, answer)?.as_str())?;
    text.push_str(", ")?;
    Ok(())
}

/// What the type makes of the struct, its field, its type parameter twice and its generics, and of the
/// enum's variant.
fn every_element<T, S: Shows<T>>(alloc: Global, wanted: &str) -> Tested<()>
where
    T: FromDeriveInput
        + FromField
        + FromTypeParam
        + FromGenericParam
        + FromGenerics
        + FromVariant
        + Drop,
{
    let item = input(alloc, STRUCT)?;
    let param = there(item.generics.params.first())?;
    let type_param = there(type_param_of(param))?;
    let field = there(first_field(&item))?;
    let mut text = Text::new(alloc);
    push_told::<T, S>(alloc, &mut text, T::from_derive_input(alloc, &item))?;
    push_told::<T, S>(alloc, &mut text, T::from_field(alloc, field))?;
    push_told::<T, S>(alloc, &mut text, T::from_type_param(alloc, type_param))?;
    push_told::<T, S>(alloc, &mut text, T::from_generic_param(alloc, param))?;
    push_told::<T, S>(alloc, &mut text, T::from_generics(alloc, &item.generics))?;
    let item = input(alloc, ENUM)?;
    let variant = there(first_variant(&item))?;
    push_told::<T, S>(alloc, &mut text, T::from_variant(alloc, variant))?;
    must_be(&text, STRUCT, wanted)
}

#[test]
fn elements_are_ignored_or_placed(rt: HostRuntime) -> Tested<()> {
    let alloc = rt.alloc();
    every_element::<Ignored, Own>(
        alloc,
        "ignored, ignored, ignored, ignored, ignored, ignored, ",
    )?;
    every_element::<SpannedValue<()>, SpannedValue<Debugged>>(
        alloc,
        "() @ 0..24, () @ 17..22, () @ 9..13, () @ 9..13, () @ 8..14, () @ 9..14, ",
    )?;
    let item = input(alloc, STRUCT)?;
    let field = there(first_field(&item))?;
    let mut text = Text::new(alloc);
    let of_field = SpannedValue::<Nothing>::from_field(alloc, field);
    push_told::<_, SpannedValue<Debugged>>(alloc, &mut text, of_field)?;
    let of_generics = SpannedValue::<Nothing>::from_generics(alloc, &item.generics);
    push_told::<_, SpannedValue<Debugged>>(alloc, &mut text, of_generics)?;
    must_be(&text, STRUCT, "17..22 no;, 8..14 no;, ")
}

type Kept<S> = WithOriginal<S, Printed>;

#[test]
fn elements_are_kept(rt: HostRuntime) -> Tested<()> {
    let alloc = rt.alloc();
    let item = input(alloc, STRUCT)?;
    let param = there(item.generics.params.first())?;
    let type_param = there(type_param_of(param))?;
    let field = there(first_field(&item))?;
    let mut text = Text::new(alloc);
    let of_item = WithOriginal::<(), DeriveInput>::from_derive_input(alloc, &item);
    push_told::<_, Kept<Debugged>>(alloc, &mut text, of_item)?;
    let of_field = WithOriginal::<Ignored, Field>::from_field(alloc, field);
    push_told::<_, Kept<Own>>(alloc, &mut text, of_field)?;
    let of_param = WithOriginal::<(), TypeParam>::from_type_param(alloc, type_param);
    push_told::<_, Kept<Debugged>>(alloc, &mut text, of_param)?;
    let of_generic = WithOriginal::<(), GenericParam>::from_generic_param(alloc, param);
    push_told::<_, Kept<Debugged>>(alloc, &mut text, of_generic)?;
    let of_generics = WithOriginal::<(), Generics>::from_generics(alloc, &item.generics);
    push_told::<_, Kept<Debugged>>(alloc, &mut text, of_generics)?;
    let item = input(alloc, ENUM)?;
    let variant = there(first_variant(&item))?;
    let of_variant = WithOriginal::<(), Variant>::from_variant(alloc, variant);
    push_told::<_, Kept<Debugged>>(alloc, &mut text, of_variant)?;
    must_be(
        &text,
        STRUCT,
        "() of struct S < T : B > {a : u8}, ignored of a : u8, () of T : B, () of T : B, () of < T : B >, () of V (u8), ",
    )
}
