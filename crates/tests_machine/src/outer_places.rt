//! Which types a place takes: a row `DERIVE PART TYPES => taken`, or `refused`, where the answer is that of each of the
//! types. `itself` is the place of the field of a receiver that is read as that field alone.

use crate::ask::rows;
use crate::sources::type_of;
use crate::types::names;
use codegen_program::{Derive, Magic};
use machine_places::{OuterPlace, outer_row_of};
use machine_types::{Readers, fits_outer, part_place};
use node_core::{Ident, Text};
use std::alloc::Global;
use std::test::Fail;
use tests_checks::Tested;

/// The names of declarations, of which each has one derive, in the order of the derives.
const READERS: [&str; 6] = [
    "OfMeta",
    "OfAttributes",
    "OfInput",
    "OfField",
    "OfTypeParam",
    "OfVariant",
];

struct OneOfEach;

impl Readers for OneOfEach {
    ghost use Rattle.std.specs.Prelude.{◌==◌};
    ghost use Rattle.codegen_program.specs.Traits.{index_of};

    ghost reads = { λ it derive number. index_of derive == number };

    fn read_by(&self, derive: Derive, number: usize) -> bool {
        match derive {
            Derive::FromMeta => number == 0,
            Derive::FromAttributes => number == 1,
            Derive::FromDeriveInput => number == 2,
            Derive::FromField => number == 3,
            Derive::FromTypeParam => number == 4,
            Derive::FromVariant => number == 5,
        }
    }
}

/// Whether the place takes the types.
pub fn taken(alloc: Global, row: &str) -> Tested<Text> {
    let (derive, row) = word_of(row)?;
    let (part, types) = word_of(row)?;
    let at = place_of(derive, part)?;
    let readers = names(alloc, &READERS)?;
    let mut told = Text::new(alloc);
    for ty in types.split("; ") {
        let answer = answer(alloc, readers.as_slice(), at, ty)?;
        if told.is_empty() {
            told.push_str(answer)?;
        } else if !told.is(answer) {
            return Err(Fail::new(format_args!("{derive} {part} {ty} is {answer}")));
        }
    }
    Ok(told)
}

fn answer(alloc: Global, readers: &[Ident], at: OuterPlace, ty: &str) -> Tested<&'static str> {
    let row = outer_row_of(alloc, readers, &type_of(alloc, 0, ty)?)?;
    Ok(if fits_outer(&row, at, &OneOfEach) {
        "taken"
    } else {
        "refused"
    })
}

fn word_of(row: &str) -> Tested<(&str, &str)> {
    match row.split_once(' ') {
        Some(words) => Ok(words),
        None => Err(Fail::new(format_args!("{row} has one word"))),
    }
}

fn place_of(derive: &str, part: &str) -> Tested<OuterPlace> {
    let derive = derive_of(derive)?;
    match part {
        "itself" => whole_place(derive),
        _ => Ok(part_place(derive, magic_of(part)?)),
    }
}

fn derive_of(name: &str) -> Tested<Derive> {
    match name {
        "FromAttributes" => Ok(Derive::FromAttributes),
        "FromDeriveInput" => Ok(Derive::FromDeriveInput),
        "FromField" => Ok(Derive::FromField),
        "FromTypeParam" => Ok(Derive::FromTypeParam),
        "FromVariant" => Ok(Derive::FromVariant),
        _ => Err(Fail::new(format_args!("{name} reads no element"))),
    }
}

fn whole_place(derive: Derive) -> Tested<OuterPlace> {
    match derive {
        Derive::FromAttributes => Ok(OuterPlace::Attributes),
        Derive::FromDeriveInput => Ok(OuterPlace::Input),
        Derive::FromField => Ok(OuterPlace::Field),
        Derive::FromTypeParam => Ok(OuterPlace::TypeParam),
        Derive::FromVariant => Ok(OuterPlace::Variant),
        Derive::FromMeta => Err(Fail::new(format_args!("items are no elements"))),
    }
}

fn magic_of(part: &str) -> Tested<Magic> {
    match part {
        "ident" => Ok(Magic::Ident),
        "attrs" => Ok(Magic::Attrs),
        "vis" => Ok(Magic::Vis),
        "generics" => Ok(Magic::Generics),
        "data" => Ok(Magic::Body),
        "ty" => Ok(Magic::Ty),
        "discriminant" => Ok(Magic::Discriminant),
        "fields" => Ok(Magic::Fields),
        "bounds" => Ok(Magic::Bounds),
        "default" => Ok(Magic::Default),
        _ => Err(Fail::new(format_args!("{part} is no part"))),
    }
}

const TAKEN: &str = "FromField ident Option<Ident> => taken
FromAttributes ident Ident => taken
FromDeriveInput ident Ident => taken
FromVariant ident Ident => taken
FromTypeParam ident Ident => taken
FromAttributes attrs Vec<Attribute> => taken
FromDeriveInput attrs Vec<Attribute> => taken
FromField attrs Vec<Attribute> => taken
FromVariant attrs Vec<Attribute> => taken
FromTypeParam attrs Vec<Attribute> => taken
FromDeriveInput vis Visibility => taken
FromField vis Visibility => taken
FromField ty Type => taken
FromVariant discriminant Option<Expr> => taken
FromTypeParam bounds Vec<TypeParamBound> => taken
FromTypeParam default Option<Type> => taken
FromVariant fields Fields<()>; Fields<Ignored>; Fields<Field>; Fields<Type>; Fields<Visibility>;
   Fields<Vec<Attribute>>; Fields<OfField>; Fields<SpannedValue<Type>>; Fields<WithOriginal<Type, Field>> => taken
FromDeriveInput data Data<(), Ignored>; Data<Ignored, Ignored>; Data<Variant, Ignored>; Data<Ident, Ignored>;
   Data<Vec<Attribute>, Ignored>; Data<OfVariant, Ignored>; Data<SpannedValue<Ident>, Ignored>;
   Data<WithOriginal<Ident, Variant>, Ignored> => taken
FromDeriveInput data Data<Ignored, ()>; Data<Ignored, Ignored>; Data<Ignored, Field>; Data<Ignored, Type>;
   Data<Ignored, Visibility>; Data<Ignored, Vec<Attribute>>; Data<Ignored, OfField>;
   Data<Ignored, SpannedValue<Type>>; Data<Ignored, WithOriginal<Type, Field>> => taken
FromDeriveInput generics (); Ignored; syn::Generics; Result<Generics>; Result<Result<()>>; SpannedValue<Generics>;
   WithOriginal<Ignored, Generics> => taken
FromDeriveInput generics Generics<()>; Generics<Ignored>; Generics<syn::GenericParam>; Generics<SpannedValue<Ignored>>;
   Generics<WithOriginal<(), GenericParam>> => taken
FromDeriveInput generics Generics<GenericParam<()>>; Generics<GenericParam<Ignored>>;
   Generics<GenericParam<TypeParam>>; Generics<GenericParam<Ident>>; Generics<GenericParam<Vec<Attribute>>>;
   Generics<GenericParam<OfTypeParam>>; Generics<GenericParam<GenericParam<Ident>>>;
   Generics<GenericParam<SpannedValue<Ident>>>; Generics<GenericParam<WithOriginal<Ident, TypeParam>>> => taken
FromDeriveInput itself (); Ignored; DeriveInput; OfInput; SpannedValue<OfInput>;
   WithOriginal<OfInput, DeriveInput> => taken
FromField itself (); Ignored; Field; Type; Visibility; Vec<Attribute>; OfField; SpannedValue<Type>;
   WithOriginal<Type, Field> => taken
FromVariant itself (); Ignored; Variant; Ident; Vec<Attribute>; OfVariant; SpannedValue<Ident>;
   WithOriginal<Ident, Variant> => taken
FromTypeParam itself (); Ignored; TypeParam; Ident; Vec<Attribute>; OfTypeParam; GenericParam<Ident>;
   SpannedValue<Ident>; WithOriginal<Ident, TypeParam> => taken
FromAttributes itself (); Vec<Attribute>; OfAttributes => taken";

const REFUSED: &str =
    "FromField ident Ident; Option<Option<Ident>>; SpannedValue<Option<Ident>>; () => refused
FromAttributes ident Option<Ident> => refused
FromDeriveInput ident Option<Ident>; SpannedValue<Ident>; Ignored; () => refused
FromVariant ident Variant => refused
FromTypeParam ident OfTypeParam => refused
FromAttributes attrs (); OfAttributes => refused
FromDeriveInput attrs Option<Attribute>; Attribute => refused
FromField attrs Vec<Ident> => refused
FromVariant attrs Result<Vec<Attribute>> => refused
FromTypeParam attrs Vec<TypeParamBound> => refused
FromDeriveInput vis Option<Visibility>; Ident => refused
FromField vis Field; Type => refused
FromField ty Option<Type>; Field; OfField; () => refused
FromVariant discriminant Expr; Option<Type> => refused
FromTypeParam bounds TypeParamBound; Vec<Attribute> => refused
FromTypeParam default Type; Option<Expr> => refused
FromVariant fields Fields<Ident>; Fields<Option<Ident>>; Fields<Option<Type>>; Fields<Variant>; Fields<OfVariant>;
   Fields<OfMeta>; Fields<Result<()>>; Fields<WithOriginal<Type, Variant>>; Fields<SpannedValue<u8>> => refused
FromVariant fields (); Ignored; Data<(), ()>; SpannedValue<Fields<()>> => refused
FromDeriveInput data Data<Type, Ignored>; Data<Visibility, Ignored>; Data<Option<Ident>, Ignored>;
   Data<Option<Expr>, Ignored>; Data<Field, Ignored>; Data<DeriveInput, Ignored>; Data<OfField, Ignored>;
   Data<Fields<()>, Ignored>; Data<Result<()>, Ignored>; Data<WithOriginal<Ident, Field>, Ignored> => refused
FromDeriveInput data Data<Ignored, Ident>; Data<Ignored, Option<Ident>>; Data<Ignored, Option<Type>>;
   Data<Ignored, Variant>; Data<Ignored, OfVariant>; Data<Ignored, OfMeta>; Data<Ignored, Result<()>>;
   Data<Ignored, WithOriginal<Type, Variant>>; Data<Ignored, SpannedValue<u8>> => refused
FromDeriveInput data (); Ignored; Fields<()>; Result<Data<(), ()>> => refused
FromDeriveInput generics Option<Generics>; DeriveInput; OfInput; Vec<Attribute>; Data<(), ()>; GenericParam<()>;
   Result<Ident>; SpannedValue<Ident>; WithOriginal<(), DeriveInput> => refused
FromDeriveInput generics Generics<TypeParam>; Generics<Ident>; Generics<Vec<Attribute>>; Generics<Generics>;
   Generics<OfTypeParam>; Generics<Result<()>>; Generics<WithOriginal<(), TypeParam>> => refused
FromDeriveInput generics Generics<GenericParam<syn::GenericParam>>; Generics<GenericParam<Option<Type>>>;
   Generics<GenericParam<Vec<TypeParamBound>>>; Generics<GenericParam<OfField>>; Generics<GenericParam<Result<()>>>;
   Generics<GenericParam<WithOriginal<(), GenericParam>>> => refused
FromDeriveInput itself Ident; Vec<Attribute>; Visibility; Generics; Data<(), ()>; Result<()>; OfField; OfMeta;
   WithOriginal<OfInput, Generics> => refused
FromField itself Ident; Option<Ident>; Option<Type>; Variant; OfVariant; OfMeta; Result<()>;
   WithOriginal<Type, Variant>; SpannedValue<u8> => refused
FromVariant itself Type; Visibility; Option<Ident>; Option<Expr>; Field; DeriveInput; OfField; Fields<()>; Result<()>;
   WithOriginal<Ident, Field> => refused
FromTypeParam itself syn::GenericParam; Option<Type>; Vec<TypeParamBound>; OfField; Result<()>;
   WithOriginal<(), GenericParam> => refused
FromAttributes itself Ignored; Ident; OfMeta; OfInput; Result<()>; SpannedValue<()>;
   WithOriginal<(), DeriveInput> => refused";

// A type is looked into as deep as 256.
const DEEPEST: &str = "FromDeriveInput generics ⟨255 Result<⟩()⟨255 >⟩ => taken
FromDeriveInput generics ⟨255 Result<⟩Ident⟨255 >⟩ => refused";

#[test]
fn places_take_their_types(rt: HostRuntime) -> Tested<()> {
    let alloc = rt.alloc();
    rows(alloc, "types at a place", TAKEN)?;
    rows(alloc, "types at a place", REFUSED)?;
    rows(alloc, "types at a place", DEEPEST)
}
