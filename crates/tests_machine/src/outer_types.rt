//! Types as rows of the table of those that read an element.

use crate::ask::rows;
use crate::sources::type_of;
use machine_places::{OuterRow, Part, outer_row_of};
use node_core::{Ident, Text};
use std::alloc::Global;
use tests_checks::Tested;

/// The row of a type, from the outside inwards.
pub fn outer_text(alloc: Global, decls: &[Ident], text: &str) -> Tested<Text> {
    let mut shown = Text::new(alloc);
    show(
        alloc,
        &outer_row_of(alloc, decls, &type_of(alloc, 0, text)?)?,
        &mut shown,
    )?;
    Ok(shown)
}

fn show(alloc: Global, row: &OuterRow, text: &mut Text) -> Tested<()> {
    text.push_str(name_of(row))?;
    match row {
        OuterRow::Unit | OuterRow::Ignored | OuterRow::Other => Ok(()),
        OuterRow::Part(part) => show_part(alloc, *part, text),
        OuterRow::Declared(number) => show_number(alloc, *number, text),
        OuterRow::SpannedValue(it)
        | OuterRow::Result(it)
        | OuterRow::Fields(it)
        | OuterRow::Generics(it)
        | OuterRow::GenericParam(it) => show(alloc, it.get(), text),
        OuterRow::WithOriginal(it, original) => {
            show(alloc, it.get(), text)?;
            text.push_str(" of ")?;
            show_part(alloc, *original, text)
        }
        OuterRow::Data(variant, field) => {
            show(alloc, variant.get(), text)?;
            text.push_str(" and ")?;
            show(alloc, field.get(), text)
        }
    }
}

/// What stands before the rows inside.
fn name_of(row: &OuterRow) -> &'static str {
    match row {
        OuterRow::Unit => "Unit",
        OuterRow::Ignored => "Ignored",
        OuterRow::Other => "Other",
        OuterRow::Part(_) => "",
        OuterRow::Declared(_) => "#",
        OuterRow::SpannedValue(_) => "SpannedValue ",
        OuterRow::Result(_) => "Result ",
        OuterRow::Fields(_) => "Fields ",
        OuterRow::Generics(_) => "Generics ",
        OuterRow::GenericParam(_) => "GenericParam ",
        OuterRow::WithOriginal(_, _) => "WithOriginal ",
        OuterRow::Data(_, _) => "Data ",
    }
}

fn show_part(alloc: Global, part: Part, text: &mut Text) -> Tested<()> {
    text.push_str(format!(in alloc; "{part:?}")?.as_str())?;
    Ok(())
}

fn show_number(alloc: Global, number: usize, text: &mut Text) -> Tested<()> {
    text.push_str(format!(in alloc; "{number}")?.as_str())?;
    Ok(())
}

const TABLE: &str = "() => Unit
Ignored => Ignored
darling::util::Ignored => Ignored
DeriveInput => DeriveInput
::syn::DeriveInput => DeriveInput
syn::Field => Field
Variant => Variant
TypeParam => TypeParam
syn::GenericParam => GenericParam
GenericParam => GenericParam
Generics => Generics
::syn::Generics => Generics
Ident => Ident
syn::Visibility => Visibility
Type => Type
Vec<Attribute> => Attributes
std::vec::Vec<syn::Attribute> => Attributes
Vec<TypeParamBound> => Bounds
Option<Ident> => OptionalIdent
std::option::Option<syn::Expr> => OptionalExpr
Option<Type> => OptionalType
SpannedValue<Field> => SpannedValue Field
darling::util::SpannedValue<SpannedValue<()>> => SpannedValue SpannedValue Unit
WithOriginal<Ident, Variant> => WithOriginal Ident of Variant
darling::util::WithOriginal<(), syn::TypeParam> => WithOriginal Unit of TypeParam
Result<Generics> => Result Generics
darling::Result<Result<()>> => Result Result Unit
Data<(), Ignored> => Data Unit and Ignored
::darling::ast::Data<Variant, Field> => Data Variant and Field
Fields<Type> => Fields Type
darling::ast::Fields<Vec<syn::Attribute>> => Fields Attributes
Generics<GenericParam<Ident>> => Generics GenericParam Ident
darling::ast::Generics<darling::ast::GenericParam<TypeParam>> => Generics GenericParam TypeParam
Generics<GenericParam> => Generics GenericParam";

// What reads no element: names behind another path, with other arguments, raw ones, and rows of conversions alone.
const OTHERS: &str = "u8 => Other
String => Other
Path => Other
Attribute => Other
TypeParamBound => Other
Vec<u8> => Other
Vec<Ident> => Other
Vec<Field> => Other
Option<Field> => Other
Option<Option<Ident>> => Other
Box<Field> => Other
darling::Field => Other
darling::ast::Field => Other
syn::Data<(), ()> => Other
syn::Fields<()> => Other
syn::Generics<()> => Other
darling::ast::Generics => Other
darling::ast::GenericParam => Other
syn::GenericParam<()> => Other
ast::Data<(), ()> => Other
darling::Data<(), ()> => Other
Data => Other
Data<()> => Other
Data<(), (), ()> => Other
Fields => Other
Fields<'a> => Other
Field<u8> => Other
r#Field => Other
r#Data<(), ()> => Other
Result<(), Meta> => Other
WithOriginal<(), Meta> => Other
WithOriginal<(), u8> => Other
SpannedValue<u8> => SpannedValue Other
Data<u8, f32> => Data Other and Other
(Field,) => Other
<a as syn>::Field => Other";

// Beside the declarations `Thing`, `String`, `Option`, `r#Ident`, `Meta` and `Thing`.
const DECLARED: &str = "Thing => #0
r#Thing => #0
Thing<u8> => Other
a::Thing => Other
Data<Thing, String> => Data #0 and #1
Ident => #3
syn::Ident => Ident
Option<Ident> => Other
std::option::Option<syn::Ident> => OptionalIdent
Vec<Thing> => Other
WithOriginal<Thing, Field> => WithOriginal #0 of Field";

// A type is looked into as deep as 256.
const DEEPEST: &str = "⟨255 Result<⟩Field⟨255 >⟩ => ⟨255 Result ⟩Field";

#[test]
fn types_are_outer_rows(rt: HostRuntime) -> Tested<()> {
    let alloc = rt.alloc();
    rows(alloc, "outer row", TABLE)?;
    rows(alloc, "outer row", OTHERS)?;
    rows(alloc, "outer row", DEEPEST)?;
    rows(alloc, "outer row beside declarations", DECLARED)
}
