//! What units of the five derives that read elements make of them: with the parts that fields take, and the attributes that are
//! kept.

use crate::ask::rows;
use crate::programs::{any_program, ran};
use crate::sources::item_of;
use codegen_program::Program;
use machine_execute::Element;
use node_core::{Data, DeriveInput, GenericParam, Text};
use std::alloc::Global;
use std::test::Fail;
use tests_checks::{Tested, kind_of};

// What the last unit makes of an element: DECLARATIONS | KIND ELEMENT.
const ELEMENTS: &str =
    r#"#[derive(FromField)] #[darling(attributes(my), forward_attrs(doc))] struct F { n: u8, ident: Option<Ident>, vis:
   Visibility, ty: Type, attrs: Vec<Attribute> } | field #[doc = "a"] #[my(n = 1)] #[b] pub x: Vec<u8> => F {n: 1, ident:
   some(`x`), vis: `pub`, ty: `Vec < u8 >`, attrs: [`# [doc = "a"]`]}
#[derive(FromField)] struct F { ty: Type, ident: Option<Ident> } | place u8 => F {ty: `u8`, ident: none}
#[derive(FromVariant)] #[darling(forward_attrs)] struct V { ident: Ident, discriminant: Option<Expr>, #[darling(with =
   attrs::count)] attrs: usize } | variant #[x] B = 1 + 1 => V {ident: `B`, discriminant: some(`1 + 1`), attrs: 1}
#[derive(FromVariant)] #[darling(forward_attrs(y))] struct V { discriminant: Option<Expr>, #[darling(with =
   attrs::count)] attrs: usize } | variant #[x] B(u8) => V {discriminant: none, attrs: 0}
#[derive(FromTypeParam)] #[darling(attributes(my))] struct T { bounds: Vec<TypeParamBound>, n: Option<u8>, ident: Ident,
   default: Option<Type> } | parameter #[my(n = 7)] T: Copy + 'a = u8 => T {bounds: [`Copy`, `'a`], n: some(7), ident: `T`,
   default: some(`u8`)}
#[derive(FromTypeParam)] struct T { default: Option<Type>, bounds: Vec<TypeParamBound> } | parameter U => T {default: none,
   bounds: []}
#[derive(FromAttributes)] #[darling(attributes(my), forward_attrs)] struct A { n: u8, attrs: Vec<Attribute> } | attributes
   #[my(n = 1)] #[b] struct S; => A {n: 1, attrs: [`# [b]`]}
#[derive(FromField)] #[darling(attributes(my))] struct F { n: u8, ident: Option<Ident>, m: u8 } | field #[my(n = 300, ident)]
   x: u8 => 20..23 number too large to fit in target type at n;25..30 Unknown field: `ident`. Available values: `m`,
   `n`;- Missing field `m`;"#;

// A function that refuses what it is handed: on the identifier its faults come alone and behind all that are collected, and
// no transform of the container follows; on the attributes they are collected, behind those of items.
const REFUSED: &str =
    r#"#[derive(FromDeriveInput)] #[darling(attributes(my), map = text::trim)] struct Opts { n: u8, #[darling(with =
   attrs::count)] ident: Ident } | input #[my(n = 1)] struct S; => - the function is not asked so;
#[derive(FromDeriveInput)] #[darling(attributes(my), map = text::trim)] struct Opts { n: u8, #[darling(with =
   attrs::count)] ident: Ident } | input #[my(n = 300)] struct S; => 9..12 number too large to fit in target type at n;
#[derive(FromDeriveInput)] #[darling(attributes(my))] struct Opts { #[darling(with = attrs::count)] ident: Ident,
   #[darling(default = meta::path_text)] n: u8 } | input struct S; => - the function is not asked so;
#[derive(FromDeriveInput)] #[darling(attributes(my), forward_attrs)] struct Opts { n: u8, #[darling(with = ident::text)]
   attrs: usize, m: u8 } | input #[my(n = 300)] struct S; => 9..12 number too large to fit in target type at n;- the function is not asked so;-
   Missing field `m`;"#;

/// What the last unit of the declarations makes of an element.
pub fn element_outcome(alloc: Global, row: &str) -> Tested<Text> {
    let (decls, element) = kind_of(row)?;
    let program = any_program(alloc, decls)?;
    let (kind, text) = element.split_once(' ').unwrap_or((element, ""));
    let (front, back) = match kind {
        "field" => ("struct S { ", " }"),
        "place" => ("struct S(", ");"),
        "variant" => ("enum S { ", " }"),
        "parameter" => ("struct S<", ">;"),
        _ => ("", ""),
    };
    let text = format!(in alloc; "{front}{text}{back}")?;
    let item = item_of(alloc, 1, text.as_str())?;
    made_of(alloc, &program, kind, &item)
}

/// What it makes of the first member of an item, or of the item.
fn made_of(alloc: Global, program: &Program, kind: &str, item: &DeriveInput) -> Tested<Text> {
    match kind {
        "field" | "place" => {
            if let Data::Struct(it) = &item.body {
                if let Some(field) = it.fields.as_slice().first() {
                    return ran(alloc, program, Element::Field(field));
                }
            }
        }
        "variant" => {
            if let Data::Enum(it) = &item.body {
                if let Some(variant) = it.variants.as_slice().first() {
                    return ran(alloc, program, Element::Variant(variant));
                }
            }
        }
        "parameter" => {
            if let Some(GenericParam::Ty(it)) = item.generics.params.as_slice().first() {
                return ran(alloc, program, Element::TypeParam(it));
            }
        }
        "attributes" => return ran(alloc, program, Element::Attributes(item.attrs.as_slice())),
        _ => return ran(alloc, program, Element::Input(item)),
    }
    Err(Fail::new(format_args!("it has no {kind}")))
}

#[test]
fn elements_are_read(rt: HostRuntime) -> Tested<()> {
    let alloc = rt.alloc();
    rows(alloc, "element of a derive", ELEMENTS)?;
    rows(alloc, "element of a derive", REFUSED)
}
