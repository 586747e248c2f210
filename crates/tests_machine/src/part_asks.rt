//! What stands against programs whose fields take parts of an element, with the marks of `fits`.

use crate::ask::rows;
use tests_checks::Tested;

// A field that takes a part has the type of the part; no other field's slot counts it.
const TYPES: &str =
    "#[derive(FromDeriveInput)] #[darling(attributes(my))] struct A { a: u8, ident: syn::Ident, b: u8 } => fits
#[derive(FromDeriveInput)] #[darling(attributes(my))] struct A { a: u8, ident: @Option<syn::Ident>, b: u8 } => unknown type
#[derive(FromDeriveInput)] #[darling(attributes(my))] struct A { ident: @String, b: Bad } => unknown type
#[derive(FromDeriveInput)] #[darling(attributes(my))] struct A { ident: syn::Ident, vis: syn::Visibility, a: @Bad } => unknown type
#[derive(FromDeriveInput)] #[darling(attributes(my))] struct A { ident: syn::Ident, #[darling(multiple)] a: Vec<u8>, b: u8 } => fits
#[derive(FromDeriveInput)] #[darling(attributes(my))] struct A { ident: syn::Ident, #[darling(multiple)] a: Vec<u8>, b: @Vec<bool> } => unknown type
#[derive(FromDeriveInput)] #[darling(attributes(my))] struct A { a: u8, ident: syn::Ident, #[darling(default)] b: @syn::Path } => unknown type
#[derive(FromDeriveInput)] #[darling(attributes(my))] struct A { #[darling(multiple)] r#ident: Vec<u8>, a: u8 } => fits
#[derive(FromMeta, FromDeriveInput)] struct A { ident: syn::Ident, #[darling(multiple)] a: Vec<u8>, b: u8 } => fits
#[derive(FromMeta, FromDeriveInput)] struct A { ident: @String, a: u8 } => unknown type
#[derive(FromMeta)] struct A { ident: String } #[derive(FromDeriveInput)] #[darling(attributes(my))] struct B { a: A } => fits
#[derive(FromField)] #[darling(attributes(my))] struct A { ident: @syn::Ident, a: u8 } => unknown type
#[derive(FromField)] struct A { ident: Option<syn::Ident>, ty: syn::Type } #[derive(FromDeriveInput)] struct B { data: darling::ast::Data<(), A> } => fits
#[derive(FromVariant)] struct A { ident: syn::Ident } #[derive(FromDeriveInput)] struct B { data: @darling::ast::Data<(), A> } => unknown type
struct A { a: u8 } #[derive(FromDeriveInput)] struct B { data: @darling::ast::Data<(), A> } => unknown type
#[derive(FromDeriveInput)] struct B { data: @darling::ast::Data<(), A> } #[derive(FromField)] struct A { ty: syn::Type } => unknown type";

// What converts a part is asked at the type of the field that takes it, and stands in front of what fills the other fields.
const CALLABLES: &str =
    "#[derive(FromDeriveInput)] #[darling(attributes(my))] struct A { a: u8, #[darling(with = ident::text)] ident: String, b: u8 } => fits
#[derive(FromDeriveInput)] #[darling(attributes(my))] struct A { a: u8, #[darling(with = @bad)] ident: String, b: u8 } => unknown callable
#[derive(FromDeriveInput)] #[darling(attributes(my))] struct A { #[darling(with = @ident::text)] ident: u8, a: u8 } => unknown callable
#[derive(FromDeriveInput)] #[darling(attributes(my))] struct A { #[darling(with = bad)] ident: @Bad, a: u8 } => unknown type
#[derive(FromDeriveInput)] #[darling(attributes(my))] struct A { #[darling(default = bad)] a: u8, #[darling(with = @bad)] ident: String } => unknown callable
#[derive(FromDeriveInput)] #[darling(attributes(my))] struct A { ident: syn::Ident, #[darling(default = @num::one)] a: String, b: u8 } => unknown callable
#[derive(FromDeriveInput)] #[darling(attributes(my))] struct A { ident: syn::Ident, #[darling(default = num::one)] a: u8, b: String } => fits
#[derive(FromDeriveInput)] #[darling(attributes(my), forward_attrs)] struct A { #[darling(with = attrs::count)] attrs: usize, a: u8 } => fits
#[derive(FromDeriveInput)] #[darling(attributes(my), forward_attrs)] struct A { #[darling(with = @ident::text)] attrs: String, a: u8 } => unknown callable
#[derive(FromDeriveInput)] struct A { #[darling(with = @bad)] data: u8 } => unknown callable
#[derive(FromDeriveInput)] struct A { #[darling(with = @bad)] generics: u8 } => unknown callable
#[derive(FromVariant)] struct A { #[darling(with = @bad)] fields: u8 } => unknown callable
#[derive(FromField)] struct A { #[darling(with = @ident::text)] ident: String } => unknown callable
#[derive(FromVariant)] struct A { #[darling(with = ident::text)] ident: String } => no receiver
#[derive(FromDeriveInput)] struct A { #[darling(with = @_darling::f)] ident: String } => generated name";

#[test]
fn parts_fit(rt: HostRuntime) -> Tested<()> {
    let alloc = rt.alloc();
    rows(alloc, "fit of any derive", TYPES)?;
    rows(alloc, "fit of any derive", CALLABLES)
}
