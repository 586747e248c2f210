//! The names of the derives.

ghost use Rattle.std.specs.Prelude.{◌≡◌};
ghost use Rattle.run_accepted.specs.Derives as spec;

use codegen_program::Derive;

/// The derive that a path's text names: a trait's name, bare or behind the name of a crate that has it.
pub fn derive_named(text: &str) -> Option<Derive>
    ensures { result ≡ spec.derive_named text.now }
{
    trait_named(without_crate(text))
}

/// The text behind the name of a crate that has the traits, or all of it.
fn without_crate(text: &str) -> &str
    ensures { spec.derive_named text.now ≡ spec.trait_named result.now }
{
    match text.strip_prefix("darling::") {
        Some(name) => name,
        None => match text.strip_prefix("darling_core::") {
            Some(name) => name,
            None => text,
        },
    }
}

fn trait_named(name: &str) -> Option<Derive>
    ensures { result ≡ spec.trait_named name.now }
{
    match name {
        "FromMeta" => Some(Derive::FromMeta),
        "FromAttributes" => Some(Derive::FromAttributes),
        "FromDeriveInput" => Some(Derive::FromDeriveInput),
        "FromField" => Some(Derive::FromField),
        "FromTypeParam" => Some(Derive::FromTypeParam),
        "FromVariant" => Some(Derive::FromVariant),
        _ => None,
    }
}
