//! The options by their words.

ghost use Rattle.std.specs.Prelude.{◌≡◌};
ghost use Rattle.options_core.specs.ContainerOptions as container;
ghost use Rattle.options_rows.specs.Values.{word_of};

use node_expr::Path;
use options_members::CoreName;
use options_rows::word_of;

/// The options of a container under an outer derive.
#[derive(Clone, Copy)]
pub enum OuterName {
    Attributes,
    ForwardAttrs,
    FromIdent,
    Core(CoreName),
}

impl OuterName {
    pub(crate) fn of(path: &Path) -> OuterName
        ensures { result ≡ container.outer_name_of (word_of path.now) }
    {
        match word_of(path) {
            "attributes" => OuterName::Attributes,
            "forward_attrs" => OuterName::ForwardAttrs,
            "from_ident" => OuterName::FromIdent,
            _ => OuterName::Core(CoreName::of(path)),
        }
    }
}

/// The options of a container under `FromDeriveInput`.
#[derive(Clone, Copy)]
pub enum FdiName {
    Supports,
    Outer(OuterName),
}

impl FdiName {
    pub(crate) fn of(path: &Path) -> FdiName
        ensures { result ≡ container.fdi_name_of (word_of path.now) }
    {
        match word_of(path) {
            "supports" => FdiName::Supports,
            _ => FdiName::Outer(OuterName::of(path)),
        }
    }
}

/// The options of a container under `FromVariant`.
#[derive(Clone, Copy)]
pub enum FromVariantName {
    Supports,
    Outer(OuterName),
}

impl FromVariantName {
    pub(crate) fn of(path: &Path) -> FromVariantName
        ensures { result ≡ container.from_variant_name_of (word_of path.now) }
    {
        match word_of(path) {
            "supports" => FromVariantName::Supports,
            _ => FromVariantName::Outer(OuterName::of(path)),
        }
    }
}
