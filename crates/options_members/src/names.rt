//! The options by their words.

ghost use Rattle.std.specs.Prelude.{◌≡◌};
ghost use Rattle.options_members.specs.CoreOptions as container;
ghost use Rattle.options_members.specs.FieldOptions.{field_name_of, field_row};
ghost use Rattle.options_members.specs.VariantOptions.{variant_name_of};
ghost use Rattle.options_rows.specs.Rows.{row_word};
ghost use Rattle.options_rows.specs.Values.{word_of};

use node_expr::Path;
use options_rows::word_of;

/// The options of every container.
#[derive(Clone, Copy)]
pub enum CoreName {
    Default,
    RenameAll,
    Map,
    AndThen,
    Bound,
    AllowUnknownFields,
    Transparent,
    Crate,
    Unknown,
}

impl CoreName {
    pub fn of(path: &Path) -> CoreName
        ensures { result ≡ container.core_name_of (word_of path.now) }
    {
        match word_of(path) {
            "default" => CoreName::Default,
            "rename_all" => CoreName::RenameAll,
            "map" => CoreName::Map,
            "and_then" => CoreName::AndThen,
            "bound" => CoreName::Bound,
            "allow_unknown_fields" => CoreName::AllowUnknownFields,
            "transparent" => CoreName::Transparent,
            "crate" => CoreName::Crate,
            _ => CoreName::Unknown,
        }
    }
}

/// The options of a field.
#[derive(Clone, Copy)]
pub enum FieldName {
    Multiple,
    Rename,
    With,
    Skip,
    Map,
    AndThen,
    Default,
    Flatten,
    Unknown,
}

impl FieldName {
    /// All of them, in the order in which `flatten` names what may not stand beside it.
    pub(crate) const ALL: [FieldName; 8] = [
        FieldName::Multiple,
        FieldName::Rename,
        FieldName::With,
        FieldName::Skip,
        FieldName::Map,
        FieldName::AndThen,
        FieldName::Default,
        FieldName::Flatten,
    ];

    pub(crate) fn of(path: &Path) -> FieldName
        ensures { result ≡ field_name_of (word_of path.now) }
    {
        match word_of(path) {
            "multiple" => FieldName::Multiple,
            "rename" => FieldName::Rename,
            "with" => FieldName::With,
            "skip" => FieldName::Skip,
            "map" => FieldName::Map,
            "and_then" => FieldName::AndThen,
            "default" => FieldName::Default,
            "flatten" => FieldName::Flatten,
            _ => FieldName::Unknown,
        }
    }

    /// The word; none for what is no option.
    pub(crate) fn word(self) -> &'static str
        ensures { result.now ≡ row_word (field_row self) }
    {
        match self {
            FieldName::Multiple => "multiple",
            FieldName::Rename => "rename",
            FieldName::With => "with",
            FieldName::Skip => "skip",
            FieldName::Map => "map",
            FieldName::AndThen => "and_then",
            FieldName::Default => "default",
            FieldName::Flatten => "flatten",
            FieldName::Unknown => "",
        }
    }
}

/// The options of a variant.
#[derive(Clone, Copy)]
pub enum VariantName {
    Rename,
    Skip,
    Transparent,
    Word,
    Unknown,
}

impl VariantName {
    pub(crate) fn of(path: &Path) -> VariantName
        ensures { result ≡ variant_name_of (word_of path.now) }
    {
        match word_of(path) {
            "rename" => VariantName::Rename,
            "skip" => VariantName::Skip,
            "transparent" => VariantName::Transparent,
            "word" => VariantName::Word,
            _ => VariantName::Unknown,
        }
    }
}
