//! The options under `FromMeta` by their words.

ghost use Rattle.std.specs.Prelude.{◌≡◌};
ghost use Rattle.options_meta.specs.MetaOptions as spec;
ghost use Rattle.options_rows.specs.Values.{word_of};

use node_expr::Path;
use options_members::CoreName;
use options_rows::word_of;

/// The options of a container under `FromMeta`.
#[derive(Clone, Copy)]
pub enum MetaName {
    FromWord,
    FromNone,
    FromExpr,
    DeriveSynParse,
    Core(CoreName),
}

impl MetaName {
    pub(crate) fn of(path: &Path) -> MetaName
        ensures { result ≡ spec.meta_name_of (word_of path.now) }
    {
        match word_of(path) {
            "from_word" => MetaName::FromWord,
            "from_none" => MetaName::FromNone,
            "from_expr" => MetaName::FromExpr,
            "derive_syn_parse" => MetaName::DeriveSynParse,
            _ => MetaName::Core(CoreName::of(path)),
        }
    }
}
