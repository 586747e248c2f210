//! A rule, as an item of an attribute names it.

ghost use Rattle.std.specs.Prelude.{◌≡◌};
ghost use Rattle.error_core.specs.Answers.{Answers};
ghost use Rattle.meta_core.specs.Dispatch.{from_meta};
ghost use Rattle.util_table.specs.Rule as spec;

use crate::rule::RenameRule;
use crate::table::RenameTable;
use base_core::Text;
use error_core::{Error, Fail, Result};
use meta_core::{FromMeta, without_groups};
use node_core::Meta;
use node_span::Spanned;
use std::alloc::Global;
use tok_types::Span;

impl RenameTable {
    /// The rule that the item names by a string: `rename_all = "kebab"`
    ///
    /// A string that is the rule of no row is an unknown value, where it stands. Another item has the faults that it has at [`Text`].
    #[tactic(auto, using(crate::proofs::RuleAsText::asked))]
    pub fn rule(&self, alloc: Global, item: &Meta) -> Result<RenameRule>
        ensures { Answers (λ it. it) result (from_meta (spec.rule_cells self.now) item.now) }
    {
        let name = Text::from_meta(alloc, item)?;
        match self.find(name.as_str()) {
            Some(rule) => Ok(rule),
            None => {
                let error = Error::unknown_value(alloc, name.as_str())?;
                Err(Fail::Faults(error.with_span_at(value_span(item))))
            }
        }
    }
}

/// Where the value of a meta stands, without the invisible groups around it.
fn value_span(item: &Meta) -> Span
    ensures { result ≡ spec.value_span item.now }
{
    match item {
        Meta::NameValue(pair) => without_groups(&pair.value).spanned(),
        other => other.spanned(),
    }
}
