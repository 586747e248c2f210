//! What an item does to the option that it is of.

ghost use Rattle.std.specs.Prelude.{◌≡◌, ◌++◌, [], Some, IfOk, codes};
ghost use Rattle.std.specs.Str.{bytes_eq};
ghost use Rattle.tok_types.specs.Ident.{ident_text};
ghost use Rattle.error_fault.specs.Outcome.{Faults, faults_of, on_value, value_of};
ghost use Rattle.error_core.specs.Answers.{Answers};
ghost use Rattle.error_core.specs.ErrorView.{One};
ghost use Rattle.options_rows.specs.Does.{Does};
ghost use Rattle.options_rows.specs.Rows as spec;
ghost use Rattle.options_rows.specs.Rows.{first_of, fresh, last_of, list_of};
ghost use Rattle.options_rows.specs.Values.{name_of, rule_of, transform_of, unknown};

use crate::option_value::{OptionValue, unknown_error, word_of};
use base_core::{Mem, Text};
use codegen_program::PostfixTransform;
use error_core::{Error, Fail, Result};
use node_core::Meta;
use node_make::path_to_string;
use std::alloc::Global;
use util_table::{RenameRule, RenameTable};

/// The first value stands: an option that is set and given again is a duplicate.
pub fn once<T: OptionValue>(alloc: Global, slot: &mut Option<T>, item: &Meta) -> Result<()>
    ensures { Does result (fresh (λ set. spec.duplicate) slot.old T.meaning item.now)
        (first_of slot.old (list_of (value_of (T.meaning item.now)))) slot.old slot.new }
{
    if slot.is_some() {
        return Err(Fail::Faults(duplicate(alloc, item)?));
    }
    let value = T::of_item(alloc, item)?;
    *slot = Some(value);
    Ok(())
}

/// The same, where a duplicate stands at the path of the item.
pub fn once_at_path<T: OptionValue>(alloc: Global, slot: &mut Option<T>, item: &Meta) -> Result<()>
    ensures { Does result (fresh (λ set. spec.duplicate_path) slot.old T.meaning item.now)
        (first_of slot.old (list_of (value_of (T.meaning item.now)))) slot.old slot.new }
{
    if slot.is_some() {
        return Err(Fail::Faults(duplicate_path(alloc, item)?));
    }
    let value = T::of_item(alloc, item)?;
    *slot = Some(value);
    Ok(())
}

/// The same of `map` and `and_then`, which exclude each other.
pub fn once_transform(alloc: Global, slot: &mut Option<PostfixTransform>, item: &Meta) -> Result<()>
    ensures { Does result (fresh spec.exclusive slot.old transform_of item.now)
        (first_of slot.old (list_of (value_of (transform_of item.now)))) slot.old slot.new }
{
    match slot {
        Some(set) => Err(Fail::Faults(exclusive(alloc, set, item)?)),
        None => {
            let value = PostfixTransform::of_item(alloc, item)?;
            *slot = Some(value);
            Ok(())
        }
    }
}

/// The last value stands.
pub fn last<T: OptionValue>(alloc: Global, slot: &mut T, item: &Meta) -> Result<()>
    ensures { Does result (faults_of (T.meaning item.now))
        (last_of slot.old (list_of (value_of (T.meaning item.now)))) slot.old slot.new }
{
    let value = T::of_item(alloc, item)?;
    *slot = value;
    Ok(())
}

/// The same, where there may be no value.
pub fn last_given<T: OptionValue>(alloc: Global, slot: &mut Option<T>, item: &Meta) -> Result<()>
    ensures { Does result (faults_of (T.meaning item.now))
        (last_of slot.old (list_of (value_of (on_value Some (T.meaning item.now))))) slot.old slot.new }
{
    let value = T::of_item(alloc, item)?;
    *slot = Some(value);
    Ok(())
}

/// The last rule stands.
#[tactic(auto, unfolding(crate::specs::Values::rule_of))]
pub fn last_rule(
    alloc: Global,
    slot: &mut RenameRule,
    item: &Meta,
    table: &RenameTable,
) -> Result<()>
    ensures { Does result (faults_of (rule_of table.now item.now))
        (last_of slot.old (list_of (value_of (rule_of table.now item.now)))) slot.old slot.new }
{
    *slot = table.rule(alloc, item)?;
    Ok(())
}

/// An item that is of no option.
pub fn unknown(alloc: Global, item: &Meta) -> Result<()>
    ensures { Answers (λ done. done) result (Faults (unknown item.now) []) }
{
    Err(Fail::Faults(unknown_error(alloc, item)?))
}

#[tactic(auto, unfolding(crate::specs::Rows::duplicate))]
fn duplicate(alloc: Global, item: &Meta) -> Mem<Error>
    ensures { IfOk result (λ error. error ≡ One (spec.duplicate item.now)) }
{
    Ok(Error::duplicate_field_path(alloc, item.path())?.with_span(item))
}

#[tactic(auto, unfolding(crate::specs::Rows::duplicate_path))]
fn duplicate_path(alloc: Global, item: &Meta) -> Mem<Error>
    ensures { IfOk result (λ error. error ≡ One (spec.duplicate_path item.now)) }
{
    Ok(Error::duplicate_field_path(alloc, item.path())?.with_span(item.path()))
}

/// Another transform where one is set: the same again, or the one that it excludes.
fn exclusive(alloc: Global, set: &PostfixTransform, item: &Meta) -> Mem<Error>
    ensures { IfOk result (λ error. error ≡ One (spec.exclusive set.now item.now)) }
{
    if is_same(&set.transformer.text, word_of(item.path())) {
        return duplicate(alloc, item);
    }
    excluded(alloc, set, item)
}

fn is_same(text: &Text, word: &str) -> bool
    ensures { result ≡ bytes_eq text.now word.now }
{
    text.is(word)
}

#[tactic(auto, unfolding(crate::specs::Rows::excluded))]
fn excluded(alloc: Global, set: &PostfixTransform, item: &Meta) -> Mem<Error>
    ensures { IfOk result (λ error. error ≡ One (spec.excluded set.now item.now)) }
{
    let text = excluded_text(alloc, set, item)?;
    Ok(Error::custom(alloc, text.as_str())?.with_span(item))
}

fn excluded_text(alloc: Global, set: &PostfixTransform, item: &Meta) -> Mem<Text>
    ensures { IfOk result (λ text. text
        ≡ codes "Options `" ++ name_of item.now ++ codes "` and `" ++ ident_text set.now.transformer ++ codes "` are mutually exclusive") }
{
    let mut text = Text::from_str(alloc, "Options `")?;
    text.push_str(path_to_string(alloc, item.path())?.as_str())?;
    text.push_str("` and `")?;
    text.push_str(set.transformer.to_text(alloc)?.as_str())?;
    text.push_str("` are mutually exclusive")?;
    Ok(text)
}
