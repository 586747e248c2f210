//! The walk over the `darling` attributes of an item or of a part of one.

ghost use Rattle.std.specs.Prelude.{ℕ, ◌≡◌, ◌∷◌, ◌++◌, ◌⊎◌, [], List, map, take, IfOk, OnOk, OnErr};
ghost use Rattle.error_core.specs.Answers.{Answers};
ghost use Rattle.error_core.specs.ErrorView.{One, held};
ghost use Rattle.options_rows.specs.Does.{Does};
ghost use Rattle.meta_entries.specs.declared.entry.Entry.TheVariants.{Item};
ghost use Rattle.options_rows.specs.Entries as spec;
ghost use Rattle.options_rows.specs.Walk.{after_entry, all_faults, entry_faults, read_options, walk_faults, walk_state};

use crate::darling_entries;
use base_core::{Mem, TryClone};
use error_core::{Accumulator, Error, Fail, Result};
use error_fault::Fault;
use meta_entries::Entry;
use node_core::{Attribute, Meta};
use node_expr::Lit;
use options_types::NestedMeta;
use std::alloc::Global;
use util_table::RenameTable;

/// What reads its options from attributes, item by item.
pub trait ParseAttribute: Sized + Drop {
    ghost use Rattle.error_fault.specs.declared.fault.Fault.{Fault};
    ghost use Rattle.node_core.specs.declared.attr.Meta.{Meta};
    ghost use Rattle.options_rows.specs.Values.{Rules};

    /// What stands behind items, where it began so.
    ghost options: { Rules → Self → List Meta → Self };

    /// What is wrong with an item behind what stands.
    ghost faults: { Rules → Self → Meta → List Fault };

    /// Reads one item. What it sets may stand although it has faults, as an option beside `flatten` does; want of memory
    /// sets nothing.
    fn parse_nested(&mut self, alloc: Global, item: &Meta, table: &RenameTable) -> Result<()>
        ensures { Does result (faults table.now self.old item.now)
            (options table.now self.old (item.now ∷ [])) self.old self.new };

    /// What stands does not depend on where the items are cut.
    ghost more: { (rules : Rules) (set : Self) (first rest : List Meta)
        → options rules (options rules set first) rest ≡ options rules set (first ++ rest) };

    ghost none: { (rules : Rules) (set : Self) → options rules set [] ≡ set };

    /// Reads the items of all attributes whose path is `darling`.
    ///
    /// Fails with all faults in order: of attributes that are no lists, of what is no item, and of items. What it read
    /// into is its own: want of memory drops it.
    final fn parse_attributes(
        self,
        alloc: Global,
        attrs: &[Attribute],
        table: &RenameTable,
    ) -> Result<Self>
        ensures { Answers (λ it. it) result
            (read_options (options table.now) (faults table.now) self (spec.option_entries attrs.now)) }
    {
        let mut read = self;
        let mut errors = Error::accumulator(alloc);
        match read_attributes(alloc, &mut read, attrs, table, &mut errors) {
            Ok(()) => errors.finish_with(read),
            Err(_) => {
                drop(errors.into_inner());
                Err(Fail::NoMemory)
            }
        }
    }
}

/// Each item behind all items before it. Where memory is wanting, those are set that were read before.
fn read_attributes<T: ParseAttribute>(
    alloc: Global,
    target: &mut T,
    attrs: &[Attribute],
    table: &RenameTable,
    errors: &mut Accumulator,
) -> Mem<()>
    ensures ok { OnOk result
        ((target.new ≡ T.options table.now target.old (spec.items (spec.option_entries attrs.now)))
        × (held errors.new ≡ held errors.old
        ++ all_faults (T.options table.now) (T.faults table.now) target.old [] (spec.option_entries attrs.now))) }
    ensures err { OnErr result
        ((count : ℕ) × (target.new ≡ T.options table.now target.old (spec.items (take count (spec.option_entries attrs.now))))) }
{
    walk_attributes(alloc, target, attrs, table, errors)
}

fn walk_attributes<T: ParseAttribute>(
    alloc: Global,
    target: &mut T,
    attrs: &[Attribute],
    table: &RenameTable,
    errors: &mut Accumulator,
) -> Mem<()>
    ensures ok { OnOk result
        ((target.new ≡ walk_state (T.options table.now) (T.faults table.now) target.old (spec.option_entries attrs.now))
        × (held errors.new ≡ held errors.old
        ++ walk_faults (T.options table.now) (T.faults table.now) target.old (spec.option_entries attrs.now))) }
    ensures err { OnErr result
        ((count : ℕ) × (target.new
        ≡ walk_state (T.options table.now) (T.faults table.now) target.old (take count (spec.option_entries attrs.now)))) }
{
    let entries = darling_entries(alloc, attrs)?;
    walk_entries(alloc, target, entries.as_slice(), table, errors)
}

fn walk_entries<T: ParseAttribute>(
    alloc: Global,
    target: &mut T,
    entries: &[Entry],
    table: &RenameTable,
    errors: &mut Accumulator,
) -> Mem<()>
    ensures ok { OnOk result
        ((target.new ≡ walk_state (T.options table.now) (T.faults table.now) target.old (map spec.option_item entries.now))
        × (held errors.new ≡ held errors.old
        ++ walk_faults (T.options table.now) (T.faults table.now) target.old (map spec.option_item entries.now))) }
    ensures err { OnErr result
        ((count : ℕ) × (target.new
        ≡ walk_state (T.options table.now) (T.faults table.now) target.old (take count (map spec.option_item entries.now)))) }
{
    for entry in entries {
        walk_entry(alloc, target, entry, table, errors)?;
    }
    Ok(())
}

fn walk_entry<T: ParseAttribute>(
    alloc: Global,
    target: &mut T,
    entry: &Entry,
    table: &RenameTable,
    errors: &mut Accumulator,
) -> Mem<()>
    ensures ok { OnOk result
        ((target.new ≡ after_entry (T.options table.now) (T.faults table.now) target.old (spec.option_item entry.now))
        × (held errors.new ≡ held errors.old
        ++ entry_faults (T.options table.now) (T.faults table.now) target.old (spec.option_item entry.now))) }
    ensures err { OnErr result
        ((target.new ≡ target.old)
        ⊎ (target.new ≡ after_entry (T.options table.now) (T.faults table.now) target.old (spec.option_item entry.now))) }
{
    match entry {
        Entry::Item(item) => walk_item(alloc, target, item, table, errors),
        Entry::Fault(fault) => push_fault(alloc, fault, errors),
    }
}

#[tactic(auto, using(crate::proofs::HandleLemmas::pushed, crate::proofs::HandleLemmas::does_handled))]
fn walk_item<T: ParseAttribute>(
    alloc: Global,
    target: &mut T,
    item: &NestedMeta,
    table: &RenameTable,
    errors: &mut Accumulator,
) -> Mem<()>
    ensures ok { OnOk result
        ((target.new ≡ after_entry (T.options table.now) (T.faults table.now) target.old (spec.option_item (Item item.now)))
        × (held errors.new ≡ held errors.old
        ++ entry_faults (T.options table.now) (T.faults table.now) target.old (spec.option_item (Item item.now)))) }
    ensures err { OnErr result
        ((target.new ≡ target.old)
        ⊎ (target.new ≡ after_entry (T.options table.now) (T.faults table.now) target.old (spec.option_item (Item item.now)))) }
{
    match item {
        NestedMeta::Meta(item) => {
            errors.handle(alloc, target.parse_nested(alloc, item, table))?;
            Ok(())
        }
        NestedMeta::Lit(lit) => {
            let error = no_option(alloc, lit)?;
            errors.push(alloc, error)
        }
        NestedMeta::NameValueInvalidExpr(bad) => {
            let error = bad.error.try_clone(alloc)?;
            errors.push(alloc, error)
        }
    }
}

/// A literal in the place of an option.
#[tactic(auto, unfolding(crate::specs::Entries::no_option))]
fn no_option(alloc: Global, lit: &Lit) -> Mem<Error>
    ensures { IfOk result (λ error. error ≡ One (spec.no_option lit.now)) }
{
    Ok(Error::unsupported_format(alloc, "literal")?.with_span(lit))
}

#[tactic(auto, using(crate::proofs::HandleLemmas::pushed))]
fn push_fault(alloc: Global, fault: &Fault, errors: &mut Accumulator) -> Mem<()>
    ensures { OnOk result (held errors.new ≡ held errors.old ++ fault.now ∷ []) }
{
    let error = Error::from_fault(alloc, fault.try_clone(alloc)?)?;
    errors.push(alloc, error)
}
