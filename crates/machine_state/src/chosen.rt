//! Variants of an enum: what an item comes to that is to be one, and what is found and refused by their names.

ghost use Rattle.std.specs.Prelude.{◌≡◌, List, [], IfOk};
ghost use Rattle.std.specs.List.{find};
ghost use Rattle.std.specs.Option.{option_copied};
ghost use Rattle.std.specs.Str.{bytes_eq};
ghost use Rattle.error_core.specs.Answers.{Answers, Fails, refusal};
ghost use Rattle.error_core.specs.ErrorView.{One};
ghost use Rattle.error_fault.specs.Fault.{at_span, plain};
ghost use Rattle.error_fault.specs.Kind.{set_of};
ghost use Rattle.error_fault.specs.Outcome as outcomes;
ghost use Rattle.error_fault.specs.Outcome.{Outcome};
ghost use Rattle.error_fault.specs.declared.kind.FaultKind.TheVariants.{UnknownField, UnknownValue};
ghost use Rattle.machine_read.specs.Asked.{asked_of, text_asked};
ghost use Rattle.machine_read.specs.NestedMeta.{NestedMeta as Nested};
ghost use Rattle.machine_read.specs.NestedMeta.TheVariants as nested;
ghost use Rattle.machine_read.specs.Nodes.{nested_span};
ghost use Rattle.machine_read.specs.Progress.{Aside, Built};
ghost use Rattle.machine_read.specs.State.{State};
ghost use Rattle.machine_state.specs.Chosen.{Chooses, Inside, chosen_by, chosen_of};
ghost use Rattle.machine_steps.specs.Variants as spec;
ghost use Rattle.machine_value.specs.declared.value.Value.{Value as Datum};

use crate::progress::Progress;
use base_core::{Items, Mem, Text, TryClone};
use base_index::Tally;
use codegen_program::{Alternatives, Stmt, UnitArm, UnitArms, VariantArm, VariantArms};
use error_core::{Error, Fail, Result};
use error_fault::{Alts, Fault, FaultKind};
use machine_read::{Asked, Call, NestedMeta};
use node_core::Meta;
use node_span::Spanned;
use std::alloc::{AllocError, Global};
use std::result;

/// What an item comes to that is to be a variant.
pub enum Chosen<'p> {
    /// It is read, or refused.
    Over(Progress),
    /// These statements read it from these items.
    Runs(&'p [Stmt], Items<NestedMeta>),
}

impl<'p> Chosen<'p> {
    /// How far the run has come, or the statements and the items.
    pub fn into_parts(self) -> result::Result<Progress, (&'p [Stmt], Items<NestedMeta>)>
        ensures { self.entry ≡ chosen_of result }
    {
        match self {
            Chosen::Over(progress) => Ok(progress),
            Chosen::Runs(stmts, items) => Err((stmts, items)),
        }
    }
}

/// The first variant of the name.
pub fn find_variant<'a>(arms: &'a VariantArms<Stmt>, name: &str) -> Option<&'a VariantArm<Stmt>>
    ensures { option_copied result ≡ find (λ arm. bytes_eq arm.name name.now) arms.now }
{
    let mut tally = Tally::new();
    let place = arms.find(name, &mut tally)?;
    arms.as_slice().get(place)
}

/// The first variant of the name, of those whose names are read as texts.
pub fn find_unit<'a>(arms: &'a UnitArms, name: &str) -> Option<&'a UnitArm>
    ensures { option_copied result ≡ find (λ arm. bytes_eq arm.name name.now) arms.now }
{
    let mut tally = Tally::new();
    let place = arms.find(name, &mut tally)?;
    arms.as_slice().get(place)
}

/// The text of a string; nothing else has one.
pub fn text_of(asked: Asked<'_>) -> &str
    ensures { result.now ≡ text_asked (asked_of asked.entry) }
{
    match asked {
        Asked::Cell(Call::String(text, _)) => text,
        Asked::Cell(_) | Asked::Element(_) => "",
    }
}

/// It is refused.
pub fn refused<'p>(error: Error) -> Chosen<'p>
    ensures { (inside : Inside) (state : State) (aside : Aside) → chosen_by inside state aside result ≡ Built (refusal error) }
{
    Chosen::Over(Progress::Built(Err(error)))
}

/// A name that no variant has.
pub fn unknown_name<'p>(
    alloc: Global,
    name: &Text,
    names: &Alternatives,
    item: &Meta,
) -> Mem<Chosen<'p>>
    ensures { Chooses (λ inside. Built (outcomes.Faults (at_span (UnknownField name.now (set_of names.now)) (nested_span (nested.Meta item.now))) [])) result }
{
    let fault = Fault::unknown_field_among(alloc, name.as_str(), names.set(), item.spanned())?;
    Ok(refused(Error::from_fault(alloc, fault)?))
}

/// Something of another format than is read.
pub fn refused_format<'p>(alloc: Global, format: &str) -> Mem<Chosen<'p>>
    ensures { Chooses (λ inside. Built (spec.format format.now)) result }
{
    Ok(refused(Error::unsupported_format(alloc, format)?))
}

/// What statements are run on; a list that is none ends the run.
pub fn listed<'p>(stmts: &'p [Stmt], items: Result<Items<NestedMeta>>) -> Mem<Chosen<'p>>
    ensures { (outcome : Outcome (List Nested)) → Answers (λ items. items) items outcome
        → Chooses (λ inside. spec.on_list outcome (inside stmts.now)) result }
{
    match items {
        Ok(items) => Ok(Chosen::Runs(stmts, items)),
        Err(fail) => match fail.into_error() {
            Some(error) => Ok(Chosen::Over(Progress::Ended(error))),
            None => Err(AllocError),
        },
    }
}

/// The faults in the field of the name.
#[tactic(auto, using(error_core::proofs::AnswersLemmas::refusal_located))]
pub fn located(alloc: Global, fail: Fail, name: &Text) -> Mem<Fail>
    ensures { (outcome : Outcome Datum) → Fails fail outcome → IfOk result (λ it. Fails it (outcomes.under name.now outcome)) }
{
    match fail.into_error() {
        Some(error) => Ok(Fail::Faults(error.at(alloc, name.as_str())?)),
        None => Ok(Fail::NoMemory),
    }
}

/// The error of a text that no variant has as its name.
pub fn unknown_value(alloc: Global, text: &str, names: &Alternatives) -> Mem<Error>
    ensures { IfOk result (λ error. error ≡ One (plain (UnknownValue text.now (set_of names.now)))) }
{
    let name = Text::from_str(alloc, text)?;
    let alts = Alts::of(alloc, names.set().try_clone(alloc)?);
    let fault = Fault::new(alloc, FaultKind::UnknownValue { name, alts });
    Error::from_fault(alloc, fault)
}

impl Drop for Chosen<'_> {
    fn drop(self) {
        match self {
            Chosen::Over(_progress) => {}
            Chosen::Runs(_, _items) => {}
        }
    }
}
