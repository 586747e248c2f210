//! Items: each fills the slot of its name.

ghost use Rattle.std.specs.Prelude.{◌≡◌, ◌∷◌, [], IfOk, fold};
ghost use Rattle.std.specs.Option.{option_copied};
ghost use Rattle.error_core.specs.Answers.{Answers};
ghost use Rattle.error_fault.specs.Fault.{at_span};
ghost use Rattle.error_fault.specs.Kind.{set_of};
ghost use Rattle.error_fault.specs.declared.kind.FaultKind.TheVariants.{DuplicateField, UnknownField};
ghost use Rattle.machine_read.specs.Names as names;
ghost use Rattle.machine_read.specs.Scopes.{under};
ghost use Rattle.machine_read.specs.Reading as reading;
ghost use Rattle.machine_read.specs.State as spec;
ghost use Rattle.machine_read.specs.Nodes.{nested_span};
ghost use Rattle.machine_state.specs.Seen.{change_of, slot_of};
ghost use Rattle.machine_state.specs.Steps.{Becomes, Changes, Moves};
ghost use Rattle.machine_run.specs.Steps.{change_at};

use crate::run::Run;
use base_core::{Items, Mem, Text, TryClone};
use base_index::Tally;
use codegen_program::{Alternatives, Arm, Arms, Rest};
use error_core::Result;
use error_fault::Fault;
use machine_read::{Declared, Host, NestedMeta};
use machine_state::{Progress, Slot, State, faults_at};
use machine_value::Value;
use node_expr::Type;
use node_make::path_to_string;
use node_span::Spanned;
use std::alloc::Global;

impl<'p, H: Host, D: Declared> Run<'p, H, D> {
    /// Takes the items, each by its name.
    #[tactic(auto, using(machine_state::proofs::Stopped::goes_over, machine_state::proofs::Stopped::goes_on))]
    pub(crate) fn for_items(
        &self,
        items: &[NestedMeta],
        arms: &Arms,
        rest: &Rest,
        state: &mut State<'p>,
        progress: Progress,
    ) -> Mem<Progress>
        requires { D.reads_within self.now.scope.declared.now self.now.room }
        ensures { Moves (λ it. fold (under H.says D.earlier self.now.scope spec.step arms.now rest.now) it items.now) state.old progress state.new result }
    {
        match progress.over() {
            Some(over) => Ok(over),
            None => {
                self.take_items(items, arms, rest, state)?;
                Ok(Progress::Going)
            }
        }
    }

    /// Takes the items one after another.
    fn take_items(
        &self,
        items: &[NestedMeta],
        arms: &Arms,
        rest: &Rest,
        state: &mut State<'p>,
    ) -> Mem<()>
        requires { D.reads_within self.now.scope.declared.now self.now.room }
        ensures { Becomes (λ it. fold (under H.says D.earlier self.now.scope spec.step arms.now rest.now) it items.now) state.old state.new result }
    {
        for item in items {
            self.take_item(arms, rest, item, state)?;
        }
        Ok(())
    }

    /// Takes an item by its name; a literal has none.
    fn take_item(
        &self,
        arms: &Arms,
        rest: &Rest,
        item: &NestedMeta,
        state: &mut State<'p>,
    ) -> Mem<()>
        requires { D.reads_within self.now.scope.declared.now self.now.room }
        ensures { Becomes (λ it. under H.says D.earlier self.now.scope spec.step arms.now rest.now it item.now) state.old state.new result }
    {
        let alloc = self.scope.alloc;
        let Some(name) = item_name(alloc, item)? else {
            let fault = Fault::unexpected_format(alloc, "literal", item.spanned())?;
            return state.faults.push(fault);
        };
        match find_arm(arms, &name) {
            Some(arm) => self.take_arm(arm, item, state),
            None => by_rest(alloc, rest, &name, item, state),
        }
    }

    /// Takes an item of an arm's name into the arm's slot.
    fn take_arm(&self, arm: &Arm, item: &NestedMeta, state: &mut State<'p>) -> Mem<()>
        requires { D.reads_within self.now.scope.declared.now self.now.room }
        ensures { Becomes (change_at arm.now.slot (under H.says D.earlier self.now.scope spec.arm_slot arm.now item.now)) state.old state.new result }
    {
        let place = arm.slot as usize;
        let slot = state.take(self.scope.alloc, place, self.nameless);
        let (slot, faults) = self.arm_slot(arm, item, slot)?;
        state.put(place, slot, faults)
    }

    /// What an item of an arm's name makes of the arm's slot, and the faults of that.
    fn arm_slot(
        &self,
        arm: &Arm,
        item: &NestedMeta,
        slot: Slot<'p>,
    ) -> Mem<(Slot<'p>, Items<Fault>)>
        requires { D.reads_within self.now.scope.declared.now self.now.room }
        ensures { IfOk result (λ it. change_of it ≡ under H.says D.earlier self.now.scope spec.arm_slot arm.now item.now (slot_of slot.entry)) }
    {
        let alloc = self.scope.alloc;
        match slot.into_parts() {
            Ok((ty, true, value)) => {
                let faults = met_again(alloc, &arm.name, item)?;
                Ok((Slot::One(ty, true, value), faults))
            }
            Ok((ty, false, _)) => filled(alloc, ty, &arm.name, self.read_at(arm, ty, item)),
            Err((ty, values)) => {
                let element = self.scope.setting.element(ty);
                pushed(
                    alloc,
                    ty,
                    values,
                    &arm.name,
                    self.read_at(arm, element, item),
                )
            }
        }
    }

    /// An item at the type of one value.
    fn read_at(&self, arm: &Arm, ty: &Type, item: &NestedMeta) -> Result<Value>
        requires { D.reads_within self.now.scope.declared.now self.now.room }
        ensures { Answers (λ it. it) result (under H.says D.earlier self.now.scope reading.read_at arm.now.with arm.now.post ty.now item.now) }
    {
        self.scope
            .read_at(self.room, arm.with.as_ref(), arm.post.as_ref(), ty, item)
    }
}

/// The name of an item; a literal has none.
fn item_name(alloc: Global, item: &NestedMeta) -> Mem<Option<Text>>
    ensures { IfOk result (λ name. name ≡ names.item_name item.now) }
{
    match item {
        NestedMeta::Meta(it) => Ok(Some(path_to_string(alloc, it.path())?)),
        NestedMeta::Lit(_) => Ok(None),
        NestedMeta::NameValueInvalidExpr(it) => Ok(Some(path_to_string(alloc, &it.path)?)),
    }
}

/// The first arm of the name.
fn find_arm<'a>(arms: &'a Arms, name: &Text) -> Option<&'a Arm>
    ensures { option_copied result ≡ spec.find_arm arms.now name.now }
{
    let mut tally = Tally::new();
    let place = arms.find(name.as_str(), &mut tally)?;
    arms.as_slice().get(place)
}

/// Takes an item of no arm.
fn by_rest(
    alloc: Global,
    rest: &Rest,
    name: &Text,
    item: &NestedMeta,
    state: &mut State<'_>,
) -> Mem<()>
    ensures { Becomes (spec.by_rest rest.now name.now item.now) state.old state.new result }
{
    match rest {
        Rest::Buffer => state.kept.push(item.try_clone(alloc)?),
        Rest::Ignore => Ok(()),
        Rest::Unknown(alternatives) => {
            let fault = unknown_field(alloc, alternatives, name, item)?;
            state.faults.push(fault)
        }
    }
}

/// The fault of an item of no arm.
fn unknown_field(
    alloc: Global,
    alternatives: &Alternatives,
    name: &Text,
    item: &NestedMeta,
) -> Mem<Fault>
    ensures { IfOk result (λ fault. fault ≡ at_span (UnknownField name.now (set_of alternatives.now)) (nested_span item.now)) }
{
    Fault::unknown_field_among(alloc, name.as_str(), alternatives.set(), item.spanned())
}

/// The fault of a field that an item has named before.
fn met_again(alloc: Global, name: &Text, item: &NestedMeta) -> Mem<Items<Fault>>
    ensures { IfOk result (λ faults. faults ≡ at_span (DuplicateField name.now) (nested_span item.now) ∷ []) }
{
    let fault = Fault::duplicate_field(alloc, name.as_str(), item.spanned())?;
    Items::of(alloc, fault)
}

/// What an unseen slot becomes by an answer, and the faults of that.
fn filled<'p>(
    alloc: Global,
    ty: &'p Type,
    name: &Text,
    answer: Result<Value>,
) -> Mem<(Slot<'p>, Items<Fault>)>
    ensures { Changes (spec.filled ty.now name.now) answer result }
{
    match answer {
        Ok(value) => Ok((Slot::One(ty, true, Some(value)), Items::new(alloc))),
        Err(fail) => {
            let faults = faults_at(alloc, fail, name)?;
            Ok((Slot::One(ty, true, None), faults))
        }
    }
}

/// What a list becomes by an answer, and the faults of that.
fn pushed<'p>(
    alloc: Global,
    ty: &'p Type,
    mut values: Items<Value>,
    name: &Text,
    answer: Result<Value>,
) -> Mem<(Slot<'p>, Items<Fault>)>
    ensures { Changes (spec.pushed ty.now values name.now) answer result }
{
    match answer {
        Ok(value) => {
            values.push(value)?;
            Ok((Slot::Several(ty, values), Items::new(alloc)))
        }
        Err(fail) => {
            let label = label(alloc, name, values.len())?;
            let faults = faults_at(alloc, fail, &label)?;
            Ok((Slot::Several(ty, values), faults))
        }
    }
}

/// The name of a value in a list: the field's, and how many values stand before it.
fn label(alloc: Global, name: &Text, number: usize) -> Mem<Text>
    ensures { IfOk result (λ it. it ≡ reading.label name.now number) }
{
    let mut label = name.try_clone(alloc)?;
    label.push('[')?;
    label.push_str(number.to_string(alloc)?.as_str())?;
    label.push(']')?;
    Ok(label)
}
