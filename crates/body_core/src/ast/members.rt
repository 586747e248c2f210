//! The members of a body, one by one.

ghost use Rattle.std.specs.Prelude.{◌≡◌, ◌++◌, flat_map, map, option_map, IfOk, OnOk};
ghost use Rattle.std.specs.List.{filter_map};
ghost use Rattle.error_fault.specs.Outcome.{faults_of, value_of};
ghost use Rattle.error_core.specs.Answers.{Answers};
ghost use Rattle.error_core.specs.ErrorView.{held};
ghost use Rattle.body_core.specs.Calls.{AnswersEach};
ghost use Rattle.error_core.specs.Each.{every};

use base_core::{Items, Mem};
use error_core::{Accumulator, Error, Fail, Result};
use std::alloc::Global;

/// What the function answers at each member, in order.
pub(crate) fn map_members<T: Drop, U: Drop, F: FnMut(T) -> U>(
    alloc: Global,
    members: Items<T>,
    mut map: F,
) -> Mem<Items<U>>
    requires { F.IsAlwaysCallable map }
    ensures { IfOk result (λ answers. (last : F) × AnswersEach F.step map members answers last) }
{
    let mut answers = Items::new(alloc);
    for member in members.into_vec() {
        answers.push(map(member))?;
    }
    Ok(answers)
}

/// References to the members.
pub(crate) fn references<T>(alloc: Global, members: &[T]) -> Mem<Items<&T>>
    ensures { IfOk result (λ it. map (λ member. member.now) it ≡ members.now) }
{
    let mut found = Items::new(alloc);
    for member in members {
        found.push(member)?;
    }
    Ok(found)
}

/// How a node that is a member of a body is read.
pub(crate) trait ReadMember {
    ghost use Rattle.error_fault.specs.Outcome.{Outcome};
    ghost use Rattle.error_core.specs.Answers.{Answers};

    type Node;

    type Value: Drop;

    ghost Seen: { Type 0 };

    ghost seen: { Self.Value → Seen };

    ghost meaning: { Self.Node → Outcome Seen };

    fn read(alloc: Global, node: &Self::Node) -> Result<Self::Value>
        ensures { Answers seen result (meaning node.now) };
}

/// The values of all nodes in order, or the faults of all.
pub(crate) fn read_members<R: ReadMember>(
    alloc: Global,
    nodes: &[R::Node],
) -> Result<Items<R::Value>>
    ensures { Answers (map R.seen) result (every R.meaning nodes.now) }
{
    let mut errors = Error::accumulator(alloc);
    match collect_members::<R>(alloc, nodes, &mut errors) {
        Ok(members) => errors.finish_with(members),
        Err(_) => {
            let _errors = errors.into_inner();
            Err(Fail::NoMemory)
        }
    }
}

/// The values of the nodes that have one. The errors of the others are put behind those that are there.
fn collect_members<R: ReadMember>(
    alloc: Global,
    nodes: &[R::Node],
    errors: &mut Accumulator,
) -> Mem<Items<R::Value>>
    ensures values { IfOk result (λ members. map R.seen members ≡ filter_map (λ node. value_of (R.meaning node)) nodes.now) }
    ensures faults { OnOk result (held errors.new ≡ held errors.old ++ flat_map (λ node. faults_of (R.meaning node)) nodes.now) }
{
    let mut members = Items::new(alloc);
    for node in nodes {
        if let Some(member) = collect_member::<R>(alloc, node, errors)? {
            members.push(member)?;
        }
    }
    Ok(members)
}

fn collect_member<R: ReadMember>(
    alloc: Global,
    node: &R::Node,
    errors: &mut Accumulator,
) -> Mem<Option<R::Value>>
    ensures value { IfOk result (λ found. option_map R.seen found ≡ value_of (R.meaning node.now)) }
    ensures faults { OnOk result (held errors.new ≡ held errors.old ++ faults_of (R.meaning node.now)) }
{
    errors.handle(alloc, R::read(alloc, node))
}
