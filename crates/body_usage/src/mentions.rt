//! The names that nodes mention, as references into the nodes.

ghost use Rattle.std.specs.Prelude.{◌≡◌, ◌++◌, ◌∷◌, [], map, OnOk, IfOk};
ghost use Rattle.tok_types.specs.declared.ident.Ident.{Ident};
ghost use Rattle.tok_types.specs.declared.ident.Lifetime.{Lifetime};
ghost use Rattle.body_usage.specs.Mentions.{lifetime, type_param, seen};
ghost use Rattle.body_usage.specs.Occurs.{AreUsedLifetimes, AreUsedTypeParams, is_lifetime, is_type_param, lifetime_occurs, type_param_occurs};
ghost use Rattle.body_usage.specs.Selected.{IsExtended, shown};

use crate::options::Options;
use crate::sets::{IdentRefSet, IdentSet, LifetimeRefSet, LifetimeSet, add_counted};
use base_core::Mem;
use std::alloc::Global;
use std::collections::HashSet;
use std::marker::Model;
use tok_types::{Ident, Lifetime};

/// A name, and whether it stands in the type in front of a path.
#[derive(Clone, Copy)]
pub enum Found<'n> {
    /// The first identifier of a path
    TypeParam { ident: &'n Ident, in_qself: bool },
    Lifetime { it: &'n Lifetime, in_qself: bool },
}

/// The names that nodes mention, from left to right.
pub struct Mentions<'n> {
    list: Vec<Found<'n>>,
}

impl<'n> Model for Mentions<'n> {
    ghost use Rattle.std.specs.Prelude.{List, map};
    ghost use Rattle.body_usage.specs.Mentions.{Mention, seen};

    ghost Value = { List Mention };

    ghost view = { λ mentions. map seen mentions.list.items };
}

impl<'n> Mentions<'n> {
    /// None yet.
    pub fn new(alloc: Global) -> Mentions<'n>
        ensures { result ≡ [] }
    {
        Mentions {
            list: Vec::new(alloc),
        }
    }

    /// Adds the first identifier of a path.
    pub fn push_type_param(&mut self, ident: &'n Ident, in_qself: bool) -> Mem<()>
        ensures { OnOk result (self.new ≡ self.old ++ type_param ident.now in_qself ∷ []) }
    {
        self.list.push(Found::TypeParam { ident, in_qself })?;
        Ok(())
    }

    /// Adds a lifetime.
    pub fn push_lifetime(&mut self, it: &'n Lifetime, in_qself: bool) -> Mem<()>
        ensures { OnOk result (self.new ≡ self.old ++ lifetime it.now in_qself ∷ []) }
    {
        self.list.push(Found::Lifetime { it, in_qself })?;
        Ok(())
    }

    /// The type parameters of the set that occur.
    pub fn type_params<'a>(
        &self,
        alloc: Global,
        options: &Options,
        type_set: &'a IdentSet,
    ) -> Mem<IdentRefSet<'a>>
        ensures { IfOk result (λ answer. AreUsedTypeParams options.now type_set.now self.now (shown answer.keys)) }
    {
        let mut answer = HashSet::new(alloc);
        add_type_params(self.list.as_slice(), options, type_set, &mut answer)?;
        Ok(answer)
    }

    /// The lifetimes of the set that occur.
    pub fn lifetimes<'a>(
        &self,
        alloc: Global,
        options: &Options,
        lifetimes: &'a LifetimeSet,
    ) -> Mem<LifetimeRefSet<'a>>
        ensures { IfOk result (λ answer. AreUsedLifetimes options.now lifetimes.now self.now (shown answer.keys)) }
    {
        let mut answer = HashSet::new(alloc);
        add_lifetimes(self.list.as_slice(), options, lifetimes, &mut answer)?;
        Ok(answer)
    }
}

impl<'n> Drop for Mentions<'n> {
    fn drop(self) {
        let Self { list: _list } = self;
    }
}

fn add_type_params<'a>(
    list: &[Found<'_>],
    options: &Options,
    type_set: &'a IdentSet,
    answer: &mut IdentRefSet<'a>,
) -> Mem<()>
    ensures { OnOk result (IsExtended ⟦<Ident as PartialEq>⟧.eq type_set.now (type_param_occurs options.now (map seen list.now)) (shown answer.old.keys) (shown answer.new.keys)) }
{
    for found in list {
        add_type_param(found, options, type_set, answer)?;
    }
    Ok(())
}

fn add_type_param<'a>(
    found: &Found<'_>,
    options: &Options,
    type_set: &'a IdentSet,
    answer: &mut IdentRefSet<'a>,
) -> Mem<()>
    ensures { OnOk result (IsExtended ⟦<Ident as PartialEq>⟧.eq type_set.now (λ name. is_type_param options.now name (seen found.now)) (shown answer.old.keys) (shown answer.new.keys)) }
{
    if let Found::TypeParam { ident, in_qself } = *found {
        add_counted(options.counts(in_qself), ident, type_set, answer)?;
    }
    Ok(())
}

fn add_lifetimes<'a>(
    list: &[Found<'_>],
    options: &Options,
    lifetimes: &'a LifetimeSet,
    answer: &mut LifetimeRefSet<'a>,
) -> Mem<()>
    ensures { OnOk result (IsExtended ⟦<Lifetime as PartialEq>⟧.eq lifetimes.now (lifetime_occurs options.now (map seen list.now)) (shown answer.old.keys) (shown answer.new.keys)) }
{
    for found in list {
        add_lifetime(found, options, lifetimes, answer)?;
    }
    Ok(())
}

fn add_lifetime<'a>(
    found: &Found<'_>,
    options: &Options,
    lifetimes: &'a LifetimeSet,
    answer: &mut LifetimeRefSet<'a>,
) -> Mem<()>
    ensures { OnOk result (IsExtended ⟦<Lifetime as PartialEq>⟧.eq lifetimes.now (λ name. is_lifetime options.now name (seen found.now)) (shown answer.old.keys) (shown answer.new.keys)) }
{
    if let Found::Lifetime { it, in_qself } = *found {
        add_counted(options.counts(in_qself), it, lifetimes, answer)?;
    }
    Ok(())
}
