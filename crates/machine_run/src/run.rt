//! A run of the statements of a function.

ghost use Rattle.std.specs.Prelude.{◌≡◌, []};
ghost use Rattle.meta_entries.specs.Attributes.{attribute_items};
ghost use Rattle.machine_read.specs.Asked.{asked_of};
ghost use Rattle.machine_read.specs.Attributes as attributes;
ghost use Rattle.machine_read.specs.Made.{named_type};
ghost use Rattle.machine_read.specs.Progress.{going};
ghost use Rattle.machine_read.specs.Statements as spec;
ghost use Rattle.machine_state.specs.Seen.{slot_of};
ghost use Rattle.machine_run.specs.Steps.{Proceeds};
ghost use Rattle.machine_state.specs.Steps.{Moves};
ghost use Rattle.machine_steps.specs.Variants.{variants as variants_of};

use crate::forward::{declare_forward, keep};
use crate::parts::{check_shape, read_body};
use crate::standing::Standing;
use base_core::{Items, Mem, Text};
use codegen_program::{Alternatives, Forward, Stmt, VariantArms};
use machine_read::{Asked, Call, Declared, Host, NestedMeta, Scope, Setting};
use machine_state::{
    Progress, Receiver, Slot, State, check_errors, declare, declare_buffer, declare_errors,
    refuse_list,
};
use meta_entries::{attribute_items, is_named};
use node_core::{Attribute, Meta};
use node_expr::Type;
use std::alloc::AllocError;

/// What a run of a function is under.
pub struct Run<'p, H, D> {
    pub scope: Scope<'p, H, D>,
    /// How many levels deep types are read; what is deeper is want of memory.
    pub room: usize,
    pub receiver: Receiver<'p>,
    /// The type of a slot that is not there.
    pub nameless: &'p Type,
    ghost is_nameless: { nameless.now ≡ named_type [] },
}

impl<'p, H: Host, D: Declared> Run<'p, H, D> {
    ghost use Rattle.machine_run.specs.Runs.{from_start, in_run, of_enum, on_attributes, on_list};

    /// Runs the statements one after another. Statements in statements stand no deeper than `nesting` levels; what is
    /// deeper is want of memory.
    #[cycle(stmts)]
    pub fn run_from(
        &self,
        asked: Asked<'_>,
        stmts: &'p [Stmt],
        nesting: usize,
        standing: &mut Standing<'p>,
        progress: Progress,
    ) -> Mem<Progress>
        requires { D.reads_within self.now.scope.declared.now self.now.room }
        ensures { Proceeds (in_run H.says D.earlier self.now spec.run_from stmts.now (asked_of asked.entry)) standing.old progress standing.new result }
    {
        let mut progress = progress;
        for stmt in stmts {
            progress = self.act(asked, stmt, nesting, standing, progress)?;
        }
        Ok(progress)
    }

    /// Runs a statement.
    #[cycle(stmts)]
    fn act(
        &self,
        asked: Asked<'_>,
        stmt: &'p Stmt,
        nesting: usize,
        standing: &mut Standing<'p>,
        progress: Progress,
    ) -> Mem<Progress>
        requires { D.reads_within self.now.scope.declared.now self.now.room }
        ensures { Proceeds (in_run H.says D.earlier self.now spec.does stmt.now (asked_of asked.entry)) standing.old progress standing.new result }
    {
        match stmt {
            Stmt::DeclareErrors => Ok(declare_errors(&mut standing.state, progress)),
            Stmt::DeclareOne { slot, ty, .. } => {
                self.declare(
                    *slot as usize,
                    Slot::One(ty, false, None),
                    &mut standing.state,
                    progress,
                )
            }
            Stmt::DeclareMany { slot, ty, .. } => {
                let values = Items::new(self.scope.alloc);
                self.declare(
                    *slot as usize,
                    Slot::Several(ty, values),
                    &mut standing.state,
                    progress,
                )
            }
            Stmt::DeclareBuffer => Ok(declare_buffer(&mut standing.state, progress)),
            Stmt::ForAttributes {
                names,
                items,
                forward,
            } => self.for_attributes(
                asked.attributes(),
                names.as_slice(),
                forward,
                items.as_slice(),
                nesting,
                standing,
                progress,
            ),
            Stmt::ForItems { arms, rest } => {
                self.for_items(asked.items(), arms, rest, &mut standing.state, progress)
            }
            Stmt::ReadFlatten { slot, names } => {
                self.read_flatten(*slot as usize, names, &mut standing.state, progress)
            }
            Stmt::CheckMissing { slot, ty, name } => {
                self.check_missing(*slot as usize, ty, name, &mut standing.state, progress)
            }
            Stmt::CheckErrors { location } => {
                check_errors(
                    self.scope.alloc,
                    location.as_ref(),
                    &mut standing.state,
                    progress,
                )
            }
            Stmt::SetDefault { from } => self.set_default(
                asked,
                from,
                &mut standing.state,
                progress,
            ),
            Stmt::Build {
                name,
                variant,
                forwarded,
                inits,
            } => self.build_form(
                asked,
                name,
                variant,
                forwarded.as_slice(),
                inits.as_slice(),
                standing,
                progress,
            ),
            Stmt::Transform { post } => self.transform(post, progress),
            Stmt::CheckShape { shapes } => check_shape(shapes, progress),
            Stmt::ReadBody { ident, with } => read_body(ident.as_ref(), with.as_ref(), progress),
            Stmt::Delegate { name, member, ty } => self.delegate(asked, name, member, ty, progress),
            Stmt::Variants { arms, names } => {
                let items = asked.items();
                self.variants(items, arms, names, nesting, standing, progress)
            }
            Stmt::UnitNames { arms, names } => self.unit_names(asked, arms, names, progress),
            Stmt::Call { callable, at } => self.call(asked, callable, *at, progress),
            Stmt::DeclareForward { .. } => Ok(declare_forward(&mut standing.aside, progress)),
            Stmt::ForwardDone { ident, with } => {
                self.forward_done(ident, with.as_ref(), standing, progress)
            }
            // No unit has it yet.
            Stmt::ReadGenerics { .. } => Err(AllocError),
        }
    }

    /// Declares the slot of a number.
    fn declare(
        &self,
        number: usize,
        slot: Slot<'p>,
        state: &mut State<'p>,
        progress: Progress,
    ) -> Mem<Progress>
        ensures { Moves (spec.with_slot number (slot_of slot.entry)) state.old progress state.new result }
    {
        declare(
            self.scope.alloc,
            number,
            slot,
            self.nameless,
            state,
            progress,
        )
    }

    /// Reads the items of each attribute of these names, and runs the statements on them; others are kept where they pass.
    #[cycle(stmts)]
    fn for_attributes(
        &self,
        attributes: &[Attribute],
        names: &[Text],
        forward: &Forward,
        stmts: &'p [Stmt],
        nesting: usize,
        standing: &mut Standing<'p>,
        progress: Progress,
    ) -> Mem<Progress>
        requires { D.reads_within self.now.scope.declared.now self.now.room }
        ensures { Proceeds (on_attributes H.says D.earlier self.now stmts.now names.now forward.now attributes.now) standing.old progress standing.new result }
    {
        let mut progress = progress;
        for attribute in attributes {
            if is_named(self.scope.alloc, names, attribute.meta.path())? {
                progress = self.on_meta(&attribute.meta, stmts, nesting, standing, progress)?;
            } else {
                progress = keep(
                    self.scope.alloc,
                    forward,
                    attribute,
                    &mut standing.aside,
                    progress,
                )?;
            }
        }
        Ok(progress)
    }

    /// Reads the items of an attribute, and runs the statements on them. A word gives nothing.
    #[cycle(stmts)]
    fn on_meta(
        &self,
        meta: &Meta,
        stmts: &'p [Stmt],
        nesting: usize,
        standing: &mut Standing<'p>,
        progress: Progress,
    ) -> Mem<Progress>
        requires { D.reads_within self.now.scope.declared.now self.now.room }
        ensures { Proceeds (attributes.on_meta (on_list H.says D.earlier self.now stmts.now) meta.now) standing.old progress standing.new result }
    {
        match meta {
            Meta::Path(_) => Ok(progress),
            _ => self.on_items(meta, stmts, nesting, standing, progress),
        }
    }

    /// Runs the statements on the items of an attribute, or puts its faults behind those before.
    #[cycle(stmts)]
    fn on_items(
        &self,
        meta: &Meta,
        stmts: &'p [Stmt],
        nesting: usize,
        standing: &mut Standing<'p>,
        progress: Progress,
    ) -> Mem<Progress>
        requires { D.reads_within self.now.scope.declared.now self.now.room }
        ensures { Proceeds (attributes.on_items (on_list H.says D.earlier self.now stmts.now) (attribute_items meta.now))
            standing.old progress standing.new result }
    {
        match attribute_items(self.scope.alloc, meta) {
            Ok(items) => self.inside(items.as_slice(), stmts, nesting, standing, progress),
            Err(fail) => refuse_list(self.scope.alloc, fail, &mut standing.state, progress),
        }
    }

    /// Reads the variant whose name the one item of the list has. The statements of a variant begin anew.
    #[cycle(stmts)]
    #[tactic(auto, using(machine_state::proofs::Stopped::goes_over, machine_state::proofs::Stopped::goes_on))]
    fn variants(
        &self,
        items: &[NestedMeta],
        arms: &'p VariantArms<Stmt>,
        names: &Alternatives,
        nesting: usize,
        standing: &mut Standing<'p>,
        progress: Progress,
    ) -> Mem<Progress>
        requires { D.reads_within self.now.scope.declared.now self.now.room }
        ensures { Proceeds (going (λ old aside. of_enum H.says D.earlier self.now
            (λ setting earlier enum. variants_of setting earlier enum (from_start H.says D.earlier self.now) names.now arms.now items.now)))
            standing.old progress standing.new result }
    {
        match progress.over() {
            Some(over) => Ok(over),
            None => match self.chosen(items, arms, names)?.into_parts() {
                Ok(over) => Ok(over),
                Err((stmts, items)) => {
                    standing.restart(self.scope.alloc);
                    self.inside(items.as_slice(), stmts, nesting, standing, Progress::Going)
                }
            },
        }
    }

    /// Runs the statements that stand in a statement on the items of a list.
    #[cycle(stmts)]
    fn inside(
        &self,
        items: &[NestedMeta],
        stmts: &'p [Stmt],
        nesting: usize,
        standing: &mut Standing<'p>,
        progress: Progress,
    ) -> Mem<Progress>
        requires { D.reads_within self.now.scope.declared.now self.now.room }
        ensures { Proceeds (on_list H.says D.earlier self.now stmts.now items.now) standing.old progress standing.new result }
    {
        if nesting == 0 {
            return Err(AllocError);
        }
        self.run_from(
            Asked::Cell(Call::List(items)),
            stmts,
            nesting - 1,
            standing,
            progress,
        )
    }
}

impl<H, D> Drop for Run<'_, H, D> {
    fn drop(self) {
        let Self {
            scope,
            room: _,
            receiver: _,
            nameless: _,
        } = self;
        let Scope {
            alloc: _,
            setting,
            declared: _,
        } = scope;
        let Setting { host: _, decls: _ } = setting;
    }
}
