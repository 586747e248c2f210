//! Which attributes are kept, and the field that takes them.

ghost use Rattle.std.specs.Prelude.{◌≡◌, ◌++◌, map, not, IfOk, OnOk};
ghost use Rattle.std.specs.Option.{option_copied};
ghost use Rattle.node_make.specs.PathText.{path_text};
ghost use Rattle.codegen_outer.specs.Forwarding as spec;

use base_core::{Items, Mem, Text, TryClone};
use codegen_program::{Forward, Stmt};
use node_expr::Path;
use options_types::{ForwardAttrsFilter, ForwardedField};
use std::alloc::Global;

/// Which attributes are kept, and the field that takes them.
pub struct ForwardAttrs<'a> {
    pub filter: Option<&'a ForwardAttrsFilter>,
    pub field: Option<&'a ForwardedField>,
}

impl<'a> ForwardAttrs<'a> {
    /// Whether attributes are kept: a field takes them, and there is a filter that is not empty.
    pub fn will_forward_any(&self) -> bool
        ensures { result ≡ not (spec.is_nothing (spec.forward_of self.now)) }
    {
        match self.field {
            Some(_) => passes_any(self.filter),
            None => false,
        }
    }

    /// The attributes that are kept.
    pub(crate) fn to_forward(&self, alloc: Global) -> Mem<Forward>
        ensures { IfOk result (λ it. it ≡ spec.forward_of self.now) }
    {
        match self.field {
            Some(_) => passing(alloc, self.filter),
            None => Ok(Forward::Nothing),
        }
    }

    /// Adds that no attribute is kept yet, where a field takes them.
    pub(crate) fn push_declaration(&self, alloc: Global, stmts: &mut Items<Stmt>) -> Mem<()>
        ensures { OnOk result (stmts.new ≡ stmts.old ++ spec.declare_forward (option_copied self.now.field)) }
    {
        match self.field {
            Some(field) => {
                let ident = field.ident.try_clone(alloc)?;
                stmts.push(Stmt::DeclareForward { ident })
            }
            None => Ok(()),
        }
    }

    /// Adds that the attributes which were kept fill the field, where there is one.
    pub(crate) fn push_done(&self, alloc: Global, stmts: &mut Items<Stmt>) -> Mem<()>
        ensures { OnOk result (stmts.new ≡ stmts.old ++ spec.forward_done (option_copied self.now.field)) }
    {
        match self.field {
            Some(field) => {
                let ident = field.ident.try_clone(alloc)?;
                let with = field.with.try_clone(alloc)?;
                stmts.push(Stmt::ForwardDone { ident, with })
            }
            None => Ok(()),
        }
    }
}

/// Whether the filter lets some attribute pass.
fn passes_any(filter: Option<&ForwardAttrsFilter>) -> bool
    ensures { result ≡ not (spec.is_nothing (spec.passing (option_copied filter.entry))) }
{
    match filter {
        Some(ForwardAttrsFilter::Only(paths)) => has_paths(paths.0.as_slice()),
        Some(ForwardAttrsFilter::All) => true,
        None => false,
    }
}

fn has_paths(paths: &[Path]) -> bool
    ensures { result ≡ not (spec.is_nothing (spec.only (map path_text paths.now))) }
{
    match paths {
        [] => false,
        [_, ..] => true,
    }
}

/// The attributes that the filter lets pass.
fn passing(alloc: Global, filter: Option<&ForwardAttrsFilter>) -> Mem<Forward>
    ensures { IfOk result (λ it. it ≡ spec.passing (option_copied filter.entry)) }
{
    match filter {
        Some(ForwardAttrsFilter::Only(paths)) => {
            Ok(only(Items::from_vec(paths.to_strings(alloc)?)))
        }
        Some(ForwardAttrsFilter::All) => Ok(Forward::All),
        None => Ok(Forward::Nothing),
    }
}

/// The attributes of these names; of no name, none.
fn only(names: Items<Text>) -> Forward
    ensures { result ≡ spec.only names }
{
    if names.is_empty() {
        Forward::Nothing
    } else {
        Forward::Only(names)
    }
}

impl<'a> Drop for ForwardAttrs<'a> {
    fn drop(self) {
        let Self {
            filter: _,
            field: _,
        } = self;
    }
}
