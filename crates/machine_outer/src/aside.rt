//! What stands beside the state of a run.

ghost use Rattle.std.specs.Prelude.{◌≡◌, OnOk, true};
ghost use Rattle.machine_outer.specs.Seen.{aside_of};
ghost use Rattle.machine_steps.specs.Attributes as spec;
ghost use Rattle.machine_steps.specs.Progress.{Going, no_aside};
ghost use Rattle.machine_steps.specs.State.{State};

use base_core::{Items, Mem, TryClone};
use machine_value::Value;
use node_core::Attribute;
use std::alloc::Global;

/// What stands beside the state of a run.
pub struct Aside {
    /// The attributes that are kept.
    pub kept: Items<Attribute>,
    /// Whether the shape of the element was refused.
    pub misshapen: bool,
    /// What was made of the attributes that are kept.
    pub attrs: Option<Value>,
    /// What was read of the body, or of the fields of a variant.
    pub body: Option<Value>,
    /// What was read of the generics.
    pub generics: Option<Value>,
}

impl Aside {
    /// Nothing is kept or read yet.
    pub fn new(alloc: Global) -> Aside
        ensures { aside_of result ≡ no_aside }
    {
        Aside {
            kept: Items::new(alloc),
            misshapen: false,
            attrs: None,
            body: None,
            generics: None,
        }
    }

    /// Keeps one more attribute.
    pub fn keep(&mut self, alloc: Global, attribute: &Attribute) -> Mem<()>
        ensures { OnOk result ((state : State) → Going state (aside_of self.new) ≡ spec.keep true attribute.now (Going state (aside_of self.old))) }
    {
        let attribute = attribute.try_clone(alloc)?;
        self.kept.push(attribute)
    }
}

impl Drop for Aside {
    fn drop(self) {
        let Self {
            kept: _kept,
            misshapen: _,
            attrs: _attrs,
            body: _body,
            generics: _generics,
        } = self;
    }
}
