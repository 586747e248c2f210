//! A program and the host that it is to be run with.

ghost use Rattle.std.specs.Prelude.{◌≡◌};
ghost use Rattle.machine_forms.specs.HostSays.{defaulted};
ghost use Rattle.machine_forms.specs.Units.{item_flags as flags_of};

use base_core::Items;
use codegen_program::Program;
use machine_forms::Host;
use std::alloc::Global;

/// A program and the host that it is to be run with.
pub(crate) struct Checker<'p, H: Host> {
    pub alloc: Global,
    pub program: &'p Program,
    pub host: &'p H,
    /// Which declarations items are read as.
    pub items: Items<bool>,
    /// Which declarations have a default, as the host says.
    pub defaults: Items<bool>,
    ghost are_items: { items ≡ flags_of program.now },
    ghost are_defaults: { defaults ≡ defaulted (H.says host.now) program.now.decls },
}

impl<H: Host> Drop for Checker<'_, H> {
    fn drop(self) {
        let Self {
            alloc: _,
            program: _,
            host: _,
            items: _items,
            defaults: _defaults,
        } = self;
    }
}
