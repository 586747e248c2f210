//! Forms, and where they stand.

ghost use Rattle.std.specs.Prelude.{◌≡◌, ◌++◌, List, IfOk, OnOk};

use base_core::{Items, Mem};
use codegen_core::Unsupported;
use std::alloc::Global;

/// Options that show forms which have no program.
pub trait Forms: Sized {
    ghost use Rattle.codegen_core.specs.declared.form.Unsupported.{Unsupported};

    /// The forms, each at its place.
    ghost forms: { Self → List Unsupported };

    /// Adds the forms.
    fn push_forms(&self, places: &mut Items<Unsupported>) -> Mem<()>
        ensures { OnOk result (places.new ≡ places.old ++ forms self.now) };

    /// The forms, each at its place.
    final fn forms_of(&self, alloc: Global) -> Mem<Items<Unsupported>>
        ensures { IfOk result (λ it. it ≡ forms self.now) }
    {
        let mut places = Items::new(alloc);
        self.push_forms(&mut places)?;
        Ok(places)
    }
}
