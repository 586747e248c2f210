//! A value that faults share.

ghost use Rattle.std.specs.Prelude.{◌≡◌, IfOk};

use base_core::{Mem, TryClone};
use std::alloc::Global;
use std::marker::Model;
use std::rc::Rc;

/// A value with several owners, which contracts see as the value.
///
/// Faults share the names that they offer: a copy of these in each fault would cost the count of names
/// times the count of faults.
#[derive(Debug)]
pub struct Shared<T> {
    place: Rc<T>,
}

impl<T> Model for Shared<T> {
    ghost Value = { T };

    ghost coded = { T.code };

    ghost view = { λ shared. shared.place.value };
}

impl<T> Shared<T> {
    pub fn get(&self) -> &T
        ensures { result.now ≡ self.now }
    {
        self.place.as_ref()
    }
}

impl<T: Drop> Shared<T> {
    pub fn new(alloc: Global, value: T) -> Mem<Shared<T>>
        ensures { IfOk result (λ shared. shared ≡ value) }
    {
        let place = Rc::new(alloc, value)?;
        Ok(Shared { place })
    }
}

/// One more owner of the same value.
impl<T: Drop> TryClone for Shared<T> {
    fn try_clone(&self, _alloc: Global) -> Mem<Shared<T>> {
        let place = self.place.clone()?;
        Ok(Shared { place })
    }
}

impl<T: Drop> Drop for Shared<T> {
    fn drop(self) {
        let Self { place: _place } = self;
    }
}
