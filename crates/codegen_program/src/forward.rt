//! Which attributes are handed on as they stand.

use base_core::{Items, Mem, Text, TryClone};
use std::alloc::Global;

/// The attributes that are handed on as they stand: none, all, or those of these names.
pub enum Forward {
    Nothing,
    All,
    Only(Items<Text>),
}

impl Drop for Forward {
    fn drop(self) {
        match self {
            Forward::Nothing | Forward::All => {}
            Forward::Only(_names) => {}
        }
    }
}

impl TryClone for Forward {
    fn try_clone(&self, alloc: Global) -> Mem<Forward> {
        match self {
            Forward::Nothing => Ok(Forward::Nothing),
            Forward::All => Ok(Forward::All),
            Forward::Only(names) => Ok(Forward::Only(names.try_clone(alloc)?)),
        }
    }
}
