//! How an item that is met fills a slot.

ghost use Rattle.std.specs.Prelude.{◌≡◌};

use crate::alternatives::Alternatives;
use crate::callable::Callable;
use base_core::{Mem, Text, TryClone};
use node_expr::Path;
use std::alloc::Global;
use tok_types::Ident;

/// What an item of this name does: it is converted, and the value goes to the slot.
pub struct Arm {
    pub name: Text,
    pub slot: u32,
    /// Whether the slot takes a value of each such item; else the second such item is a fault.
    pub many: bool,
    /// What converts the item, where its type does not.
    pub with: Option<Callable>,
    pub post: Option<PostfixTransform>,
}

impl Drop for Arm {
    fn drop(self) {
        let Self {
            name: _name,
            slot: _,
            many: _,
            with: _with,
            post: _post,
        } = self;
    }
}

impl TryClone for Arm {
    fn try_clone(&self, alloc: Global) -> Mem<Arm> {
        let name = self.name.try_clone(alloc)?;
        let with = self.with.try_clone(alloc)?;
        let post = self.post.try_clone(alloc)?;
        Ok(Arm {
            name,
            slot: self.slot,
            many: self.many,
            with,
            post,
        })
    }
}

/// What is called on the answer of a conversion: the method, `map` or `and_then`, and the function that it is given.
pub struct PostfixTransform {
    pub transformer: Ident,
    pub function: Path,
}

impl PostfixTransform {
    /// The function that the option of this name gives.
    pub fn new(transformer: Ident, function: Path) -> PostfixTransform
        ensures { result ≡ record { transformer = transformer; function = function } }
    {
        PostfixTransform {
            transformer,
            function,
        }
    }
}

impl Drop for PostfixTransform {
    fn drop(self) {
        let Self {
            transformer: _transformer,
            function: _function,
        } = self;
    }
}

impl TryClone for PostfixTransform {
    fn try_clone(&self, alloc: Global) -> Mem<PostfixTransform> {
        let transformer = self.transformer.try_clone(alloc)?;
        let function = self.function.try_clone(alloc)?;
        Ok(PostfixTransform {
            transformer,
            function,
        })
    }
}

/// What an item does that no arm is for.
pub enum Rest {
    /// It is kept for the flattened field.
    Buffer,
    Ignore,
    /// It is a fault, which may propose one of these names.
    Unknown(Alternatives),
}

impl Drop for Rest {
    fn drop(self) {
        match self {
            Rest::Buffer | Rest::Ignore => {}
            Rest::Unknown(_names) => {}
        }
    }
}

impl TryClone for Rest {
    fn try_clone(&self, alloc: Global) -> Mem<Rest> {
        match self {
            Rest::Buffer => Ok(Rest::Buffer),
            Rest::Ignore => Ok(Rest::Ignore),
            Rest::Unknown(names) => Ok(Rest::Unknown(names.try_clone(alloc)?)),
        }
    }
}
