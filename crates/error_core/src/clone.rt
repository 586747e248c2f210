//! Clones of errors, and of why a call gives no value.

use crate::error::{Error, Node};
use crate::fail::Fail;
use base_core::{Mem, TryClone};
use std::alloc::Global;

impl TryClone for Error {
    fn try_clone(&self, alloc: Global) -> Mem<Error> {
        let nodes = self.nodes.try_clone(alloc)?;
        Ok(Error { nodes, alloc })
    }
}

impl TryClone for Node {
    fn try_clone(&self, alloc: Global) -> Mem<Node> {
        Ok(Node {
            size: self.size,
            locations: self.locations.try_clone(alloc)?,
            span: self.span,
            kind: self.kind.try_clone(alloc)?,
        })
    }
}

impl TryClone for Fail {
    fn try_clone(&self, alloc: Global) -> Mem<Fail> {
        match self {
            Fail::Faults(error) => Ok(Fail::Faults(error.try_clone(alloc)?)),
            Fail::NoMemory => Ok(Fail::NoMemory),
        }
    }
}
