//! What is told of two texts that were run.

use base_core::{Items, Mem, TryClone};
use codegen_program::Program;
use law_options::RenameTable;
use machine_execute::Outcome;
use node_core::DeriveInput;
use std::alloc::Global;

/// What was read, what it was compiled to, and what came of it.
pub struct Report {
    /// The items of the text of declarations, with their attributes.
    pub declarations: Items<DeriveInput>,
    /// The table by which names were changed.
    pub table: RenameTable,
    /// What the declarations were compiled to.
    pub program: Program,
    /// The number of the program's unit by which subjects are read: that of the last declaration under `FromDeriveInput`.
    pub receiver: u32,
    /// The items that were read by it.
    pub subjects: Items<DeriveInput>,
    /// What the receiver makes of each subject, in order.
    pub outcomes: Items<Outcome>,
}

impl TryClone for Report {
    fn try_clone(&self, alloc: Global) -> Mem<Report> {
        Ok(Report {
            declarations: self.declarations.try_clone(alloc)?,
            table: self.table.try_clone(alloc)?,
            program: self.program.try_clone(alloc)?,
            receiver: self.receiver,
            subjects: self.subjects.try_clone(alloc)?,
            outcomes: self.outcomes.try_clone(alloc)?,
        })
    }
}

impl Drop for Report {
    fn drop(self) {
        let Self {
            declarations: _declarations,
            table: _table,
            program: _program,
            receiver: _,
            subjects: _subjects,
            outcomes: _outcomes,
        } = self;
    }
}
