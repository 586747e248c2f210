//! The tool: the derived parsers of a text of declarations, run over a text of annotated items.
//!
//! [`run_tool`] reads an input of two parts, declarations and items, and perhaps a table of names. It compiles the
//! declarations to a program, runs that on each item as the last declaration says, and writes a line for
//! each item: its value, or its faults with their places. Its steps from Rust are [`unbuilt`], [`accepted`], [`run_source`],
//! [`run_program`] and [`report_text`].
//!
//! The crates below stand here under the names of `darling_core`'s modules: [`ast`], [`codegen`], [`error`], [`options`],
//! [`usage`] and [`util`].
#![tactic(auto)]

pub mod codegen;
mod input;
mod refusal;
mod report;
mod status;
mod tool;

pub use base_core::{Items, Mem, Text};
pub use body_core::{
    FromAttributes, FromDeriveInput, FromField, FromGenericParam, FromGenerics, FromTypeParam,
    FromVariant, ast,
};
pub use body_usage as usage;
pub use codegen_program::{Derive, Program};
pub use edge_core::{
    MemorySink, MemorySource, PlainSink, PlainSource, ReadAll, Sink, Source, StdSink, StdSource,
    WriteFault,
};
pub use error_core as error;
pub use error_fault::{Fault, FaultKind, fault_line};
pub use machine_std::StdHost;
pub use machine_value::Value;
pub use node_core::{DeriveInput, Style};
pub use options_core as options;
pub use refusal::refusal_text;
pub use report::report_text;
pub use run_source::{
    Form, Host, Outcome, RefusingHost, Rejected, RenameTable, Report, RunError, TableFail,
    accepted, earliest, run_program, run_source, unbuilt,
};
pub use run_text::value_text;
pub use status::Status;
pub use tok_types::Span;
pub use tool::{Ended, run_tool};
pub use util_core as util;
pub use util_core::FromMeta;
