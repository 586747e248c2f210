//! Programs that a receiver's declaration compiles to, as plain data: each derive of a declaration is a unit, each
//! function of the unit a list of statements.
//!
//! A statement writes the slots of a receiver, which are numbered from 0 in the order of its fields.
#![tactic(auto)]

mod alternatives;
mod arm;
mod arms;
mod callable;
mod clone;
mod decls;
mod forward;
mod forwarded;
mod init;
mod program;
mod shape;
mod stmt;
mod unit_arms;
mod variant;
mod variant_arms;

pub use alternatives::Alternatives;
pub use arm::{Arm, PostfixTransform, Rest};
pub use arms::Arms;
pub use callable::Callable;
pub use decls::Decls;
pub use forward::Forward;
pub use forwarded::{Forwarded, Magic};
pub use init::{DefaultSource, Fallback, Init};
pub use program::{Derive, Func, FuncName, Program, Unit};
pub use shape::{DataShape, ShapeSpec};
pub use stmt::{MAX_NESTING, Stmt};
pub use unit_arms::UnitArms;
pub use variant::{UnitArm, UnitForm, VariantArm, VariantForm};
pub use variant_arms::VariantArms;
