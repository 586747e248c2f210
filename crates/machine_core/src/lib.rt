//! The machine: what a host makes of the programs that receivers' declarations compile to.
//!
//! [`fit`] says whether a [`Program`] can be run with a [`Host`], or the first place that stands against it, and [`refusals`] all
//! of them. [`execute`] runs a unit of it on an [`Element`] and answers its [`Outcome`]: a [`Value`], or all faults with their
//! places. [`StdHost`] offers the functions of the tool, and [`RefusingHost`] none.
//!
//! A host of one's own implements [`Host`]: it asks [`is_function`] and [`leaf_of`] what it is handed, and what it gives is
//! [`Said`]. `machine_host` stands here whole as [`host`], and `machine_rows` as [`rows`].
#![tactic(auto)]

pub use base_core::{Boxed, Items, Mem, Text, TryClone};
pub use codegen_program::{
    Alternatives, Arm, Arms, Decls, DefaultSource, Derive, Fallback, Forward, Func, FuncName, Init,
    PostfixTransform, Program, Rest, Stmt, Unit,
};
pub use error_fault::Fault;
pub use machine_execute::{
    Arg, Callable, Element, Host, HostItem, MAX_READING, NestedMeta, Outcome, Place, Prepared,
    RefusingHost, Said, Use, execute, try_execute, what_fits_a_type,
};
pub use machine_fit::{Form, Refusals, Unfit, Unsupported, fit, refusals};
pub use machine_host as host;
pub use machine_host::{custom, named_type};
pub use machine_rows as rows;
pub use machine_rows::Leaf;
pub use machine_std::{StdHost, is_function, leaf_of};
pub use machine_value::Value;
pub use node_core::{DeriveInput, Style};
pub use node_expr::{Path, Type};
pub use tok_types::{Span, TokenStream};
