//! Tests of errors against the crate's own cases.
#![tactic(auto)]

#[cfg(test)]
mod carried;
#[cfg(test)]
mod errors;
#[cfg(test)]
mod faults;
#[cfg(test)]
mod made;
#[cfg(test)]
mod rows;
