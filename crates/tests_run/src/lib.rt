//! Tests of the run, whole, and of the proved callers.
#![tactic(auto)]

#[cfg(test)]
mod callers;
#[cfg(test)]
mod declarations;
#[cfg(test)]
mod ends;
#[cfg(test)]
mod enums;
#[cfg(test)]
mod hosts;
#[cfg(test)]
mod inputs;
#[cfg(test)]
mod library;
#[cfg(test)]
mod parts;
#[cfg(test)]
mod receivers;
#[cfg(test)]
mod values;
