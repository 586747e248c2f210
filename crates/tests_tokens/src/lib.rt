//! Tests of texts, tokens and bytes against cases from outside.
#![tactic(auto)]

#[cfg(test)]
mod edge;
#[cfg(test)]
mod lex;
#[cfg(test)]
mod lit;
#[cfg(test)]
mod names;
#[cfg(test)]
mod scan;
#[cfg(test)]
mod told;
#[cfg(test)]
mod values;
