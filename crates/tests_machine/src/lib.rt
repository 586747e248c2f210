//! The machine and what stands around it: types as rows, hosts, programs, and what is read of declarations.
#![tactic(auto)]

#[cfg(test)]
mod answers;
#[cfg(test)]
mod ask;
#[cfg(test)]
mod compiled;
#[cfg(test)]
mod elements;
#[cfg(test)]
mod fits;
#[cfg(test)]
mod hosts;
#[cfg(test)]
mod outer_places;
#[cfg(test)]
mod outer_types;
#[cfg(test)]
mod part_asks;
#[cfg(test)]
mod programs;
#[cfg(test)]
mod refused;
#[cfg(test)]
mod sources;
#[cfg(test)]
mod statements;
#[cfg(test)]
mod table;
#[cfg(test)]
mod types;
#[cfg(test)]
mod variants;
