//! Texts are lexed, parsed, copied, compared, printed and taken apart. Each case is a row of a text, with
//! an answer from outside, so what the grammar's definitions say is held against what was meant.
#![tactic(auto)]

#[cfg(test)]
mod calls;
#[cfg(test)]
mod deep;
#[cfg(test)]
mod exprs;
#[cfg(test)]
mod items;
#[cfg(test)]
mod nested;
#[cfg(test)]
mod node;
#[cfg(test)]
mod operators;
#[cfg(test)]
mod parts;
#[cfg(test)]
mod told;
#[cfg(test)]
mod types;
#[cfg(test)]
mod walk;
