//! Conversions, a table a type: nested items and what the type makes of them; and the calls of `util`.
#![tactic(auto)]

#[cfg(test)]
mod asked;
#[cfg(test)]
mod calls;
#[cfg(test)]
mod elements;
#[cfg(test)]
mod entries;
#[cfg(test)]
mod integers;
#[cfg(test)]
mod lists;
#[cfg(test)]
mod literals;
#[cfg(test)]
mod maps;
#[cfg(test)]
mod shown;
#[cfg(test)]
mod syntax;
#[cfg(test)]
mod types;
#[cfg(test)]
mod util;
#[cfg(test)]
mod values;
#[cfg(test)]
mod wrappers;
