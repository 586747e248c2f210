//! Options of receivers, bodies, shapes, and the parameters that items use.
#![tactic(auto)]

#[cfg(test)]
mod ask;
#[cfg(test)]
mod bodies;
#[cfg(test)]
mod outer;
#[cfg(test)]
mod outer_units;
#[cfg(test)]
mod receivers;
#[cfg(test)]
mod searched;
#[cfg(test)]
mod units;
#[cfg(test)]
mod usage;
#[cfg(test)]
mod values;
#[cfg(test)]
mod variants;
