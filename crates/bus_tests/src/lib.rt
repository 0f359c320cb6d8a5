//! Tests of the bus crates: messages, streams of them, rules, and what a filter lets through. Also
//! tests of a filter's time, which doesn't grow with what it stores, and of its memory, in which it
//! stores nothing for events that add nothing.
#![tactic(auto)]

#[cfg(test)]
mod built;
#[cfg(test)]
mod captured;
#[cfg(test)]
mod frame;
#[cfg(test)]
mod many;
#[cfg(test)]
mod policy;
#[cfg(test)]
mod proxy;
#[cfg(test)]
mod rows;
#[cfg(test)]
mod rules;
#[cfg(test)]
mod stream;
#[cfg(test)]
mod told;
