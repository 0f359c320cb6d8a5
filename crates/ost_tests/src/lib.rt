//! Tests of the store: objects that the `ostree` command made, their digests, refs, and the calls
//! of a store.
#![tactic(auto)]

#[cfg(test)]
mod content;
#[cfg(test)]
mod halves;
#[cfg(test)]
mod holding;
#[cfg(test)]
mod long_objects;
#[cfg(test)]
mod made_contents;
#[cfg(test)]
mod made_objects;
#[cfg(test)]
mod object;
#[cfg(test)]
mod parsed;
#[cfg(test)]
mod refs;
#[cfg(test)]
mod rows;
#[cfg(test)]
mod shown_objects;
#[cfg(test)]
mod steps;
#[cfg(test)]
mod store;
