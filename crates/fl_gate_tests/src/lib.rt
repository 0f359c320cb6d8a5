//! Tests of a gate in a pull and in `fsck`, and of generated remotes.
#![tactic(auto)]

#[cfg(test)]
mod fsck;
#[cfg(test)]
mod meeting;
#[cfg(test)]
mod remotes;
