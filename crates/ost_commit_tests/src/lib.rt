//! Tests of commits that are built of rows, and of descriptions.
#![tactic(auto)]

#[cfg(test)]
mod commits;
#[cfg(test)]
mod descriptions;
