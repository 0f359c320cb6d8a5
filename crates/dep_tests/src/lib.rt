//! Tests of what is deployed: a long record, and an installation with many refs.
#![tactic(auto)]

#[cfg(test)]
mod opening;
#[cfg(test)]
mod records;
#[cfg(test)]
mod wide_host;
