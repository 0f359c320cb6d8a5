//! Tests of Flatpak's files: metadata, permissions and overrides.
#![tactic(auto)]

#[cfg(test)]
mod context;
#[cfg(test)]
mod meta;
#[cfg(test)]
mod overrides;
#[cfg(test)]
mod rows;
