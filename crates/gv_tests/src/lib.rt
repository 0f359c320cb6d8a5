//! Tests of GVariant: types, values, and their bytes as GLib encodes them.
#![tactic(auto)]

#[cfg(test)]
mod decode;
#[cfg(test)]
mod encode;
#[cfg(test)]
mod examples;
#[cfg(test)]
mod glib;
#[cfg(test)]
mod long;
#[cfg(test)]
mod rows;
#[cfg(test)]
mod stepping;
#[cfg(test)]
mod value;
#[cfg(test)]
mod vectors;
