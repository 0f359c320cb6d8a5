//! Tests of extension points, launches, long files, and words that are options or rules.
#![tactic(auto)]

#[cfg(test)]
mod extension;
#[cfg(test)]
mod given;
#[cfg(test)]
mod installed;
#[cfg(test)]
mod launch;
#[cfg(test)]
mod long;
#[cfg(test)]
mod rows;
#[cfg(test)]
mod words;
