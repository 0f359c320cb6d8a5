//! Tests of the lowest crates: paths, the host, remotes and source in memory, names, key files and
//! an installation's small files.
#![tactic(auto)]

#[cfg(test)]
mod host;
#[cfg(test)]
mod keyfile;
#[cfg(test)]
mod many;
#[cfg(test)]
mod memhost;
#[cfg(test)]
mod name;
#[cfg(test)]
mod parsed;
#[cfg(test)]
mod rows;
#[cfg(test)]
mod small;
