//! Tests of the adapters over real directories: the effects of a host's calls, the calls of the
//! system in order, syncs by several threads, the locks, directories as remotes, and an input as a
//! source.
#![tactic(auto)]

#[cfg(test)]
mod bits;
#[cfg(test)]
mod calls;
#[cfg(test)]
mod far;
#[cfg(test)]
mod held;
#[cfg(test)]
mod hostile;
#[cfg(test)]
mod input;
#[cfg(test)]
mod later;
#[cfg(test)]
mod layout;
#[cfg(test)]
mod left;
#[cfg(test)]
mod links;
#[cfg(test)]
mod names;
#[cfg(test)]
mod noted;
#[cfg(test)]
mod order;
#[cfg(test)]
mod others;
#[cfg(test)]
mod paths;
#[cfg(test)]
mod remotes;
#[cfg(test)]
mod shown;
#[cfg(test)]
mod stored;
#[cfg(test)]
mod synced;
