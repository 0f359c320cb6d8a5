//! Maps keyed by paths.
use crate::syncing::{Unsynced, sync_at};
use std::alloc::{AllocError, Global};
use std::collections::BTreeMap;
use std::hash::{FoldHasher, Hasher};
use std::rt::Files;

/// A map keyed by paths. A path is looked up by a hash of its bytes, since paths of one directory
/// share a long prefix and compare slowly. If two paths have the same hash, the second one is
/// looked up by its text.
#[derive(Drop)]
pub struct PathMap<V> {
    alloc: Global,
    numbered: BTreeMap<u64, Entry<V>>,
    // The paths whose hash another path had when they were added.
    others: BTreeMap<String, V>,
}

/// A path and its value.
#[derive(Drop)]
struct Entry<V> {
    at: String,
    value: V,
}

impl<V> PathMap<V> {
    /// Creates an empty map.
    pub fn new(alloc: Global) -> Self {
        PathMap {
            alloc,
            numbered: BTreeMap::new(alloc),
            others: BTreeMap::new(alloc),
        }
    }

    /// Returns whether the map is empty.
    pub fn is_empty(&self) -> bool {
        self.numbered.is_empty() && self.others.is_empty()
    }

    /// Returns the value of the path.
    pub fn get(&self, at: &str) -> Option<&V> {
        match self.numbered.get(&number_of(at)) {
            Some(entry) if entry.at.as_str() == at => Some(&entry.value),
            _ => self.others.get(at),
        }
    }

    /// Returns whether the map contains the path.
    pub fn has(&self, at: &str) -> bool {
        self.get(at).is_some()
    }

    /// Returns a mutable reference to the value of the path.
    pub fn get_mut(&mut self, at: &str) -> Option<&mut V> {
        self.find_mut(number_of(at), at)
    }

    fn find_mut(&mut self, number: u64, at: &str) -> Option<&mut V> {
        match self.numbered.get_mut(&number) {
            Some(entry) if entry.at.as_str() == at => Some(&mut entry.value),
            _ => self.others.get_mut(at),
        }
    }

    /// Returns the paths, ascending by their bytes.
    pub fn paths(&self, alloc: Global) -> Result<Vec<&str>, AllocError> {
        let mut paths = Vec::new(alloc);
        add_numbered(&self.numbered, &mut paths)?;
        add_others(&self.others, &mut paths)?;
        paths.sort_unstable();
        Ok(paths)
    }
}

impl<V: Drop> PathMap<V> {
    /// Sets the value of the path. Errs if memory runs out; then the map is unchanged.
    pub fn put(&mut self, at: &str, value: V) -> Result<(), AllocError> {
        let number = number_of(at);
        match self.find_mut(number, at) {
            Some(kept) => {
                *kept = value;
                Ok(())
            }
            None => self.add(number, at, value),
        }
    }

    /// Adds a path that isn't in the map.
    fn add(&mut self, number: u64, at: &str, value: V) -> Result<(), AllocError> {
        let at = at.to_string(self.alloc)?;
        if self.numbered.contains_key(&number) {
            self.others.insert(at, value)?;
        } else {
            self.numbered.insert(number, Entry { at, value })?;
        }
        Ok(())
    }

    /// Removes the path and returns its value.
    pub fn remove(&mut self, at: &str) -> Option<V> {
        let number = number_of(at);
        match self.numbered.get(&number) {
            Some(entry) if entry.at.as_str() == at => self.take(number),
            _ => self.others.remove(at),
        }
    }

    fn take(&mut self, number: u64) -> Option<V> {
        match self.numbered.remove(&number) {
            Some(Entry { at: _, value }) => Some(value),
            None => None,
        }
    }

    /// Removes all paths.
    pub fn clear(&mut self) {
        self.numbered.clear();
        self.others.clear();
    }
}

/// Returns the hash by which the path is looked up.
fn number_of(at: &str) -> u64 {
    let mut hasher = FoldHasher::default();
    hasher.write(at.as_bytes());
    hasher.finish()
}

fn add_numbered<'a, V>(
    map: &'a BTreeMap<u64, Entry<V>>,
    paths: &mut Vec<&'a str>,
) -> Result<(), AllocError> {
    for entry in map.values() {
        paths.push(entry.at.as_str())?;
    }
    Ok(())
}

fn add_others<'a, V>(
    map: &'a BTreeMap<String, V>,
    paths: &mut Vec<&'a str>,
) -> Result<(), AllocError> {
    for at in map.keys() {
        paths.push(at.as_str())?;
    }
    Ok(())
}

/// Syncs the files and directories at all paths, in no particular order. Returns the first failure
/// and its path, where it stops. It allocates no memory.
pub fn sync_each<'a, V, R: Files>(
    rt: &R,
    map: &'a PathMap<V>,
    spares: bool,
) -> Option<(&'a str, Unsynced)> {
    match sync_numbered(rt, &map.numbered, spares) {
        None => sync_others(rt, &map.others, spares),
        met => met,
    }
}

fn sync_numbered<'a, V, R: Files>(
    rt: &R,
    map: &'a BTreeMap<u64, Entry<V>>,
    spares: bool,
) -> Option<(&'a str, Unsynced)> {
    for entry in map.values() {
        if let Some(unsynced) = sync_at(rt, entry.at.as_str(), spares) {
            return Some((entry.at.as_str(), unsynced));
        }
    }
    None
}

fn sync_others<'a, V, R: Files>(
    rt: &R,
    map: &'a BTreeMap<String, V>,
    spares: bool,
) -> Option<(&'a str, Unsynced)> {
    for at in map.keys() {
        if let Some(unsynced) = sync_at(rt, at.as_str(), spares) {
            return Some((at.as_str(), unsynced));
        }
    }
    None
}
