//! Maps from paths, with two paths that have the same hash.
use fp_system::PathMap;
use std::alloc::{AllocError, Global};
use std::hash::{FoldHasher, Hasher};

/// A path that has the same hash as `SECOND`.
const FIRST: &str = "RN6psTB\u{6fa}7\u{7a9}BFmb";

const SECOND: &str = "LC7SsUe\u{624}:\u{7ca}BGJa";

fn number_of(at: &str) -> u64 {
    let mut hasher = FoldHasher::default();
    hasher.write(at.as_bytes());
    hasher.finish()
}

fn map_of_both(alloc: Global) -> Result<PathMap<u32>, AllocError> {
    let mut map = PathMap::new(alloc);
    map.put(FIRST, 1)?;
    map.put(SECOND, 2)?;
    Ok(map)
}

/// Returns whether the map has both paths, each with its value, and lists all paths in order.
fn keeps_both(alloc: Global) -> Result<bool, AllocError> {
    let mut map = map_of_both(alloc)?;
    map.put(FIRST, 3)?;
    map.put("third", 4)?;
    let is_kept = map.get(FIRST) == Some(&3) && map.get(SECOND) == Some(&2);
    let paths = map.paths(alloc)?;
    let is_listed = paths.len() == 3 && paths.first() == Some(&SECOND);
    Ok(is_kept && is_listed && paths.get(1) == Some(&FIRST))
}

/// Returns whether the second path is still found, and can be changed, once the first is removed.
fn loses_first(alloc: Global) -> Result<bool, AllocError> {
    let mut map = map_of_both(alloc)?;
    let is_taken = map.remove(FIRST) == Some(1) && !map.has(FIRST);
    map.put(SECOND, 5)?;
    map.put(FIRST, 6)?;
    Ok(is_taken && map.remove(SECOND) == Some(5) && !map.has(SECOND) && map.get(FIRST) == Some(&6))
}

/// Returns whether the first path stays once the second is removed, and a cleared map has none.
fn loses_second(alloc: Global) -> Result<bool, AllocError> {
    let mut map = map_of_both(alloc)?;
    let is_taken = map.remove(SECOND) == Some(2) && map.remove(SECOND).is_none();
    let is_kept = map.get(FIRST) == Some(&1) && !map.is_empty();
    map.put(SECOND, 2)?;
    map.clear();
    Ok(is_taken && is_kept && map.is_empty() && !map.has(SECOND))
}

#[test]
fn two_paths_of_one_number_are_told_apart(rt: HostRuntime) {
    assert!(rt;
        number_of(FIRST) == number_of(SECOND)
            && keeps_both(rt.alloc()) == Ok(true)
            && loses_first(rt.alloc()) == Ok(true)
            && loses_second(rt.alloc()) == Ok(true)
    );
}
