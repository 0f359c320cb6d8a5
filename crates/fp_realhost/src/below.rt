//! Paths below a directory.

/// Returns whether the path is below the directory. The directory itself isn't.
pub fn is_below(at: &str, folder: &str) -> bool {
    match at.strip_prefix(folder) {
        Some(rest) => rest.starts_with('/'),
        None => false,
    }
}
