//! The purposes of an installation's paths.

/// The number of slashes in the path of a `deploy` file: KIND/ID/ARCH/BRANCH/COMMIT/deploy.
const DEPTH_OF_DEPLOY: usize = 5;

/// Returns whether the path is below the store's objects.
pub fn is_in_store(path: &str) -> bool {
    path.starts_with("repo/objects/")
}

/// Returns whether the path is below `app` or `runtime`, where commit directories are.
pub fn is_deployed(path: &str) -> bool {
    path.starts_with("app/") || path.starts_with("runtime/")
}

/// Returns whether the path is that of the file `deploy` of a commit directory.
pub fn is_deploy_file(path: &str) -> bool {
    let depth = path.as_bytes().iter().filter(|byte| **byte == b'/').count();
    is_deployed(path) && path.ends_with("/deploy") && depth == DEPTH_OF_DEPLOY
}

/// Returns whether a file at this path is a lasting part of an installation. A file elsewhere is
/// temporary.
pub fn is_lasting(path: &str) -> bool {
    path == "config"
        || path == "repo/config"
        || path.starts_with("repo/refs/")
        || path.starts_with("overrides/")
        || path.starts_with("exports/")
        || path.starts_with("made/")
        || is_in_store(path)
        || is_deploy_file(path)
}
