//! The places that objects are read from.
use fp_base::Text;
use fp_host::Path;

/// The places that objects are read from: the store at `root`, and the remote at `url` for the
/// objects that the store doesn't have.
#[derive(Drop)]
pub struct Places {
    /// The directory of the store.
    pub root: Path,
    /// The URL of the remote, if there is one.
    pub url: Option<Text>,
}
