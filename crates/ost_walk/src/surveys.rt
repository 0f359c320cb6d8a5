//! Surveys of commits.
use crate::ends::WalkFault;
use fp_base::{Items, ObjKind};
use fp_name::Digest;

/// The objects of a commit's order up to the first metadata object that has a fault or the first
/// object that exceeds a limit, and that fault. Without a fault, these are all objects of the
/// order.
#[derive(Drop)]
pub struct Survey {
    /// The digests and kinds of the objects, in order.
    pub objects: Items<(Digest, ObjKind)>,
    /// The first fault, if there is one.
    pub fault: Option<WalkFault>,
}
