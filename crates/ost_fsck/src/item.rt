//! Small objects as items to be hashed.
ghost use Rattle.std.specs.Prelude.{◌≡◌, ◌≤◌, length, true, IfOk, IsErrOf};
ghost use Rattle.fp_host.specs.OverHost.{AtReturn, ChangesNothing, FailsAlone};
ghost use Rattle.fp_host.specs.Outcome.{points};
ghost use Rattle.ost_model.specs.Contents.{is_permission};
ghost use Rattle.ost_fsck.specs.Batches.{head_of, small_most, IsItemAt, IsItemIn, IsFileItemAt, IsFileItem};

use crate::metadata::keeps_rules;
use fp_base::{Blob, ObjKind, Text};
use fp_host::{Host, HostEnd, Path, Stat, is_link_text};
use fp_small::{Loaded, load};
use ost_content::{header, is_permission, link_header};
use par_digest::{Item, MOST_SMALL_BYTES};
use std::alloc::{AllocError, Global};

/// Returns the item of the small object at the path, if only its digest remains to be checked.
/// Returns `None` if it is no object of the kind whatever its digest, or has more than 256 KiB.
pub(crate) fn small_item<H: Host>(
    alloc: Global,
    host: &mut H,
    path: &Path,
    kind: ObjKind,
) -> Result<Option<Item>, HostEnd>
    ensures unchanged { ChangesNothing H.Host host.old host.new }
    ensures tells { IfOk result (λ item. AtReturn H.Host host.old host.new
        (λ u w. IsItemAt kind path.now u item)) }
    ensures fault_has_cause { FailsAlone H.Host host.old host.new (IsErrOf result HostEnd.Fault) }
{
    match host.stat(path)? {
        Stat::File { mode, .. } if is_permission(mode) => file_item(alloc, host, path, kind, mode),
        Stat::Link => Ok(link_item(alloc, kind, &host.read_link(alloc, path)?)?),
        Stat::Absent | Stat::Dir | Stat::File { .. } => Ok(None),
    }
}

/// Returns the item of the file at the path, which has these permission bits. Returns `None` if it
/// has more than 256 KiB, or is a metadata object that breaks a rule.
fn file_item<H: Host>(
    alloc: Global,
    host: &mut H,
    path: &Path,
    kind: ObjKind,
    mode: u32,
) -> Result<Option<Item>, HostEnd>
    requires { is_permission mode ≡ true }
    ensures unchanged { ChangesNothing H.Host host.old host.new }
    ensures tells { IfOk result (λ item. AtReturn H.Host host.old host.new
        (λ u w. IsFileItemAt kind mode path.now u item)) }
    ensures fault_has_cause { FailsAlone H.Host host.old host.new (IsErrOf result HostEnd.Fault) }
{
    match load(alloc, host, path, MOST_SMALL_BYTES)? {
        Loaded::Bytes(bytes) => item_of(alloc, kind, mode, bytes),
        Loaded::Absent | Loaded::NotFile | Loaded::TooLong(_) => Ok(None),
    }
}

/// Returns the item of a file with these permission bits and these bytes. Returns `None` if a
/// metadata object breaks a rule.
fn item_of(alloc: Global, kind: ObjKind, mode: u32, bytes: Blob) -> Result<Option<Item>, HostEnd>
    requires { is_permission mode ≡ true }
    ensures tells { length bytes ≤ small_most → IfOk result (IsFileItem kind mode bytes) }
    ensures no_fault { IsErrOf result HostEnd.Fault → ⊥ }
{
    if keeps_rules(alloc, kind, bytes.as_slice())? {
        let head = head_of(alloc, kind, mode)?;
        Ok(Some(Item { head, body: bytes }))
    } else {
        Ok(None)
    }
}

/// Returns what comes before a file's bytes when its digest is computed: the header for the kind
/// `File`, else nothing.
fn head_of(alloc: Global, kind: ObjKind, mode: u32) -> Result<Blob, AllocError>
    requires { is_permission mode ≡ true }
    ensures { IfOk result (λ head. head ≡ head_of kind mode) }
{
    match kind {
        ObjKind::File => Blob::from_slice(alloc, &header(mode)),
        ObjKind::Commit | ObjKind::DirTree | ObjKind::DirMeta => {
            Ok(Blob::from_vec(Vec::new(alloc)))
        }
    }
}

/// Returns the item of a symlink with this text. Returns `None` if it is no object of the kind.
fn link_item(alloc: Global, kind: ObjKind, text: &Text) -> Result<Option<Item>, AllocError>
    ensures { IfOk result (IsItemIn kind (points text.now)) }
{
    match kind {
        ObjKind::File if is_link_text(text.as_str()) => Ok(Some(Item {
            head: link_header(alloc, text.as_str())?,
            body: Blob::from_vec(Vec::new(alloc)),
        })),
        _ => Ok(None),
    }
}
