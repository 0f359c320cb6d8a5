//! Looking up objects and reading them. No function checks whether an object matches its digest.
ghost use Rattle.std.specs.Prelude.{◌≡◌, ◌≤◌, ℕ, List, length, Some, IfOk, IsErrOf};
ghost use Rattle.fp_host.specs.OverHost.{AtReturn, ChangesNothing, FailsAlone, FailsOnly};
ghost use Rattle.fp_host.specs.Moments.{Moments};
ghost use Rattle.fp_host.specs.Outcome.{shows};
ghost use Rattle.fp_base.specs.declared.object.ObjKind.TheVariants as kinds;
ghost use Rattle.ost_model.specs.declared.object.Object.TheVariants as objects;
ghost use Rattle.ost_model.specs.Objects.{Have, may_be_link, store};
ghost use Rattle.ost_model.specs.Remotes.{Stores};
ghost use Rattle.ost_store.specs.Reads.{IsThere, IsGotOf, Gets, GetsAt, ReadsPiece, HasFile, content_within};

use crate::naming::path_of;
use fp_base::{Blob, ObjKind, Text};
use fp_host::{Host, HostEnd, Path, Stat};
use fp_name::Digest;
use fp_small::{Loaded, load};
use std::alloc::Global;

/// The result of looking up an object in a store.
#[derive(Debug, Drop)]
pub enum Got {
    /// The bytes of a metadata object.
    Meta(Blob),
    /// A regular file: its permission bits and its size in bytes.
    File { mode: u32, size: u64 },
    /// The text of a symlink.
    Link(Text),
    /// No object: the store lacks the object of this digest and kind.
    Absent,
    /// The size in bytes of the object's file, which is more than the maximum.
    TooLong(u64),
}

/// Returns whether an object of the kind may be a symlink.
fn may_be_link(kind: ObjKind) -> bool
    ensures { result ≡ may_be_link kind }
{
    match kind {
        ObjKind::File => true,
        _ => false,
    }
}

/// Returns whether the store at `root` has the object: a file is at its path, or for the kind
/// `File` a symlink. Doesn't check whether the object matches its digest. Changes nothing.
pub fn has<H: Host>(
    alloc: Global,
    host: &mut H,
    root: &Path,
    digest: &Digest,
    kind: ObjKind,
) -> Result<bool, HostEnd>
    ensures unchanged { ChangesNothing H.Host host.old host.new }
    ensures tells { IfOk result (λ there. AtReturn H.Host host.old host.new
        (λ u w. IsThere root.now digest.now kind u there)) }
    ensures fault_has_cause { FailsAlone H.Host host.old host.new (IsErrOf result HostEnd.Fault) }
{
    let path = path_of(alloc, root, digest, kind)?;
    match host.stat(&path)? {
        Stat::Absent | Stat::Dir => Ok(false),
        Stat::File { .. } => Ok(true),
        Stat::Link => Ok(may_be_link(kind)),
    }
}

/// Looks up the object in the store at `root`. Returns a metadata object's bytes, a file's
/// permission bits and size, or a symlink's text; `TooLong` if the object's file has more than
/// `max` bytes; and `Absent` if and only if `has` returns false. Doesn't check whether the object
/// matches its digest. Changes nothing.
pub fn get<H: Host>(
    alloc: Global,
    host: &mut H,
    root: &Path,
    digest: &Digest,
    kind: ObjKind,
    max: u64,
) -> Result<Got, HostEnd>
    ensures unchanged { ChangesNothing H.Host host.old host.new }
    ensures tells { IfOk result (λ got. AtReturn H.Host host.old host.new
        (λ u w. Gets root.now digest.now kind max u got)) }
    ensures kinds { IfOk result (IsGotOf kind) }
    ensures fault_has_cause { FailsAlone H.Host host.old host.new (IsErrOf result HostEnd.Fault) }
{
    let path = path_of(alloc, root, digest, kind)?;
    match kind {
        ObjKind::File => get_content(alloc, host, &path, max),
        _ => get_meta(alloc, host, &path, max),
    }
}

/// Looks up the file or symlink at the path, as an object of the kind `File`.
fn get_content<H: Host>(alloc: Global, host: &mut H, path: &Path, max: u64) -> Result<Got, HostEnd>
    ensures unchanged { ChangesNothing H.Host host.old host.new }
    ensures tells { IfOk result (λ got. AtReturn H.Host host.old host.new
        (λ u w. GetsAt kinds.File path.now max u got)) }
    ensures kinds { IfOk result (IsGotOf kinds.File) }
    ensures fault_has_cause { FailsAlone H.Host host.old host.new (IsErrOf result HostEnd.Fault) }
{
    match host.stat(path)? {
        Stat::Absent | Stat::Dir => Ok(Got::Absent),
        Stat::File { size, .. } if size > max => Ok(Got::TooLong(size)),
        Stat::File { mode, size, .. } => Ok(Got::File { mode, size }),
        Stat::Link => Ok(Got::Link(host.read_link(alloc, path)?)),
    }
}

/// Reads the file at the path, as a metadata object.
fn get_meta<H: Host>(alloc: Global, host: &mut H, path: &Path, max: u64) -> Result<Got, HostEnd>
    ensures unchanged { ChangesNothing H.Host host.old host.new }
    ensures tells { IfOk result (λ got. AtReturn H.Host host.old host.new
        (λ u w. GetsAt kinds.Commit path.now max u got)) }
    ensures kinds { IfOk result (IsGotOf kinds.Commit) }
    ensures fault_has_cause { FailsAlone H.Host host.old host.new (IsErrOf result HostEnd.Fault) }
{
    match load(alloc, host, path, max)? {
        Loaded::Bytes(bytes) => Ok(Got::Meta(bytes)),
        Loaded::TooLong(size) => Ok(Got::TooLong(size)),
        Loaded::Absent | Loaded::NotFile => Ok(Got::Absent),
    }
}

/// Reads bytes of a `file` object that is a regular file, from the byte offset `at` on, as many as
/// fit into the buffer or are left. Returns their number. Changes nothing. Condition: the store at
/// `root` has the object as a regular file.
pub fn read_piece<H: Host>(
    alloc: Global,
    host: &mut H,
    root: &Path,
    digest: &Digest,
    at: u64,
    into: &mut [u8],
) -> Result<usize, HostEnd>
    ensures bound { IfOk result (λ n. n ≤ length into.old) }
    ensures unchanged { ChangesNothing H.Host host.old host.new }
    ensures tells { IfOk result (λ n. AtReturn H.Host host.old host.new
        (λ u w. ReadsPiece root.now digest.now at into.new u n)) }
    ensures fault_has_cause { FailsOnly H.Host host.old host.new
        (HasFile root.now digest.now) (IsErrOf result HostEnd.Fault) }
{
    let path = path_of(alloc, root, digest, ObjKind::File)?;
    Ok(host.read_at(&path, at, into)?)
}

/// Returns the content of a `file` object that is a regular file of this size in bytes. Allocates
/// that many bytes, so the size should have been checked against a limit. Changes nothing.
/// Condition: the store at `root` has the object as a regular file.
pub fn read_sized<H: Host>(
    alloc: Global,
    host: &mut H,
    root: &Path,
    digest: &Digest,
    size: u64,
) -> Result<Blob, HostEnd>
    ensures unchanged { ChangesNothing H.Host host.old host.new }
    ensures short { IfOk result (λ bytes. length bytes ≤ size) }
    ensures tells { (m : Moments) → H.moments host.old ≡ Some m
        → (mode : ℕ) (content : List ℕ)
        → store root.now (shows m.now) digest.now kinds.File ≡ Some (objects.File mode content)
        → length content ≡ size → IfOk result (λ bytes. bytes ≡ content) }
    ensures fault_has_cause { FailsOnly H.Host host.old host.new
        (HasFile root.now digest.now) (IsErrOf result HostEnd.Fault) }
{
    let mut bytes = vec![in alloc; 0u8; size as usize]?;
    let count = read_piece(alloc, host, root, digest, 0, &mut bytes)?;
    bytes.truncate(count);
    Ok(Blob::from_vec(bytes))
}

/// Returns the content of a `file` object of the store at `root`, or `None` if it isn't a regular
/// file of at most `most` bytes. Doesn't check whether the object matches its digest. Changes
/// nothing.
pub fn read_within<H: Host>(
    alloc: Global,
    host: &mut H,
    root: &Path,
    digest: &Digest,
    most: u64,
) -> Result<Option<Blob>, HostEnd>
    ensures unchanged { ChangesNothing H.Host host.old host.new }
    ensures tells { (have : Have) → Stores root.now (H.moments host.old) have
        → IfOk result (λ bytes. bytes ≡ content_within most (have digest.now kinds.File)) }
    ensures fault_has_cause { FailsAlone H.Host host.old host.new (IsErrOf result HostEnd.Fault) }
{
    let Got::File { size, .. } = get(alloc, host, root, digest, ObjKind::File, most)? else {
        return Ok(None);
    };
    let bytes = read_sized(alloc, host, root, digest, size)?;
    Ok(Some(bytes))
}
