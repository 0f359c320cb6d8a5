//! Checking one object by itself.
ghost use Rattle.std.specs.Prelude.{◌≡◌, false, Some, IfOk, IsErrOf};
ghost use Rattle.fp_host.specs.OverHost.{AtReturn, ChangesNothing, FailsAlone};
ghost use Rattle.fp_base.specs.declared.object.ObjKind.TheVariants as kinds;
ghost use Rattle.ost_fsck.specs.Judging.{has_bits, bad_unless, AreBitsAt, IsTrueAt, IsNamedAt, LooksAt};
ghost use Rattle.ost_fsck.specs.declared.report.Finding.TheVariants as findings;

use crate::metadata::has_metadata;
use crate::report::Finding;
use fp_base::ObjKind;
use fp_host::{Host, HostEnd, Path, Stat};
use fp_name::Digest;
use ost_content::is_permission;
use ost_head::check_stored;
use ost_store::path_of;
use ost_walk::WalkEnd;
use std::alloc::{AllocError, Global};

/// The result of checking a path.
#[derive(Drop)]
pub(crate) struct Seen {
    /// Whether the path is that of an object.
    pub(crate) is_object: bool,
    /// The fault at the path, if there is one.
    pub(crate) finding: Option<Finding>,
}

/// Returns whether a file's permission bits are within 0775; true for anything else.
fn has_bits(stat: Stat) -> bool
    ensures { result ≡ has_bits stat }
{
    match stat {
        Stat::File { mode, .. } => is_permission(mode),
        Stat::Absent | Stat::Dir | Stat::Link => true,
    }
}

/// Returns whether the permission bits of the path are within 0775; true if it is no file.
fn are_bits_good<H: Host>(host: &mut H, path: &Path) -> Result<bool, HostEnd>
    ensures unchanged { ChangesNothing H.Host host.old host.new }
    ensures tells { IfOk result (λ are. AtReturn H.Host host.old host.new
        (λ u w. AreBitsAt path.now u are)) }
    ensures fault_has_cause { FailsAlone H.Host host.old host.new (IsErrOf result HostEnd.Fault) }
{
    let stat = host.stat(path)?;
    Ok(has_bits(stat))
}

/// Returns whether the store at `root` has the file or symlink of this digest. Reads a file piece
/// by piece.
fn has_content<H: Host>(
    alloc: Global,
    host: &mut H,
    root: &Path,
    digest: &Digest,
) -> Result<bool, HostEnd>
    ensures unchanged { ChangesNothing H.Host host.old host.new }
    ensures tells { IfOk result (λ is. AtReturn H.Host host.old host.new
        (λ u w. IsTrueAt root.now digest.now kinds.File u is)) }
    ensures fault_has_cause { FailsAlone H.Host host.old host.new (IsErrOf result HostEnd.Fault) }
{
    match check_stored(alloc, host, root, digest) {
        Ok(is) => Ok(is),
        Err(WalkEnd::Refused(_)) => Ok(false),
        Err(WalkEnd::HostFault | WalkEnd::RemoteFault) => Err(HostEnd::Fault),
        Err(WalkEnd::NoMemory) => Err(HostEnd::NoMemory),
    }
}

/// Returns whether the store at `root` has the object of this digest and kind.
fn has_object<H: Host>(
    alloc: Global,
    host: &mut H,
    root: &Path,
    digest: &Digest,
    kind: ObjKind,
) -> Result<bool, HostEnd>
    ensures unchanged { ChangesNothing H.Host host.old host.new }
    ensures tells { IfOk result (λ is. AtReturn H.Host host.old host.new
        (λ u w. IsTrueAt root.now digest.now kind u is)) }
    ensures fault_has_cause { FailsAlone H.Host host.old host.new (IsErrOf result HostEnd.Fault) }
{
    match kind {
        ObjKind::File => has_content(alloc, host, root, digest),
        ObjKind::Commit | ObjKind::DirTree | ObjKind::DirMeta => {
            has_metadata(alloc, host, root, digest, kind)
        }
    }
}

/// Returns whether the store at `root` has the object of this digest and kind, with good permission
/// bits.
fn is_named<H: Host>(
    alloc: Global,
    host: &mut H,
    root: &Path,
    digest: &Digest,
    kind: ObjKind,
) -> Result<bool, HostEnd>
    ensures unchanged { ChangesNothing H.Host host.old host.new }
    ensures tells { IfOk result (λ is. AtReturn H.Host host.old host.new
        (λ u w. IsNamedAt root.now digest.now kind u is)) }
    ensures fault_has_cause { FailsAlone H.Host host.old host.new (IsErrOf result HostEnd.Fault) }
{
    let path = path_of(alloc, root, digest, kind)?;
    if are_bits_good(host, &path)? {
        has_object(alloc, host, root, digest, kind)
    } else {
        Ok(false)
    }
}

/// Returns a finding that the object is bad, unless `is` holds.
pub(crate) fn bad_unless(is: bool, digest: Digest, kind: ObjKind) -> Option<Finding>
    ensures { result ≡ bad_unless is digest kind }
{
    if is {
        None
    } else {
        Some(Finding::Bad { digest, kind })
    }
}

/// Returns the result for a path that is that of no object.
pub(crate) fn stray(path: &Path) -> Result<Seen, AllocError>
    ensures object { IfOk result (λ seen. seen.is_object ≡ false) }
    ensures found { IfOk result (λ seen. seen.finding ≡ Some (findings.Stray path.now)) }
{
    Ok(Seen {
        is_object: false,
        finding: Some(Finding::Stray(path.copy()?)),
    })
}

/// Checks the path of an object in the store at `root`.
pub(crate) fn look_at<H: Host>(
    alloc: Global,
    host: &mut H,
    root: &Path,
    digest: &Digest,
    kind: ObjKind,
) -> Result<Seen, HostEnd>
    ensures unchanged { ChangesNothing H.Host host.old host.new }
    ensures tells { IfOk result (λ seen. AtReturn H.Host host.old host.new
        (λ u w. LooksAt root.now digest.now kind u
        seen.is_object seen.finding)) }
    ensures fault_has_cause { FailsAlone H.Host host.old host.new (IsErrOf result HostEnd.Fault) }
{
    let is = is_named(alloc, host, root, digest, kind)?;
    let finding = bad_unless(is, *digest, kind);
    Ok(Seen {
        is_object: true,
        finding,
    })
}
