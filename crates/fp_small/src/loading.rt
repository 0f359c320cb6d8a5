//! Reading of a small file.
ghost use Rattle.std.specs.Prelude.{◌≡◌, ◌≤◌, ℕ, List, IfOk, IsErrOf};
ghost use Rattle.fp_host.specs.OverHost.{AtReturn, ChangesNothing, FailsAlone, FailsOnly};
ghost use Rattle.fp_small.specs.Load.{Loads, IsWhole};
ghost use Rattle.fp_host.specs.Calls.{IsFile};

use fp_base::Blob;
use fp_host::{Host, HostEnd, Path, Stat};
use std::alloc::Global;

/// The result of reading a small file.
#[derive(Debug, Drop)]
pub enum Loaded {
    /// The bytes of the whole file.
    Bytes(Blob),
    /// The path is absent.
    Absent,
    /// The file has this number of bytes, which is more than the maximum.
    TooLong(u64),
    /// The path is a directory or a symlink.
    NotFile,
}

/// Reads the whole file at the path, unless it has more than `max` bytes. Changes nothing.
pub fn load<H: Host>(alloc: Global, host: &mut H, path: &Path, max: u64) -> Result<Loaded, HostEnd>
    ensures unchanged { ChangesNothing H.Host host.old host.new }
    ensures tells { IfOk result (λ loaded. AtReturn H.Host host.old host.new
        (λ u w. Loads path.now max u loaded)) }
    ensures fault_has_cause { FailsAlone H.Host host.old host.new (IsErrOf result HostEnd.Fault) }
{
    match host.stat(path)? {
        Stat::Absent => Ok(Loaded::Absent),
        Stat::Dir | Stat::Link => Ok(Loaded::NotFile),
        Stat::File { size, .. } if size > max => Ok(Loaded::TooLong(size)),
        Stat::File { size, .. } => Ok(Loaded::Bytes(read_whole(alloc, host, path, size)?)),
    }
}

/// Reads a file of this size in bytes.
fn read_whole<H: Host>(alloc: Global, host: &mut H, path: &Path, size: u64) -> Result<Blob, HostEnd>
    ensures unchanged { ChangesNothing H.Host host.old host.new }
    ensures tells { IfOk result (λ bytes. AtReturn H.Host host.old host.new
        (λ u w. IsWhole path.now size u bytes)) }
    ensures fault_has_cause { FailsOnly H.Host host.old host.new
        (λ v. IsFile (v.names path.now)) (IsErrOf result HostEnd.Fault) }
{
    let mut bytes = vec![in alloc; 0u8; size as usize]?;
    let count = host.read_at(path, 0, &mut bytes)?;
    bytes.truncate(count);
    Ok(Blob::from_vec(bytes))
}
