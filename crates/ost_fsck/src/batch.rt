//! Checking paths in batches, so that several threads can hash their small objects.
ghost use Rattle.std.specs.Prelude.{◌≡◌, ◌≤◌, ◌++◌, ◌∷◌, [], length, IfOk, OnOk, IsErrOf};
ghost use Rattle.fp_host.specs.OverHost.{AtReturn, ChangesNothing, FailsAlone};
ghost use Rattle.ost_fsck.specs.Batches.{AreRows, ChecksMore, findings_by, objects_by};
ghost use Rattle.ost_store.specs.Names.{with_found};

use crate::report::Finding;
use crate::row::{Row, judge, read};
use fp_host::{Host, HostEnd, Path};
use fp_name::Digest;
use par_digest::{Gate, Item, MOST_IN_BATCH, digests_gated};
use std::alloc::{AllocError, Global};
use std::thread::Threads;

/// Checks each of these paths, which are at most 64, in the store at `root`, and appends the
/// findings. Returns how many are the path of an object. The digests of the small objects are
/// computed in one call, which is given the gate.
pub(crate) fn check_batch<T: Threads + Sync, H: Host, G: Gate + Sync>(
    rt: &T,
    alloc: Global,
    host: &mut H,
    root: &Path,
    paths: &[Path],
    gate: &G,
    findings: &mut Vec<Finding>,
) -> Result<u64, HostEnd>
    requires { length paths.now ≤ MOST_IN_BATCH }
    ensures unchanged { ChangesNothing H.Host host.old host.new }
    ensures few { IfOk result (λ objects. objects ≤ length paths.now) }
    ensures tells { IfOk result (λ objects. AtReturn H.Host host.old host.new
        (λ u w. ChecksMore root.now paths.now u
        findings.old.items findings.new.items objects)) }
    ensures fault_has_cause { FailsAlone H.Host host.old host.new (IsErrOf result HostEnd.Fault) }
{
    let mut items = Vec::new(alloc);
    let rows = read_all(alloc, host, root, paths, &mut items)?;
    let digests = digests_gated(rt, alloc, &items, gate)?;
    Ok(judge_all(rows, digests.as_slice(), findings)?)
}

/// Reads each of these paths in the store at `root`. Appends the items of small objects.
fn read_all<H: Host>(
    alloc: Global,
    host: &mut H,
    root: &Path,
    paths: &[Path],
    items: &mut Vec<Item>,
) -> Result<Vec<Row>, HostEnd>
    ensures unchanged { ChangesNothing H.Host host.old host.new }
    ensures long { IfOk result (λ rows. length rows.items ≡ length paths.now) }
    ensures tells { IfOk result
        (λ rows. AtReturn H.Host host.old host.new
        (λ u w. AreRows root.now paths.now u items.new.items rows.items)) }
    ensures fault_has_cause { FailsAlone H.Host host.old host.new (IsErrOf result HostEnd.Fault) }
{
    let mut rows = Vec::new(alloc);
    for path in paths {
        let row = read(alloc, host, root, path, items)?;
        add_row(row, &mut rows)?;
    }
    Ok(rows)
}

/// Appends the row of a path.
fn add_row(row: Row, rows: &mut Vec<Row>) -> Result<(), AllocError>
    ensures { OnOk result (rows.new.items ≡ rows.old.items ++ row ∷ []) }
{
    rows.push(row)?;
    Ok(())
}

/// Appends the findings of the rows, by the digests of the items. Returns the number of rows whose
/// path is that of an object.
fn judge_all(
    rows: Vec<Row>,
    digests: &[Digest],
    findings: &mut Vec<Finding>,
) -> Result<u64, AllocError>
    ensures count { IfOk result (λ objects. objects ≡ objects_by digests.now rows.items) }
    ensures found { OnOk result
        (findings.new.items ≡ findings.old.items ++ findings_by digests.now rows.items) }
{
    let mut objects = 0u64;
    for row in rows {
        let seen = judge(row, digests);
        objects += u64::from(seen.is_object);
        add_finding(seen.finding, findings)?;
    }
    Ok(objects)
}

/// Appends the finding, if there is one.
fn add_finding(finding: Option<Finding>, findings: &mut Vec<Finding>) -> Result<(), AllocError>
    ensures { OnOk result (findings.new.items ≡ with_found findings.old.items finding) }
{
    if let Some(finding) = finding {
        findings.push(finding)?;
    }
    Ok(())
}
