//! Reading the deployed refs.
ghost use Rattle.std.specs.Prelude.{◌≡◌, true, IfOk, OnOk, IsErrOf};
ghost use Rattle.fp_host.specs.OverHost.{AtReturn, ChangesNothing, FailsAlone};
ghost use Rattle.fp_host.specs.Outcome.{shows};
ghost use Rattle.fp_name.specs.Hex.{hex};
ghost use Rattle.fp_name.specs.Refs.{is_ref};
ghost use Rattle.dep_states.specs.Branches.{AreBranches};
ghost use Rattle.dep_states.specs.Deploy.{deploy_of};
ghost use Rattle.dep_states.specs.Names.{active, branch_dir, text_dir, deploy};
ghost use Rattle.dep_states.specs.Shown.{there, by_active, deploy_at, row_in};
ghost use Rattle.dep_open.specs.Parts.{seen_in, seen_as, text_seen, IsRowOf, AreRefs, AreGoodRows, AddsRef, KeepsGoodRows};

use crate::part::{Part, Seen, add};
use dep_states::{DeployData, DeployError, branch_paths, ref_at};
use fp_base::{Items, Text};
use fp_host::{Host, HostEnd, Path, Stat};
use fp_name::{Digest, RefName};
use fp_small::{Loaded, MOST_TEXT_BYTES, RefRow, load, values_in_order};
use std::alloc::{AllocError, Global};
use std::collections::BTreeMap;

/// Reads the deployed refs of the present image, and changes nothing.
pub(crate) fn read_refs<H: Host>(
    alloc: Global,
    host: &mut H,
) -> Result<Part<Items<RefRow>>, HostEnd>
    ensures unchanged { ChangesNothing H.Host host.old host.new }
    ensures good { IfOk result (λ part. AreGoodRows part.found) }
    ensures tells { IfOk result (λ part. AtReturn H.Host host.old host.new
        (λ u w. AreRefs (shows u) part)) }
    ensures fault_has_cause { FailsAlone H.Host host.old host.new (IsErrOf result HostEnd.Fault) }
{
    let paths = branch_paths(alloc, host)?;
    refs_among(alloc, host, &paths)
}

/// Reads the refs whose branch directories are among these paths, and changes nothing.
fn refs_among<H: Host>(
    alloc: Global,
    host: &mut H,
    paths: &[Path],
) -> Result<Part<Items<RefRow>>, HostEnd>
    ensures unchanged { ChangesNothing H.Host host.old host.new }
    ensures good { IfOk result (λ part. AreGoodRows part.found) }
    ensures tells { IfOk result (λ part. AtReturn H.Host host.old host.new
        (λ u w. AreBranches u paths.now
        → AreRefs (shows u) part)) }
    ensures fault_has_cause { FailsAlone H.Host host.old host.new (IsErrOf result HostEnd.Fault) }
{
    let mut rows = BTreeMap::new(alloc);
    let mut damaged = None;
    for path in paths {
        add_ref(alloc, host, path, &mut rows, &mut damaged)?;
    }
    Ok(Part {
        found: Items::from_vec(values_in_order(alloc, rows)?),
        damaged,
    })
}

/// Adds the ref of this branch directory, or its `active` as damaged if the ref can't be read. Does
/// nothing if the path isn't that of a ref.
fn add_ref<H: Host>(
    alloc: Global,
    host: &mut H,
    path: &Path,
    rows: &mut BTreeMap<String, RefRow>,
    damaged: &mut Option<Path>,
) -> Result<(), HostEnd>
    ensures unchanged { ChangesNothing H.Host host.old host.new }
    ensures good { OnOk result (KeepsGoodRows rows.old.entries rows.new.entries) }
    ensures tells { OnOk result (AtReturn H.Host host.old host.new
        (λ u w. AddsRef (shows u) path.now rows.old.entries
        damaged.old rows.new.entries damaged.new)) }
    ensures fault_has_cause { FailsAlone H.Host host.old host.new (IsErrOf result HostEnd.Fault) }
{
    let Some(name) = ref_at(alloc, path)? else {
        return Ok(());
    };
    let active = path.child("active")?;
    let key = name.write()?;
    let seen = read_active(alloc, host, path, &active, name)?;
    Ok(add(alloc, key.as_str(), active, seen, rows, damaged)?)
}

/// Reads the row of a ref by its `active`, a symlink with a commit's digits. Changes nothing.
fn read_active<H: Host>(
    alloc: Global,
    host: &mut H,
    folder: &Path,
    link: &Path,
    name: RefName,
) -> Result<Seen<RefRow>, HostEnd>
    requires folder { folder.now ≡ branch_dir name }
    requires link { link.now ≡ active name }
    requires good { is_ref name ≡ true }
    ensures unchanged { ChangesNothing H.Host host.old host.new }
    ensures good { IfOk result (λ seen. IsRowOf name (seen_in seen)) }
    ensures tells { IfOk result (λ seen. AtReturn H.Host host.old host.new
        (λ u w. seen_in seen ≡ by_active (shows u) name
        (shows u (active name)))) }
    ensures fault_has_cause { FailsAlone H.Host host.old host.new (IsErrOf result HostEnd.Fault) }
{
    match read_text(alloc, host, link)? {
        Seen::Away => Ok(Seen::Away),
        Seen::Bad => Ok(Seen::Bad),
        Seen::There(text) => read_commit(alloc, host, folder, &text, name),
    }
}

/// Reads the text of a symlink. Returns `Away` if nothing is there, and `Bad` for a file or
/// directory.
fn read_text<H: Host>(alloc: Global, host: &mut H, path: &Path) -> Result<Seen<Text>, HostEnd>
    ensures unchanged { ChangesNothing H.Host host.old host.new }
    ensures tells { IfOk result (λ seen. AtReturn H.Host host.old host.new
        (λ u w. seen_in seen ≡ text_seen (shows u path.now))) }
    ensures fault_has_cause { FailsAlone H.Host host.old host.new (IsErrOf result HostEnd.Fault) }
{
    match host.stat(path)? {
        Stat::Absent => Ok(Seen::Away),
        Stat::Link => Ok(Seen::There(host.read_link(alloc, path)?)),
        _ => Ok(Seen::Bad),
    }
}

/// Reads the row of a ref from the `deploy` in the directory that its `active` names. Returns `Bad`
/// if the text isn't a digest.
fn read_commit<H: Host>(
    alloc: Global,
    host: &mut H,
    folder: &Path,
    text: &Text,
    name: RefName,
) -> Result<Seen<RefRow>, HostEnd>
    requires folder { folder.now ≡ branch_dir name }
    requires good { is_ref name ≡ true }
    ensures unchanged { ChangesNothing H.Host host.old host.new }
    ensures good { IfOk result (λ seen. IsRowOf name (seen_in seen)) }
    ensures tells { IfOk result (λ seen. AtReturn H.Host host.old host.new
        (λ u w. seen_in seen ≡ deploy_at name text.now
        (shows u (deploy (text_dir name text.now))))) }
    ensures fault_has_cause { FailsAlone H.Host host.old host.new (IsErrOf result HostEnd.Fault) }
{
    let Ok(commit) = Digest::parse(text.as_str().as_bytes()) else {
        return Ok(Seen::Bad);
    };
    let deploy = folder.child(text.as_str())?.child("deploy")?;
    let loaded = load(alloc, host, &deploy, MOST_TEXT_BYTES)?;
    Ok(read_deploy(alloc, loaded, name, commit)?)
}

/// Returns the row that a loaded `deploy` in the directory of this commit gives; `Bad` if it is
/// absent or can't be read.
fn read_deploy(
    alloc: Global,
    loaded: Loaded,
    name: RefName,
    commit: Digest,
) -> Result<Seen<RefRow>, AllocError>
    ensures { IfOk result (λ seen. seen_in seen
        ≡ row_in name (hex commit) (seen_as deploy_of loaded)) }
{
    match loaded {
        Loaded::Bytes(bytes) => match DeployData::read(alloc, bytes.as_slice()) {
            Ok(read) => Ok(row_of(name, commit, read)),
            Err(DeployError::Bad) => Ok(Seen::Bad),
            Err(DeployError::NoMemory) => Err(AllocError),
        },
        _ => Ok(Seen::Bad),
    }
}

/// Returns the row of a `deploy` in the directory of this commit; `Bad` if it has another commit.
fn row_of(name: RefName, commit: Digest, read: DeployData) -> Seen<RefRow>
    ensures { seen_in result ≡ row_in name (hex commit) (there read) }
{
    if read.commit.digits() == commit.digits() {
        Seen::There(RefRow {
            name,
            origin: read.origin,
            commit: read.commit,
            timestamp: read.timestamp,
            previous: read.previous,
        })
    } else {
        Seen::Bad
    }
}
