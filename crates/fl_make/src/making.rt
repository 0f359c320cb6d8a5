//! Making a remote.
ghost use Rattle.std.specs.Prelude.{◌≡◌, ℕ, None, IfOk, IfErr, OnOk, IsErrOf};
ghost use Rattle.std.specs.List.{list_all};
ghost use Rattle.fp_host.specs.OverHost.{AtEachMoment, AtReturn, ChangesNothing, FailsOnly};
ghost use Rattle.ost_model.specs.Order.{first_fault};
ghost use Rattle.ost_commit.specs.Objects.{have_of};
ghost use Rattle.ost_export.specs.Staging.{AreWhole};
ghost use Rattle.ost_export.specs.Exports.{CanExport, ExportsSynced, WasExported};
ghost use Rattle.fl_make.specs.declared.end.MakeEnd.TheVariants.{BadRecord};
ghost use Rattle.fl_make.specs.Making.{remote_store, is_keepable as is_keepable_object, CanMake, IsMakeFault, Makes, WasMade};

use crate::end::MakeEnd;
use fl_lines::made_line;
use fp_base::Text;
use fp_host::{Host, HostEnd, Path, is_link_text};
use fp_name::{RefName, RemoteName};
use ost_commit::{Built, BuiltObject};
use ost_content::is_permission;
use ost_description::commit_description;
use ost_export::export;
use ost_model::Object;
use std::alloc::{AllocError, Global};
use std::thread::Threads;

/// Makes the commit of the tree that the bytes describe, offers it under the ref in the store
/// `made/REMOTE`, and returns the line of the commit. If the store exists, its other refs and its
/// objects stay. Doesn't look at the installation, and syncs before the first change. Errs with
/// `BadRecord` only for the first bad line, before anything is done. Condition: see `CanMake`.
pub fn make_remote<H: Host>(
    rt: &(impl Threads + Sync),
    alloc: Global,
    host: &mut H,
    remote: &RemoteName,
    name: &RefName,
    bytes: &[u8],
) -> Result<Text, MakeEnd>
    ensures any_moment { AtEachMoment H.Host host.old host.new
        (Makes remote.now name.now bytes.now) }
    ensures on_success { IfOk result (λ line. AtReturn H.Host host.old host.new
        (WasMade remote.now name.now bytes.now line)) }
    ensures refused { IfErr result (IsMakeFault bytes.now) }
    ensures refused_unchanged { (line : ℕ) → IsErrOf result (BadRecord line)
        → ChangesNothing H.Host host.old host.new }
    ensures fault_has_cause { FailsOnly H.Host host.old host.new
        (CanMake remote.now name.now) (IsErrOf result MakeEnd.Fault) }
{
    let built = commit_description(rt, alloc, bytes, name)?;
    let line = made_line(alloc, &built.commit)?;
    offer(alloc, host, remote, name, &built)?;
    Ok(line)
}

/// Offers the commit under the ref in the store of the remote. Errs with `NoMemory` if a store may
/// not have one of its objects. Condition: see `CanMake`.
fn offer<H: Host>(
    alloc: Global,
    host: &mut H,
    remote: &RemoteName,
    name: &RefName,
    built: &Built,
) -> Result<(), HostEnd>
    requires whole { AreWhole built.now.objects }
    requires clean { first_fault (have_of built.now.objects) built.now.commit ≡ None }
    ensures any_moment { AtEachMoment H.Host host.old host.new
        (ExportsSynced (have_of built.now.objects) (remote_store remote.now) name.now
        built.now.commit) }
    ensures on_success { OnOk result
        (AtReturn H.Host host.old host.new
        (WasExported (have_of built.now.objects) (remote_store remote.now) name.now
        built.now.commit)) }
    ensures fault_has_cause { FailsOnly H.Host host.old host.new
        (CanExport (remote_store remote.now) name.now) (IsErrOf result HostEnd.Fault) }
{
    if !are_keepable(built.objects.as_slice()) {
        return Err(HostEnd::NoMemory);
    }
    let root = made_path(alloc, remote)?;
    export(alloc, host, &root, built, name)
}

/// Returns the path of the store that is made for a remote: `made/REMOTE`.
fn made_path(alloc: Global, remote: &RemoteName) -> Result<Path, AllocError>
    ensures { IfOk result (λ path. path ≡ remote_store remote.now) }
{
    Path::root(alloc).child("made")?.child(remote.as_str())
}

/// Returns whether a store may have each of the objects. The objects of a described commit are
/// such, but the contract of building the commit doesn't promise it.
fn are_keepable(objects: &[BuiltObject]) -> bool
    ensures { result ≡ list_all (λ o. is_keepable_object o.object) objects.now }
{
    for object in objects {
        if !is_keepable(&object.object) {
            return false;
        }
    }
    true
}

/// Returns whether a store may have the object: a file's permission bits and a symlink's text are
/// valid.
fn is_keepable(object: &Object) -> bool
    ensures { result ≡ is_keepable_object object.now }
{
    match object {
        Object::Meta(_) => true,
        Object::File { mode, .. } => is_permission(*mode),
        Object::Link(text) => is_link_text(text.as_str()),
    }
}
