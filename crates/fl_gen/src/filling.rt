//! Stores that offer the generator's commits.
ghost use Rattle.std.specs.Prelude.{◌≡◌, ◌≤◌, ◌<◌, ◌^◌, ◌∷◌, [], map, true, IfOk, OnOk, codes};
ghost use Rattle.std.specs.List.{AllByRecursion};
ghost use Rattle.fp_name.specs.Hex.{is_digest};
ghost use Rattle.ost_refs.specs.Files.{ref_bytes};
ghost use Rattle.ost_commit.specs.Objects.{IsNamed};
ghost use Rattle.ost_commit.specs.Built.{BuiltCommit};
ghost use Rattle.fl_gen.specs.Made.{app_ware, each_of, runtime_ware, wares};
ghost use Rattle.fl_gen.specs.Stores.{IsStoreOf, Reads, config_entry, file_spot, has_link_text, object_bits, object_entry, object_spot, ref_entry};
ghost use Rattle.fl_gen.specs.Keeping.{Adds, Brings, Stocks, disk_of_rows, leaf_bits, leaf_spot};

use crate::limits::RUNTIMES;
use crate::naming::{app_ref, path_at_root, runtime_ref};
use crate::store::{Leaf, Store};
use crate::trees::{app_rows, runtime_rows};
use fp_base::Blob;
use fp_host::{Path, is_link_text};
use fp_name::{Digest, RefName};
use fp_small::FILE_MODE;
use ost_commit::{Built, BuiltObject, TreeRow, commit_tree};
use ost_model::{Object, STORE_CONFIG};
use ost_refs::{RefPlace, path_of as ref_path};
use ost_store::path_of;
use std::alloc::{AllocError, Global};
use std::thread::Threads;

/// The subject of each commit.
const SUBJECT: &str = "gen";

/// Returns a file with these bytes.
fn file_of(bytes: Blob) -> Leaf
    ensures spot { leaf_spot result ≡ file_spot bytes }
    ensures bits { leaf_bits result ≡ true }
{
    Leaf::File {
        mode: FILE_MODE,
        bytes,
    }
}

/// Returns the bytes of a ref's file: 64 lower-case hexadecimal digits and a newline.
fn ref_bytes(alloc: Global, commit: &Digest) -> Result<Blob, AllocError>
    ensures bytes { IfOk result (λ bytes. bytes ≡ ref_bytes commit.now) }
    ensures digits { is_digest commit.now ≡ true }
{
    let _bytes = commit.as_bytes();
    let mut bytes = Vec::from_slice(alloc, &commit.digits())?;
    bytes.push(b'\n')?;
    Ok(Blob::from_vec(bytes))
}

/// Adds the file of a ref that is at this commit.
fn put_ref(
    alloc: Global,
    store: &mut Store,
    name: &RefName,
    commit: &Digest,
) -> Result<(), AllocError>
    ensures put { OnOk result (Adds (ref_entry name.now commit.now ∷ []) store.old.rows.items
        store.new.rows.items) }
    ensures digits { is_digest commit.now ≡ true }
{
    let bytes = ref_bytes(alloc, commit)?;
    let place = RefPlace::Head(name.copy()?);
    let path = ref_path(&Path::root(alloc), &place)?;
    store.put(path, file_of(bytes))
}

/// Returns the file or link of an object. Errs with `AllocError` if a link's text isn't valid as a
/// symlink's.
fn leaf_of(object: &Object) -> Result<Leaf, AllocError>
    ensures spot { IfOk result (λ leaf. leaf_spot leaf ≡ object_spot object.now) }
    ensures text { OnOk result (has_link_text object.now ≡ true) }
    ensures bits { IfOk result (λ leaf. object_bits object.now ≡ true → leaf_bits leaf ≡ true) }
{
    match object {
        Object::Meta(bytes) => Ok(file_of(bytes.copy()?)),
        Object::File { mode, bytes } => Ok(Leaf::File {
            mode: *mode,
            bytes: bytes.copy()?,
        }),
        Object::Link(text) => {
            if is_link_text(text.as_str()) {
                Ok(Leaf::Link(text.copy()?))
            } else {
                Err(AllocError)
            }
        }
    }
}

/// Adds an object at the path of its name.
fn put_object(alloc: Global, store: &mut Store, object: &BuiltObject) -> Result<(), AllocError>
    requires { IsNamed object.now }
    ensures put { OnOk result (Adds (object_entry object.now ∷ []) store.old.rows.items
        store.new.rows.items) }
    ensures reads { OnOk result (Reads object.now) }
{
    let path = path_of(alloc, &Path::root(alloc), &object.digest, object.kind)?;
    store.put(path, leaf_of(&object.object)?)
}

/// Adds objects at the paths of their names.
fn put_objects(alloc: Global, store: &mut Store, objects: &[BuiltObject]) -> Result<(), AllocError>
    requires { AllByRecursion IsNamed objects.now }
    ensures put { OnOk result (Adds (map object_entry objects.now) store.old.rows.items
        store.new.rows.items) }
    ensures reads { OnOk result (AllByRecursion Reads objects.now) }
{
    for object in objects {
        put_object(alloc, store, object)?;
    }
    Ok(())
}

/// Adds the commit of these rows and its ref. Errs with `AllocError` if the rows make no commit.
fn offer(
    rt: &(impl Threads + Sync),
    alloc: Global,
    store: &mut Store,
    name: &RefName,
    rows: &[TreeRow],
    version: u64,
) -> Result<(), AllocError>
    ensures { OnOk result (Brings version (record { name = name.now; rows = rows.now } ∷ [])
        store.old.rows.items store.new.rows.items) }
{
    let Ok(built) = commit_tree(rt, alloc, rows, name, SUBJECT, version) else {
        return Err(AllocError);
    };
    put_ref(alloc, store, name, &built.commit)?;
    put_objects(alloc, store, built.objects.as_slice())
}

/// Returns a store that offers nothing. It has the file `config`.
fn bare_store(alloc: Global, version: u64) -> Result<Store, AllocError>
    ensures { IfOk result (λ store. Stocks version [] store.rows.items) }
{
    let path = path_at_root(alloc, "config")?;
    let config = Blob::from_slice(alloc, STORE_CONFIG.as_bytes())?;
    let mut store = Store::new(alloc);
    store.put(path, file_of(config))?;
    Ok(store)
}

/// Adds the runtimes, each with its ref.
fn offer_runtimes(
    rt: &(impl Threads + Sync),
    alloc: Global,
    store: &mut Store,
    version: u64,
) -> Result<(), AllocError>
    requires { version < 2 ^ 8 }
    ensures { OnOk result (Brings version (each_of (runtime_ware version) RUNTIMES)
        store.old.rows.items
        store.new.rows.items) }
{
    for number in 0..RUNTIMES {
        let name = runtime_ref(alloc, number)?;
        let rows = runtime_rows(alloc, version as usize, number)?;
        offer(rt, alloc, store, &name, rows.as_slice(), version)?;
    }
    Ok(())
}

/// Adds this number of applications, each with its ref.
fn offer_apps(
    rt: &(impl Threads + Sync),
    alloc: Global,
    store: &mut Store,
    version: u64,
    apps: usize,
) -> Result<(), AllocError>
    requires version { version < 2 ^ 8 }
    requires few { apps ≤ 2 ^ 8 }
    ensures { OnOk result (Brings version (each_of (app_ware version) apps) store.old.rows.items
        store.new.rows.items) }
{
    for number in 0..apps {
        let name = app_ref(alloc, number)?;
        let rows = app_rows(alloc, version as usize, number)?;
        offer(rt, alloc, store, &name, rows.as_slice(), version)?;
    }
    Ok(())
}

/// Returns the generator's store in this version, with all runtimes and this number of
/// applications.
pub(crate) fn made_store(
    rt: &(impl Threads + Sync),
    alloc: Global,
    version: u64,
    apps: usize,
) -> Result<Store, AllocError>
    requires version { version < 2 ^ 8 }
    requires few { apps ≤ 2 ^ 8 }
    ensures { IfOk result (λ store. IsStoreOf version (wares version apps)
        (disk_of_rows store.rows.items)) }
{
    let mut store = bare_store(alloc, version)?;
    offer_runtimes(rt, alloc, &mut store, version)?;
    offer_apps(rt, alloc, &mut store, version, apps)?;
    Ok(store)
}
