//! The conditions of the calls that change something.
ghost use Rattle.std.specs.Prelude.{◌≡◌, ◌≢◌, ◌↔◌, ◌≤◌, ◌==◌, [], true, not, IsTrue};
ghost use Rattle.std.specs.Option.{option_copied};
ghost use Rattle.fp_host.specs.Paths.{dir};
ghost use Rattle.fp_host.specs.View.{IsTree};
ghost use Rattle.fp_host.specs.Calls.{HasFolder, IsFile, Can, CanCreate, makes_dir, appends, links, makes_link, renames, unlinks, removes_dir};
ghost use Rattle.fp_memhost.specs.Names.{slot_of};
ghost use Rattle.fp_memhost.specs.Scenes.{seen};

use crate::files::is_new;
use crate::folders::{folder_above, has_child};
use crate::names::entry;
use crate::scene::Scene;
use fp_host::{Entry, PERMISSION_BITS, Path, is_link_text};

/// Returns whether the entry is a directory.
pub fn is_dir(entry: Option<&Entry>) -> bool
    ensures { IsTrue result ↔ (slot_of (option_copied entry.entry) ≡ dir) }
{
    matches!(entry, Some(Entry::Dir))
}

/// Returns whether the path's parent is a directory; false for the root.
pub fn has_folder(scene: &Scene, path: &Path) -> bool
    ensures { IsTrue result ↔ HasFolder (seen scene.now) path.now }
{
    match folder_above(path.text()) {
        Some(up) => is_dir(entry(&scene.names, up)),
        None => false,
    }
}

/// Returns whether a directory can be made at the path: the path is absent, and its parent is a
/// directory.
pub fn can_make_dir(scene: &Scene, path: &Path) -> bool
    ensures { IsTrue result ↔ Can (makes_dir path.now) (seen scene.now) }
{
    has_folder(scene, path) && entry(&scene.names, path.text()).is_none()
}

/// Returns whether a file can be created at the path: the path is absent, its parent is a
/// directory, and the permission bits are at most 0o7777.
pub fn can_create(scene: &Scene, path: &Path, mode: u32) -> bool
    ensures { IsTrue result ↔ CanCreate path.now mode (seen scene.now) }
{
    can_make_dir(scene, path) && mode <= PERMISSION_BITS
}

/// Returns whether bytes can be appended at the path: it is a file created since the last sync.
pub fn can_append(scene: &Scene, path: &Path) -> bool
    ensures { IsTrue result ↔ Can (appends path.now []) (seen scene.now) }
{
    match entry(&scene.names, path.text()) {
        Some(Entry::File(id)) => is_new(&scene.files, *id),
        _ => false,
    }
}

/// Returns whether a hard link can be made: the first path is a file, the second is absent, and the
/// second's parent is a directory.
pub fn can_link(scene: &Scene, from: &Path, to: &Path) -> bool
    ensures { IsTrue result ↔ Can (links from.now to.now) (seen scene.now) }
{
    matches!(entry(&scene.names, from.text()), Some(Entry::File(_))) && can_make_dir(scene, to)
}

/// Returns whether a symlink with this text can be made at the path: the text is valid, the path is
/// absent, and its parent is a directory.
pub fn can_symlink(scene: &Scene, text: &str, path: &Path) -> bool
    ensures { IsTrue result ↔ Can (makes_link text.now path.now) (seen scene.now) }
{
    is_link_text(text) && can_make_dir(scene, path)
}

/// Returns whether the path can be unlinked: it is a file or a symlink.
pub fn can_unlink(scene: &Scene, path: &Path) -> bool
    ensures { IsTrue result ↔ Can (unlinks path.now) (seen scene.now) }
{
    matches!(
        entry(&scene.names, path.text()),
        Some(Entry::File(_) | Entry::Link(_))
    )
}

/// Returns whether the entries aren't both the same file.
fn are_apart(from: Option<&Entry>, to: Option<&Entry>) -> bool
    ensures { IsTrue result
        ↔ (IsFile (slot_of (option_copied from.entry))
        → slot_of (option_copied from.entry) ≢ slot_of (option_copied to.entry)) }
{
    match (from, to) {
        (Some(Entry::File(one)), Some(Entry::File(other))) => one != other,
        _ => true,
    }
}

/// Returns whether the first path can be renamed to the second: the first is a file or a symlink,
/// the second is no directory, the second's parent is a directory, and the paths differ and aren't
/// hard links of one file.
pub fn can_rename(scene: &Scene, from: &Path, to: &Path) -> bool
    ensures { IsTrue result ↔ Can (renames from.now to.now) (seen scene.now) }
{
    if !can_unlink(scene, from) {
        return false;
    }
    if !has_folder(scene, to) {
        return false;
    }
    if from.is(to) {
        return false;
    }
    let target = entry(&scene.names, to.text());
    if is_dir(target) {
        return false;
    }
    are_apart(entry(&scene.names, from.text()), target)
}

/// Returns whether the path can be removed as a directory: it is a directory, isn't the root, and
/// has no children. In a tree, a directory without children has nothing below it.
pub fn can_remove_dir(scene: &Scene, path: &Path) -> bool
    requires { IsTree (seen scene.now) }
    ensures { IsTrue result ↔ Can (removes_dir path.now) (seen scene.now) }
{
    if path.is_root() {
        return false;
    }
    if !is_dir(entry(&scene.names, path.text())) {
        return false;
    }
    !has_child(&scene.names, path.text())
}
