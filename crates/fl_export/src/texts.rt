//! The names of exports, and the texts of symlinks to them.
ghost use Rattle.std.specs.Prelude.{◌≡◌, ◌∷◌, [], true, IfOk};
ghost use Rattle.fp_host.specs.Paths.{is_element as is_name};
ghost use Rattle.fl_export.specs.Texts as spec;

use crate::rewriting::begins_with;
use fp_base::Text;
use fp_host::{Path, is_element};
use fp_name::RefName;
use std::alloc::{AllocError, Global};

/// The path from the directory of an exported icon up to the installation's root.
const UP: &str = "../../../../../../";

/// The path from the directory of a ref to the exports of its deployed commit.
const ACTIVE: &str = "/active/export/";

/// Returns whether a text begins with `.` or `-`.
fn begins_by_mark(text: &[u8]) -> bool
    ensures { result ≡ spec.begins_by_mark text.now }
{
    match text {
        [first, ..] => *first == b'.' || *first == b'-',
        [] => false,
    }
}

/// Returns whether an application may export a file with this name: it is a valid path element that
/// begins with the application's ID and `.` or `-`.
pub(crate) fn is_own(name: &RefName, file: &str) -> bool
    ensures { result ≡ spec.is_own name.now file.now }
{
    let id = name.id();
    is_element(file) && begins_with(file, id) && begins_by_mark(&file.as_bytes()[id.len()..])
}

/// Returns whether a file name ends in `.desktop`.
#[tactic(auto, using(std::proofs::lemmas::Str::Pattern::ends_text))]
pub(crate) fn is_desktop(file: &str) -> bool
    ensures { result ≡ spec.is_desktop file.now }
{
    file.ends_with(".desktop")
}

/// Returns the path of an exported desktop file below `exports`: `share/applications/FILE`.
pub(crate) fn desktop_path(alloc: Global, file: &str) -> Result<Path, AllocError>
    requires { is_name file.now ≡ true }
    ensures { IfOk result (λ path. path ≡ spec.desktop_path file.now) }
{
    let share = Path::root(alloc).child("share")?;
    share.child("applications")?.child(file)
}

/// Returns the path of an exported icon below `exports`: `share/icons/hicolor/SIZE/apps/FILE`.
pub(crate) fn icon_path(alloc: Global, size: &str, file: &str) -> Result<Path, AllocError>
    requires size { is_name size.now ≡ true }
    requires file { is_name file.now ≡ true }
    ensures { IfOk result (λ path. path ≡ spec.icon_path size.now file.now) }
{
    let icons = Path::root(alloc).child("share")?.child("icons")?;
    let folder = icons.child("hicolor")?.child(size)?.child("apps")?;
    folder.child(file)
}

/// Returns the text of the symlink at the path of an exported icon: it leads to the same path below
/// `active/export` in the directory of the ref.
pub(crate) fn icon_text(alloc: Global, name: &RefName, path: &Path) -> Result<Text, AllocError>
    ensures { IfOk result (λ text. text ≡ spec.link_text name.now path.now) }
{
    let app = name.as_str();
    let file = path.text();
    let text = format!(in alloc; "{UP}{app}{ACTIVE}{file}")?;
    Ok(Text::from_string(text))
}
