//! The children of directories.
ghost use Rattle.std.specs.Prelude.{◌≡◌, ◌↔◌, ◌<◌, [], length, drop, IsTrue, IsNone, IfOk, IfSome, is_some};
ghost use Rattle.std.specs.List.{list_all, list_any};
ghost use Rattle.fp_host.specs.Paths.{elements_of, is_element};
ghost use Rattle.fp_memhost.specs.Folders.{child_in, is_above, is_child, children_of, last_of};

use crate::names::Name;
use fp_base::Text;
use fp_host::Path;
use std::alloc::{AllocError, Global};

/// Returns the text of the path's parent, or `None` for the root.
pub fn folder_above(text: &str) -> Option<&str>
    requires { IsTrue (list_all is_element (elements_of text.now)) }
    ensures none { IsNone result ↔ (elements_of text.now ≡ []) }
    ensures folder { IfSome result (λ up. elements_of up.now ≡ drop 1 (elements_of text.now)) }
    ensures good { IfSome result (λ up. IsTrue (list_all is_element (elements_of up.now))) }
    ensures shorter { IfSome result (λ up. length up.now < length text.now) }
{
    if text.is_empty() {
        return None;
    }
    match text.rfind('/') {
        Some(at) => Some(&text[..at]),
        None => Some(""),
    }
}

/// Returns whether the path is directly in the directory with this text.
pub fn is_in(path: &Path, folder: &str) -> bool
    ensures { result ≡ child_in (elements_of folder.now) path.now }
{
    match folder_above(path.text()) {
        Some(up) => up == folder,
        None => false,
    }
}

/// Returns whether the path is below the directory with this text, at any level.
pub fn is_below(path: &Path, folder: &str) -> bool
    ensures { result ≡ is_above (elements_of folder.now) path.now }
{
    let mut text = path.text();
    while let Some(up) = folder_above(text) {
        if up == folder {
            return true;
        }
        text = up;
    }
    false
}

/// Returns whether something exists directly in the directory with this text.
pub fn has_child(names: &[Name], folder: &str) -> bool
    ensures { result ≡ list_any (is_child (elements_of folder.now)) names.now }
{
    names
        .iter()
        .any(|name| name.entry.is_some() && is_in(&name.path, folder))
}

/// Returns the last element of the name, or `None` if the name is absent or isn't directly in the
/// directory with this text.
fn child_name<'a>(name: &'a Name, folder: &str) -> Option<&'a str>
    ensures some { is_some result ≡ is_child (elements_of folder.now) name.now }
    ensures last { IfSome result (λ x. x.now ≡ last_of name.now.path) }
    ensures good { IfSome result (λ x. IsTrue (is_element x.now)) }
{
    if name.entry.is_none() || !is_in(&name.path, folder) {
        return None;
    }
    name.path.name()
}

/// Returns the last elements of the names that exist directly in the directory, in the order of the
/// list.
pub fn children(alloc: Global, names: &[Name], folder: &Path) -> Result<Vec<Text>, AllocError>
    ensures names { IfOk result (λ v. v.items ≡ children_of names.now folder.now) }
    ensures good { IfOk result (λ v. IsTrue (list_all is_element v.items)) }
{
    let mut found = Vec::new(alloc);
    for name in names {
        if let Some(last) = child_name(name, folder.text()) {
            found.push(Text::from_string(last.to_string(alloc)?))?;
        }
    }
    Ok(found)
}
