//! The exports of an application.
ghost use Rattle.std.specs.Prelude.{◌≡◌, ◌++◌, map, option_map, option_to_list, true, IfOk, OnOk, IsErrOf};
ghost use Rattle.fp_host.specs.OverHost.{ChangesNothing, FailsAlone};
ghost use Rattle.fp_host.specs.Paths.{is_element as is_name};
ghost use Rattle.fp_small.specs.Places.{repo};
ghost use Rattle.ost_model.specs.Objects.{Have};
ghost use Rattle.ost_model.specs.Remotes.{Stores};
ghost use Rattle.ost_object.specs.Views.{dir_row, file_row, tree_view};
ghost use Rattle.fl_export.specs.Exported as spec;
ghost use Rattle.fl_export.specs.Rewritten.{rewritten};
ghost use Rattle.fl_export.specs.Trees.{dirs_in, files_in};

use crate::contents::{is_file, read_short};
use crate::rewriting::rewrite;
use crate::rows::{ExportRow, ExportWhat};
use crate::texts::{desktop_path, icon_path, icon_text, is_desktop, is_own};
use crate::trees::{applications_of, apps_in, hicolor_of};
use fp_base::Blob;
use fp_host::{Host, HostEnd, is_element};
use fp_name::{Digest, RefKind, RefName};
use fp_small::RefRow;
use ost_object::{DirEntry, DirTree, FileEntry};
use std::alloc::{AllocError, Global};

/// Returns the row of a desktop file with these bytes, or `None` if they aren't a key file.
fn desktop_row(
    alloc: Global,
    name: &RefName,
    file: &str,
    bytes: &Blob,
) -> Result<Option<ExportRow>, AllocError>
    requires { is_name file.now ≡ true }
    ensures { IfOk result (λ row. row ≡ option_map (spec.desktop_row name.now file.now)
        (rewritten bytes.now name.now)) }
{
    match rewrite(alloc, bytes.as_slice(), name)? {
        Some(text) => Ok(Some(ExportRow {
            path: desktop_path(alloc, file)?,
            name: name.copy()?,
            what: ExportWhat::Text(text),
        })),
        None => Ok(None),
    }
}

/// Returns the row of a file in `export/share/applications`, or `None` if the file isn't exported.
/// Changes nothing.
fn desktop_of<H: Host>(
    alloc: Global,
    host: &mut H,
    name: &RefName,
    file: &FileEntry,
) -> Result<Option<ExportRow>, HostEnd>
    ensures unchanged { ChangesNothing H.Host host.old host.new }
    ensures tells { (have : Have) → Stores repo (H.moments host.old) have
        → IfOk result (λ row. row ≡ spec.desktop_of have name.now (file_row file.now)) }
    ensures fault_has_cause { FailsAlone H.Host host.old host.new (IsErrOf result HostEnd.Fault) }
{
    let own = file.name.as_str();
    if !(is_own(name, own) && is_desktop(own)) {
        return Ok(None);
    }
    match read_short(alloc, host, &file.digest)? {
        Some(bytes) => Ok(desktop_row(alloc, name, own, &bytes)?),
        None => Ok(None),
    }
}

/// Appends the row, if there is one.
fn add_row(found: Option<ExportRow>, rows: &mut Vec<ExportRow>) -> Result<(), AllocError>
    ensures { OnOk result (rows.new.items ≡ rows.old.items ++ option_to_list found) }
{
    if let Some(row) = found {
        rows.push(row)?;
    }
    Ok(())
}

/// Appends the rows of the exported desktop files among these files. Changes nothing on the host.
fn add_desktop_files<H: Host>(
    alloc: Global,
    host: &mut H,
    name: &RefName,
    files: &[FileEntry],
    rows: &mut Vec<ExportRow>,
) -> Result<(), HostEnd>
    ensures unchanged { ChangesNothing H.Host host.old host.new }
    ensures tells { (have : Have) → Stores repo (H.moments host.old) have
        → OnOk result (rows.new.items ≡ rows.old.items
        ++ spec.desktop_files have name.now (map file_row files.now)) }
    ensures fault_has_cause { FailsAlone H.Host host.old host.new (IsErrOf result HostEnd.Fault) }
{
    for file in files {
        let found = desktop_of(alloc, host, name, file)?;
        add_row(found, rows)?;
    }
    Ok(())
}

/// Returns the row of an icon.
fn icon_row(alloc: Global, name: &RefName, size: &str, file: &str) -> Result<ExportRow, AllocError>
    requires size { is_name size.now ≡ true }
    requires file { is_name file.now ≡ true }
    ensures { IfOk result (λ row. row ≡ spec.icon_row name.now size.now file.now) }
{
    let path = icon_path(alloc, size, file)?;
    let text = icon_text(alloc, name, &path)?;
    Ok(ExportRow {
        path,
        name: name.copy()?,
        what: ExportWhat::Link(text),
    })
}

/// Returns the row of a file in the icons of a size, or `None` if the file isn't exported. Changes
/// nothing.
fn icon_of<H: Host>(
    alloc: Global,
    host: &mut H,
    name: &RefName,
    size: &str,
    file: &FileEntry,
) -> Result<Option<ExportRow>, HostEnd>
    requires { is_name size.now ≡ true }
    ensures unchanged { ChangesNothing H.Host host.old host.new }
    ensures tells { (have : Have) → Stores repo (H.moments host.old) have
        → IfOk result (λ row. row ≡ spec.icon_of have name.now size.now (file_row file.now)) }
    ensures fault_has_cause { FailsAlone H.Host host.old host.new (IsErrOf result HostEnd.Fault) }
{
    let own = file.name.as_str();
    if !is_own(name, own) {
        return Ok(None);
    }
    if is_file(alloc, host, &file.digest)? {
        Ok(Some(icon_row(alloc, name, size, own)?))
    } else {
        Ok(None)
    }
}

/// Appends the rows of the exported icons among these files of a size. Changes nothing on the host.
fn add_icon_files<H: Host>(
    alloc: Global,
    host: &mut H,
    name: &RefName,
    size: &str,
    files: &[FileEntry],
    rows: &mut Vec<ExportRow>,
) -> Result<(), HostEnd>
    requires { is_name size.now ≡ true }
    ensures unchanged { ChangesNothing H.Host host.old host.new }
    ensures tells { (have : Have) → Stores repo (H.moments host.old) have
        → OnOk result (rows.new.items ≡ rows.old.items
        ++ spec.icon_files have name.now size.now (map file_row files.now)) }
    ensures fault_has_cause { FailsAlone H.Host host.old host.new (IsErrOf result HostEnd.Fault) }
{
    for file in files {
        let found = icon_of(alloc, host, name, size, file)?;
        add_row(found, rows)?;
    }
    Ok(())
}

/// Appends the rows of the exported icons of a size. Changes nothing on the host.
fn add_size<H: Host>(
    alloc: Global,
    host: &mut H,
    name: &RefName,
    size: &DirEntry,
    rows: &mut Vec<ExportRow>,
) -> Result<(), HostEnd>
    ensures unchanged { ChangesNothing H.Host host.old host.new }
    ensures tells { (have : Have) → Stores repo (H.moments host.old) have
        → OnOk result (rows.new.items ≡ rows.old.items
        ++ spec.icons_of have name.now (dir_row size.now)) }
    ensures fault_has_cause { FailsAlone H.Host host.old host.new (IsErrOf result HostEnd.Fault) }
{
    let pixels = size.name.as_str();
    if !is_element(pixels) {
        return Ok(());
    }
    match apps_in(alloc, host, size)? {
        Some(apps) => add_icon_files(alloc, host, name, pixels, apps.files.as_slice(), rows),
        None => Ok(()),
    }
}

/// Appends the rows of the exported icons of these sizes. Changes nothing on the host.
fn add_sizes<H: Host>(
    alloc: Global,
    host: &mut H,
    name: &RefName,
    sizes: &[DirEntry],
    rows: &mut Vec<ExportRow>,
) -> Result<(), HostEnd>
    ensures unchanged { ChangesNothing H.Host host.old host.new }
    ensures tells { (have : Have) → Stores repo (H.moments host.old) have
        → OnOk result (rows.new.items ≡ rows.old.items
        ++ spec.icons have name.now (map dir_row sizes.now)) }
    ensures fault_has_cause { FailsAlone H.Host host.old host.new (IsErrOf result HostEnd.Fault) }
{
    for size in sizes {
        add_size(alloc, host, name, size, rows)?;
    }
    Ok(())
}

/// Appends the rows of the desktop files that a commit exports. Changes nothing on the host.
fn add_applications<H: Host>(
    alloc: Global,
    host: &mut H,
    name: &RefName,
    commit: &Digest,
    rows: &mut Vec<ExportRow>,
) -> Result<(), HostEnd>
    ensures unchanged { ChangesNothing H.Host host.old host.new }
    ensures tells { (have : Have) → Stores repo (H.moments host.old) have
        → OnOk result (rows.new.items ≡ rows.old.items
        ++ spec.desktops_by have name.now commit.now) }
    ensures fault_has_cause { FailsAlone H.Host host.old host.new (IsErrOf result HostEnd.Fault) }
{
    match applications_of(alloc, host, commit)? {
        Some(tree) => add_desktop_files(alloc, host, name, tree.files.as_slice(), rows),
        None => Ok(()),
    }
}

/// Appends the rows of the icons that a commit exports. Changes nothing on the host.
fn add_icons<H: Host>(
    alloc: Global,
    host: &mut H,
    name: &RefName,
    commit: &Digest,
    rows: &mut Vec<ExportRow>,
) -> Result<(), HostEnd>
    ensures unchanged { ChangesNothing H.Host host.old host.new }
    ensures tells { (have : Have) → Stores repo (H.moments host.old) have
        → OnOk result (rows.new.items ≡ rows.old.items
        ++ spec.icons_by have name.now commit.now) }
    ensures fault_has_cause { FailsAlone H.Host host.old host.new (IsErrOf result HostEnd.Fault) }
{
    match hicolor_of(alloc, host, commit)? {
        Some(tree) => add_sizes(alloc, host, name, tree.dirs.as_slice(), rows),
        None => Ok(()),
    }
}

/// Appends the rows that an application's commit exports: the desktop files, then the icons.
/// Changes nothing on the host.
fn add_app<H: Host>(
    alloc: Global,
    host: &mut H,
    name: &RefName,
    commit: &Digest,
    rows: &mut Vec<ExportRow>,
) -> Result<(), HostEnd>
    ensures unchanged { ChangesNothing H.Host host.old host.new }
    ensures tells { (have : Have) → Stores repo (H.moments host.old) have
        → OnOk result (rows.new.items ≡ rows.old.items
        ++ spec.exported_by have name.now commit.now) }
    ensures fault_has_cause { FailsAlone H.Host host.old host.new (IsErrOf result HostEnd.Fault) }
{
    add_applications(alloc, host, name, commit, rows)?;
    add_icons(alloc, host, name, commit, rows)
}

/// Appends the rows that a deployed ref's commit exports. A runtime exports nothing. Changes
/// nothing on the host.
pub(crate) fn add_exports<H: Host>(
    alloc: Global,
    host: &mut H,
    row: &RefRow,
    rows: &mut Vec<ExportRow>,
) -> Result<(), HostEnd>
    ensures unchanged { ChangesNothing H.Host host.old host.new }
    ensures tells { (have : Have) → Stores repo (H.moments host.old) have
        → OnOk result (rows.new.items ≡ rows.old.items
        ++ spec.exported_at have row.now) }
    ensures fault_has_cause { FailsAlone H.Host host.old host.new (IsErrOf result HostEnd.Fault) }
{
    match row.name.kind() {
        RefKind::App => add_app(alloc, host, &row.name, &row.commit, rows),
        RefKind::Runtime => Ok(()),
    }
}
