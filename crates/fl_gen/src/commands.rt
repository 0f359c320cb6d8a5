//! The commands that are run over the generated remotes.
ghost use Rattle.std.specs.Prelude.{◌≡◌, ◌++◌, ◌/◌, ◌<◌, ◌^◌, IfOk, OnOk};
ghost use Rattle.fl_gen.specs.Made.{each_of};
ghost use Rattle.fl_gen.specs.Exercise.{exercise_changes, gen_at, install_of, uninstall_of};

use crate::naming::{app_ref, remote_name, url_of};
use crate::remotes::{FIRST_URL, SECOND_URL};
use fl_words::Change;
use fp_base::Items;
use fp_small::RemoteRow;
use std::alloc::{AllocError, Global};

/// Returns the remote `gen` with this URL.
fn remote_at(alloc: Global, url: &str) -> Result<RemoteRow, AllocError>
    ensures { IfOk result (λ row. row ≡ gen_at url.now) }
{
    let name = remote_name(alloc)?;
    let url = url_of(alloc, url)?;
    Ok(RemoteRow { name, url })
}

/// Returns the install of the application with this number.
fn install(alloc: Global, number: usize) -> Result<Change, AllocError>
    ensures { IfOk result (λ change. change ≡ install_of number) }
{
    let remote = remote_name(alloc)?;
    let name = app_ref(alloc, number)?;
    Ok(Change::Install { remote, name })
}

/// Appends the installs of this many applications.
fn push_installs(alloc: Global, changes: &mut Items<Change>, apps: usize) -> Result<(), AllocError>
    ensures { OnOk result (changes.new ≡ changes.old ++ each_of install_of apps) }
{
    for number in 0..apps {
        changes.push(install(alloc, number)?)?;
    }
    Ok(())
}

/// Appends the uninstalls of the applications with odd numbers, among this many.
fn push_uninstalls(
    alloc: Global,
    changes: &mut Items<Change>,
    apps: usize,
) -> Result<(), AllocError>
    ensures { OnOk result (changes.new ≡ changes.old ++ each_of uninstall_of (apps / 2)) }
{
    for half in 0..apps / 2 {
        let name = app_ref(alloc, 2 * half + 1)?;
        changes.push(Change::Uninstall(name))?;
    }
    Ok(())
}

/// Returns the commands that are run over the generated remotes. They add the remote `gen` with the
/// first URL, install each application, change the remote's URL to the second, update all,
/// uninstall the applications with odd numbers, and then the runtimes that nothing needs.
pub fn exercise_commands(alloc: Global, apps: u32) -> Result<Items<Change>, AllocError>
    ensures { IfOk result (λ changes. changes ≡ exercise_changes apps) }
{
    let apps = apps as usize;
    let mut changes = Items::new(alloc);
    changes.push(Change::RemoteAdd(remote_at(alloc, FIRST_URL)?))?;
    push_installs(alloc, &mut changes, apps)?;
    changes.push(Change::RemoteModify(remote_at(alloc, SECOND_URL)?))?;
    changes.push(Change::UpdateAll)?;
    push_uninstalls(alloc, &mut changes, apps)?;
    changes.push(Change::UninstallUnused)?;
    Ok(changes)
}
