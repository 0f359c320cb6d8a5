//! Setting up the store of an installation for its first commit.
ghost use Rattle.std.specs.Prelude.{◌≡◌, IfOk, OnOk, IsErrOf};
ghost use Rattle.fp_host.specs.OverHost.{AtEachMoment, AtReturn, FailsOnly};
ghost use Rattle.fp_small.specs.Replace.{CanReplace};
ghost use Rattle.op_change.specs.Readying.{store_config, a_head, Configures, ReadiesStore, HasConfigured, WasReadied, CanReady};

use fp_host::{Host, HostEnd, Path, Stat};
use fp_small::{make_above, replace, repo_path};
use ost_model::STORE_CONFIG;
use std::alloc::{AllocError, Global};

/// Returns the path of the store's `config`, and a path directly in its directory `refs/heads`.
fn store_paths(alloc: Global) -> Result<(Path, Path), AllocError>
    ensures { IfOk result (λ paths. (paths.0 ≡ store_config) × (paths.1 ≡ a_head)) }
{
    let repo = repo_path(alloc)?;
    let config = repo.child("config")?;
    let head = repo.child("refs")?.child("heads")?.child("x")?;
    Ok((config, head))
}

/// Writes the store's `config` if it is absent.
fn write_config<H: Host>(alloc: Global, host: &mut H, config: &Path) -> Result<(), HostEnd>
    requires { config.now ≡ store_config }
    ensures any_moment { AtEachMoment H.Host host.old host.new Configures }
    ensures on_success { OnOk result (AtReturn H.Host host.old host.new HasConfigured) }
    ensures fault_has_cause { FailsOnly H.Host host.old host.new
        (CanReplace store_config) (IsErrOf result HostEnd.Fault) }
{
    match host.stat(config)? {
        Stat::Absent => replace(alloc, host, config, STORE_CONFIG.as_bytes()),
        _ => Ok(()),
    }
}

/// Makes the directory `repo/refs/heads` and then the file `repo/config`, each if it is absent.
/// Since the directory comes first, a store with a `config` has the directory of its refs.
pub(crate) fn ready_store<H: Host>(alloc: Global, host: &mut H) -> Result<(), HostEnd>
    ensures any_moment { AtEachMoment H.Host host.old host.new ReadiesStore }
    ensures on_success { OnOk result (AtReturn H.Host host.old host.new WasReadied) }
    ensures fault_has_cause { FailsOnly H.Host host.old host.new
        CanReady (IsErrOf result HostEnd.Fault) }
{
    let (config, head) = store_paths(alloc)?;
    make_above(alloc, host, &head)?;
    write_config(alloc, host, &config)
}
