//! The paths of an installation's small files and top directories.
ghost use Rattle.std.specs.Prelude.{◌≡◌, ◌∷◌, [], codes, IfOk};
ghost use Rattle.dep_states.specs.Names.{config, remotes_conf, pins_file, overrides_folder};

use fp_host::Path;
use std::alloc::{AllocError, Global};

/// Returns the path `config`, of the settings.
pub fn config_path(alloc: Global) -> Result<Path, AllocError>
    ensures { IfOk result (λ p. p ≡ config) }
{
    Path::root(alloc).child("config")
}

/// Returns the path `remotes.conf`, of the remotes in layout 1.
pub fn remotes_path(alloc: Global) -> Result<Path, AllocError>
    ensures { IfOk result (λ p. p ≡ remotes_conf) }
{
    Path::root(alloc).child("remotes.conf")
}

/// Returns the path `pins`, of the pins in layout 1.
pub fn pins_path(alloc: Global) -> Result<Path, AllocError>
    ensures { IfOk result (λ p. p ≡ pins_file) }
{
    Path::root(alloc).child("pins")
}

/// Returns the path `overrides`, of the directory of the overrides.
pub fn overrides_path(alloc: Global) -> Result<Path, AllocError>
    ensures { IfOk result (λ p. p ≡ overrides_folder) }
{
    Path::root(alloc).child("overrides")
}

/// Returns the path `app`, of the directory of the applications.
pub(crate) fn apps_path(alloc: Global) -> Result<Path, AllocError>
    ensures { IfOk result (λ p. p ≡ codes "app" ∷ []) }
{
    Path::root(alloc).child("app")
}

/// Returns the path `runtime`, of the directory of the runtimes.
pub(crate) fn runtimes_path(alloc: Global) -> Result<Path, AllocError>
    ensures { IfOk result (λ p. p ≡ codes "runtime" ∷ []) }
{
    Path::root(alloc).child("runtime")
}
