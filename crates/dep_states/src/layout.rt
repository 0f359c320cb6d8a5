//! The names of an installation's files and directories.
ghost use Rattle.std.specs.Prelude.{◌≡◌, ◌∷◌, [], ℕ, List, map, false, codes};
ghost use Rattle.std.specs.List.{list_any};
ghost use Rattle.std.specs.Str.{bytes_eq};
ghost use Rattle.fp_host.specs.Paths.{path_text};
ghost use Rattle.fp_small.specs.Places.{tmp, repo};
ghost use Rattle.dep_states.specs.Names.{config, pins_file, remotes_conf};
ghost use Rattle.dep_states.specs.Zones.{anything, zone};
ghost use Rattle.dep_states.specs.declared.layout.TheConstants.{TOP_NAMES, SIGN_FILES, WORK_FOLDER, OBJECTS_FOLDER, WAITING_FOLDER};

/// The names at the top of an installation that fpk uses, in either layout.
pub const TOP_NAMES: [&str; 9] = [
    "app",
    "config",
    "exports",
    "made",
    "overrides",
    "pins",
    "remotes.conf",
    "repo",
    "runtime",
];

/// The files of which an installation has one before anything is exported or pulled: the settings
/// of either layout, and the store's `config`.
pub const SIGN_FILES: [&str; 4] = ["config", "pins", "remotes.conf", "repo/config"];

/// The directory of the exports.
pub const EXPORTS_NAME: &str = "exports";

/// The directory of staging files.
pub const WORK_FOLDER: &str = "repo/tmp";

/// The first part of the names of staging files, in `repo/tmp`. A number follows.
pub const NEW_FILE: &str = "new";

/// The directory of the store's objects.
pub const OBJECTS_FOLDER: &str = "repo/objects";

/// The directory where the objects of a pull are kept until all of them are checked.
pub const WAITING_FOLDER: &str = "repo/tmp/pull/objects";

/// States that fpk doesn't use other names at the top, in either layout: anything may be there.
pub fn other_names_are_for_nothing()
    ensures { (x : List ℕ) (rest : List (List ℕ))
        → list_any (bytes_eq x) (map (λ s. s.now) TOP_NAMES) ≡ false → zone (x ∷ rest) ≡ anything }
{}

/// States that the paths in the constants are those of the definitions.
pub fn paths_are_those_of_the_definitions()
    ensures signs { map (λ s. s.now) SIGN_FILES ≡ map path_text
        (config ∷ pins_file ∷ remotes_conf ∷ (codes "config" ∷ repo) ∷ []) }
    ensures work { WORK_FOLDER.now ≡ path_text tmp }
    ensures objects { OBJECTS_FOLDER.now ≡ path_text (codes "objects" ∷ repo) }
    ensures waiting { WAITING_FOLDER.now
        ≡ path_text (codes "objects" ∷ codes "pull" ∷ tmp) }
{}
