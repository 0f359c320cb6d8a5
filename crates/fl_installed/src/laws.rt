//! Laws of the definitions in the contracts, for crates that build on them. Each law is the
//! contract of a function with an empty body.
ghost use Rattle.std.specs.Prelude.{◌≡◌, ◌+◌, [], ℕ, List, length, map, Some, None, Ok, Err};
ghost use Rattle.fp_base.specs.declared.meta_rule.MetaRule.TheVariants as rules;
ghost use Rattle.fp_host.specs.Outcome.{gone, folder, holds, points};
ghost use Rattle.ost_model.specs.declared.limits.TheConstants.{MOST_METADATA_FILE_BYTES};
ghost use Rattle.ost_model.specs.declared.object.Object.TheVariants as objects;
ghost use Rattle.fl_installed.specs.Deployed.{short_file, stored_files};
ghost use Rattle.fl_installed.specs.Described.{broken, info_in};
ghost use Rattle.fl_installed.specs.Files.{metadata_file, short_content};
ghost use Rattle.fl_installed.specs.Standing.{StandingIsRead, StandingIsStored, MetadataIsLocal, UserIsLocal, MetasAreLocal, PointsAreLocal, ApplicationsName};
ghost use Rattle.fl_installed.specs.Users.{first_user, runtime_at, installed_metas, installed_points};
ghost use Rattle.fl_installed.specs.Sample as sample;

/// States that the file `metadata` in the directory where a commit is checked out is valid, has at
/// most 1 MiB, and has the bytes of the commit's file in the store.
pub fn metadata_is_what_stands()
    ensures read { StandingIsRead }
    ensures stored { StandingIsStored }
{}

/// States that the file `metadata` of a valid commit depends only on the objects in the commit's
/// order, and that users of runtimes, metadata and extension points of the deployed refs depend
/// only on their files `metadata`.
pub fn what_is_said_depends_on_the_objects()
    ensures metadata { MetadataIsLocal }
    ensures user { UserIsLocal }
    ensures metas { MetasAreLocal }
    ensures points { PointsAreLocal }
{}

/// States that only applications name runtimes, and that they name nothing else.
pub fn applications_name_runtimes()
    ensures { ApplicationsName }
{}

/// States which files `metadata` the commits of a small installation have.
pub fn small_installation()
    ensures first { metadata_file sample.have sample.first_commit ≡ Some sample.first_metadata }
    ensures second { metadata_file sample.have sample.second_commit ≡ Some sample.second_metadata }
    // A commit has no file if its root can't be read, or if the commit itself is missing.
    ensures without_tree { metadata_file sample.without_tree sample.first_commit ≡ None }
    ensures absent { metadata_file sample.have [] ≡ None }
    // A runtime's commit names no runtime, whatever its metadata contains.
    ensures runtime { runtime_at sample.have sample.other sample.second_commit ≡ None }
{}

/// States which application of the small installation uses a runtime first, which runtimes its
/// applications name, and which extension points its refs have.
pub fn small_installation_is_used()
    ensures base { first_user sample.have sample.base sample.rows ≡ Some sample.first }
    // Two applications name this runtime. The first one is returned.
    ensures platform { first_user sample.have sample.platform sample.rows ≡ Some sample.second }
    ensures none { first_user sample.have sample.other sample.rows ≡ None }
    ensures metas { map sample.runtime_of (installed_metas sample.have sample.rows)
        ≡ sample.runtimes }
    ensures points { map sample.names_of (installed_points sample.have sample.rows)
        ≡ sample.points }
{}

/// States how commits of the small installation are described or refused, if the deployed files are
/// those of the store.
pub fn small_installation_is_described()
    ensures info { info_in (stored_files sample.have) sample.second sample.second_commit
        ≡ Ok (record { runtime = Some sample.platform; extensions = sample.names }) }
    ensures absent { info_in (stored_files sample.have) sample.other []
        ≡ Err (broken sample.other rules.Absent) }
    ensures kind { info_in (stored_files sample.have) sample.other sample.second_commit
        ≡ Err (broken sample.other rules.Group) }
{}

/// States that a file `metadata` is read if it has at most 1 MiB, both in the store and in a
/// commit's directory. There, an absent path, a directory and a symlink count as no file.
pub fn files_are_short()
    ensures most { (mode : ℕ) (bytes : List ℕ) → length bytes ≡ MOST_METADATA_FILE_BYTES
        → short_content (Some (objects.File mode bytes)) ≡ Some bytes }
    ensures more { (mode : ℕ) (bytes : List ℕ) → length bytes ≡ MOST_METADATA_FILE_BYTES + 1
        → short_content (Some (objects.File mode bytes)) ≡ None }
    ensures most_deployed { (id mode : ℕ) (bytes : List ℕ)
        → length bytes ≡ MOST_METADATA_FILE_BYTES → short_file (holds id mode bytes) ≡ Some bytes }
    ensures more_deployed { (id mode : ℕ) (bytes : List ℕ)
        → length bytes ≡ MOST_METADATA_FILE_BYTES + 1 → short_file (holds id mode bytes) ≡ None }
    ensures gone { short_file gone ≡ None }
    ensures folder { short_file folder ≡ None }
    ensures link { (text : List ℕ) → short_file (points text) ≡ None }
{}
