//! Laws of the definitions in the contracts, for crates that build on them. Each law is the
//! contract of a function with an empty body.

ghost use Rattle.std.specs.Prelude.{◌≡◌, ◌++◌, ℕ, true, codes, List};
ghost use Rattle.std.specs.List.{list_any};
ghost use Rattle.std.specs.Str.{bytes_eq};
ghost use Rattle.fp_host.specs.Reads.{is_ascending};
ghost use Rattle.fp_keyfile.specs.declared.group.Group.{Group};
ghost use Rattle.fl_meta.specs.declared.mentions.Source.{Source as TheSource};
ghost use Rattle.fl_meta.specs.declared.permission.PermList.{PermList as TheList};
ghost use Rattle.fl_meta.specs.declared.permission.Permission.{Permission};
ghost use Rattle.fl_meta.specs.declared.permission.Mention.{Mention};
ghost use Rattle.fl_meta.specs.Mentions.{file_mentions};
ghost use Rattle.fl_context.specs.Grants.{IsAscending, last_mention, value_in};
ghost use Rattle.fl_launch.specs.Layers.{granted_by};
ghost use Rattle.fl_override.specs.Overrides.{AllCanWrite};
ghost use Rattle.fp_small.specs.declared.state.State.{State as TheState};
ghost use Rattle.fl_extension.specs.declared.point.Point.{Point as ThePoint};
ghost use Rattle.fl_launch.specs.Extensions.{mounts_of, mount_lines};
ghost use Rattle.fl_launch.specs.Groups.{TextIsOfGroups, GroupsReadBack, LaunchReadsBack, MountReadsBack};
ghost use Rattle.fl_launch.specs.Policies.{AreRules, IsBus};

/// States that the mentions of a bus are patterns with levels, if they come from a file, can be
/// written, are several such lists joined, or are what such mentions grant.
pub fn grants_are_rules()
    ensures files { (bus : TheList) (source : TheSource) (file : List Group) → IsBus bus → AreRules
        bus (file_mentions source file) }
    ensures words { (bus : TheList) (mentions : List Mention) → IsBus bus → AllCanWrite mentions →
        AreRules bus mentions }
    ensures joined { (bus : TheList) (one other : List Mention) → AreRules bus one → AreRules bus
        other → AreRules bus (one ++ other) }
    ensures grants { (bus : TheList) (all grants : List Mention) → AreRules bus all → IsAscending
        grants → ((p : Permission) → value_in grants p ≡ last_mention all p) → AreRules bus grants }
{}

/// States that layers grant the last mention of each permission, with the permissions ascending,
/// and that no other list does.
pub fn grants_are_the_last_mentions()
    ensures last { (mentions : List Mention) (p : Permission) → value_in (granted_by mentions) p ≡
        last_mention mentions p }
    ensures ascending { (mentions : List Mention) → IsAscending (granted_by mentions) }
    ensures alone { (mentions grants : List Mention) → IsAscending grants
        → ((p : Permission) → value_in grants p ≡ last_mention mentions p)
        → grants ≡ granted_by mentions }
{}

/// States that the text of a launch is that of a key file's groups, followed by the mounts. The
/// groups read back unchanged, so no value is read as another line, if names, commits and the
/// command are valid values of a key file, and the permissions can be written.
pub fn texts_are_of_groups()
    ensures text { TextIsOfGroups }
    ensures back { GroupsReadBack }
{}

/// States that the groups of a launch read back unchanged, so no value is read as another line, if
/// its refs, digests and values are valid and the mentions can be written, as those of files and
/// options can.
pub fn launches_read_back()
    ensures { LaunchReadsBack }
{}

/// States that the line of a mount reads back as the directory below `/app` or `/usr`, and the ref,
/// and as no other line.
pub fn mounts_read_back()
    ensures app { MountReadsBack (codes "/app/") }
    ensures runtime { MountReadsBack (codes "/usr/") }
{}

/// States that the lines of the mounts ascend strictly by their bytes, and are exactly those of the
/// points of the application and of the runtime.
pub fn mounts_ascend()
    ensures ascending { (state : TheState) (app_points runtime_points : List ThePoint) →
        is_ascending (mount_lines state app_points runtime_points) ≡ true }
    ensures each { (state : TheState) (app_points runtime_points : List ThePoint) (line : List ℕ) →
        list_any (bytes_eq line) (mount_lines state app_points runtime_points)
        ≡ list_any (bytes_eq line) (mounts_of (codes "/app/") state app_points ++ mounts_of (codes
        "/usr/") state runtime_points) }
{}
