//! The reasons why commands are refused.

use fp_base::{FrameRule, MetadataRule, ObjKind, Rule, Side, Text, What};
use fp_host::Path;
use fp_name::{Digest, PinPattern, RefName, RemoteName};

/// The reason why a command is refused.
#[derive(Drop)]
pub enum Refusal {
    /// The words aren't a command. The index, counted from 0, is that of the first word that
    /// doesn't continue any command, or the number of words if more are needed.
    BadWords {
        index: u64,
    },
    /// There is no remote with this name.
    NoSuchRemote {
        remote: RemoteName,
    },
    /// There already is a remote with this name.
    RemoteExists {
        remote: RemoteName,
    },
    /// The remote can't be removed: deployed refs come from it, of which `name` is the first.
    RemoteInUse {
        remote: RemoteName,
        name: RefName,
    },
    /// The remote's repository isn't of version 1 and of OSTree's mode `bare-user-only`. `mode` is
    /// the mode in its `config`, or `-` if there is none that can be shown.
    WrongMode {
        remote: RemoteName,
        mode: Text,
    },
    /// The remote doesn't offer the ref.
    NoSuchRef {
        remote: RemoteName,
        name: RefName,
    },
    /// The ref is deployed already.
    AlreadyInstalled {
        name: RefName,
    },
    /// The ref isn't deployed.
    NotInstalled {
        name: RefName,
    },
    /// The required runtime is neither deployed nor offered by a remote.
    RuntimeMissing {
        name: RefName,
    },
    /// The runtime can't be removed: deployed applications need it, of which `app` is the first.
    RuntimeInUse {
        runtime: RefName,
        app: RefName,
    },
    /// The object is missing.
    MissingObject {
        digest: Digest,
        kind: ObjKind,
    },
    /// The object's content has another digest, `got`.
    CorruptObject {
        digest: Digest,
        kind: ObjKind,
        got: Digest,
    },
    /// The bytes with this digest aren't a valid object of this kind: they break this rule.
    MalformedObject {
        digest: Digest,
        kind: ObjKind,
        rule: Rule,
    },
    /// The bytes with this digest aren't a value of the GVariant type in normal form.
    MalformedValue {
        digest: Digest,
    },
    /// The object has permission bits that fpk refuses.
    ModeRefused {
        digest: Digest,
        kind: ObjKind,
        mode: u32,
    },
    /// The root directory of the commit has an entry `deploy`, the name of fpk's record of a
    /// deployment.
    ReservedName {
        commit: Digest,
    },
    /// The ref's file `metadata` isn't valid. The line is counted from 1; it is 0 if the rule
    /// concerns no single line.
    BadMetadata {
        name: RefName,
        line: u64,
        rule: MetadataRule,
    },
    /// The commit's `ostree.ref-binding` doesn't include the ref.
    RefBinding {
        name: RefName,
    },
    /// The offered commit is older than the deployed one. Both times are in seconds since
    /// 1970-01-01 00:00 UTC.
    Older {
        name: RefName,
        have: u64,
        offered: u64,
    },
    /// The pattern is pinned already.
    PinExists {
        pin: PinPattern,
    },
    /// The pattern isn't pinned.
    NoSuchPin {
        pin: PinPattern,
    },
    /// A limit is exceeded: `what` is, or would become, `number`.
    Limit {
        what: What,
        number: u64,
    },
    /// This line of the input, counted from 1, isn't valid at its place.
    BadRecord {
        line: u64,
    },
    /// A message of this side breaks the rule. The index is the number of this side's whole
    /// messages before it.
    BadMessage {
        side: Side,
        index: u64,
        rule: FrameRule,
    },
    /// The installation is damaged: what is at this path isn't valid.
    Damaged {
        path: Path,
    },
    /// The ref has no previous commit.
    NoPrevious {
        name: RefName,
    },
}
