//! The refusals of objects with faults.
ghost use Rattle.std.specs.Prelude.{◌≡◌};
ghost use Rattle.ost_walk.specs.Ends.{fault_of};
ghost use Rattle.ost_walk.specs.Refusals.{long_what, refusal_of};

use crate::ends::{ObjectFault, WalkFault};
use fp_base::{ObjKind, What};
use fp_small::Refusal;
use ost_model::{MOST_LEVELS, MOST_OBJECTS};

/// The maximum number of a commit's objects, plus one.
const TOO_MANY: u64 = MOST_OBJECTS as u64 + 1;

/// The maximum number of levels below the root, plus one.
const TOO_DEEP: u64 = MOST_LEVELS as u64 + 1;

/// Returns the `What` in the refusal of an object of this kind that is too long.
fn long_what(kind: ObjKind) -> What
    ensures { result ≡ long_what kind }
{
    match kind {
        ObjKind::File => What::Object,
        ObjKind::Commit | ObjKind::DirTree | ObjKind::DirMeta => What::MetadataObject,
    }
}

/// Returns the refusal of an object with a fault.
pub(crate) fn refuse_object(refused: &WalkFault) -> Refusal
    ensures { result ≡ refusal_of refused.now.digest refused.now.kind (fault_of refused.now.fault) }
{
    match &refused.fault {
        ObjectFault::TooMany => Refusal::Limit {
            what: What::Objects,
            number: TOO_MANY,
        },
        ObjectFault::TooDeep => Refusal::Limit {
            what: What::Depth,
            number: TOO_DEEP,
        },
        ObjectFault::Missing => Refusal::MissingObject {
            digest: refused.digest,
            kind: refused.kind,
        },
        ObjectFault::TooLong(number) => Refusal::Limit {
            what: long_what(refused.kind),
            number: *number,
        },
        ObjectFault::RefusedMode(mode) => Refusal::ModeRefused {
            digest: refused.digest,
            kind: refused.kind,
            mode: *mode,
        },
        ObjectFault::Corrupt(got) => Refusal::CorruptObject {
            digest: refused.digest,
            kind: refused.kind,
            got: *got,
        },
        ObjectFault::Malformed(rule) => Refusal::MalformedObject {
            digest: refused.digest,
            kind: refused.kind,
            rule: *rule,
        },
    }
}
