//! Explanations of refusals for people: what each means, and what helps.
ghost use Rattle.std.specs.Prelude.{◌≡◌, map, nat_eq, option_map};
ghost use Rattle.std.specs.List.{starts_with};
ghost use Rattle.fl_lines.specs.Advice.{said_in, refusals_said, advice_of};

/// The explanation of all lines that begin with a text.
struct Saying {
    begins: &'static str,
    says: &'static str,
}

/// Returns what the line of a refusal means and what helps, or `None` if it begins like no
/// refusal's line.
pub fn advice_on(line: &str) -> Option<&'static str>
    ensures { option_map (λ t. t.now) result ≡ advice_of line.now }
{
    for saying in sayings() {
        if begins_so(line, saying.begins) {
            return Some(saying.says);
        }
    }
    None
}

/// Returns whether a text begins with another.
#[tactic(auto, using(std::proofs::lemmas::Str::Pattern::starts_text))]
fn begins_so(text: &str, beginning: &str) -> bool
    ensures { result ≡ starts_with nat_eq text.now beginning.now }
{
    text.starts_with(beginning)
}

/// Returns the explanations of all refusals.
fn sayings() -> &'static [Saying]
    ensures { map said_in result.now ≡ refusals_said }
{
    &[
        Saying {
            begins: "error: words ",
            says: "`fpk --help` prints every command",
        },
        Saying {
            begins: "error: no remote ",
            says: "there is no remote of this name; `fpk list --remotes` prints those that \
                there are, and `fpk remote-add NAME URL` adds one",
        },
        Saying {
            begins: "error: remote exists ",
            says: "there is a remote of this name already; `fpk remote-modify NAME URL` gives \
                it another URL",
        },
        Saying {
            begins: "error: remote in use ",
            says: "this ref was installed from the remote; uninstall the ref first, or give the \
                remote another URL by `fpk remote-modify NAME URL`",
        },
        Saying {
            begins: "error: remote mode ",
            says: "the remote has to be a repository of the mode bare-user-only; `ostree init \
                --mode=bare-user-only --repo=NEW` and `ostree pull-local --repo=NEW OLD REF` \
                make one of a repository of another mode",
        },
        Saying {
            begins: "error: no ref ",
            says: "the remote does not offer this ref; `ostree refs --repo=FOLDER` prints what \
                a repository offers",
        },
        Saying {
            begins: "error: installed ",
            says: "this ref is installed already; `fpk update REF` brings what its remote \
                offers now",
        },
        Saying {
            begins: "error: not installed ",
            says: "this ref is not installed; `fpk list` prints those that are",
        },
        Saying {
            begins: "error: runtime missing ",
            says: "the application needs this runtime, and no remote offers it; `fpk remote-add \
                NAME URL` adds a remote that does",
        },
        Saying {
            begins: "error: runtime in use ",
            says: "the application needs this runtime; uninstall the application first",
        },
        Saying {
            begins: "error: missing object ",
            says: "the remote lacks an object that the ref needs; `ostree fsck --repo=FOLDER` \
                says more, and the ref has to be pulled into it again",
        },
        Saying {
            begins: "error: corrupt object ",
            says: "the bytes of this object have another digest than its name says, so the \
                remote is damaged; `ostree fsck --repo=FOLDER` says more",
        },
        Saying {
            begins: "error: malformed object ",
            says: "these bytes are no such object as OSTree writes it",
        },
        Saying {
            begins: "error: mode refused ",
            says: "permission bits have to be within 0775, and the owner has to be allowed to \
                read; set them by `chmod`, and commit the tree again",
        },
        Saying {
            begins: "error: reserved name ",
            says: "the tree has an entry `deploy` at its top, where fpk keeps its own record; \
                commit the tree again without it",
        },
        Saying {
            begins: "error: metadata ",
            says: "the file `metadata` of this ref does not read; the number is that of the \
                line, or 0 for the whole file",
        },
        Saying {
            begins: "error: ref binding ",
            says: "the commit was made for other refs than this one, so the remote's ref may \
                lead to a wrong commit; `ostree show \
                --print-metadata-key=ostree.ref-binding` prints which",
        },
        Saying {
            begins: "error: older ",
            says: "the remote offers an older commit than the one that is installed (both times \
                are seconds since 1970), so nothing was changed; `fpk rollback REF` goes \
                back to the commit before",
        },
        Saying {
            begins: "error: pin exists ",
            says: "this pattern is pinned already; `fpk list --pins` prints the patterns",
        },
        Saying {
            begins: "error: no pin ",
            says: "this pattern is not pinned; `fpk list --pins` prints those that are, and \
                each is unpinned as it stands there",
        },
        Saying {
            begins: "error: limit pins ",
            says: "an installation has at most 1,024 pins; `fpk unpin PATTERN` makes room",
        },
        Saying {
            begins: "error: limit remotes ",
            says: "an installation has at most 256 remotes; `fpk remote-delete NAME` makes room",
        },
        Saying {
            begins: "error: limit refs ",
            says: "an installation has at most 4,096 refs; `fpk uninstall REF` and `fpk \
                uninstall --unused` make room",
        },
        Saying {
            begins: "error: limit input ",
            says: "the input has more bytes than this command takes; divide it",
        },
        Saying {
            begins: "error: limit object ",
            says: "a file of a repository has at most 1 GiB",
        },
        Saying {
            begins: "error: limit metadata-object ",
            says: "a commit, a dirtree and a dirmeta have at most 16 MiB each; divide the \
                folder with the most names",
        },
        Saying {
            begins: "error: limit objects ",
            says: "a commit has at most 200,000 objects, repeats counted; divide the tree into \
                several refs",
        },
        Saying {
            begins: "error: limit depth ",
            says: "folders stand at most 64 deep in a tree",
        },
        Saying {
            begins: "error: limit metadata-file ",
            says: "the file `metadata` of a commit has at most 1 MiB",
        },
        Saying {
            begins: "error: limit override ",
            says: "the file of an override has at most 1 MiB; `fpk override --reset` begins \
                anew",
        },
        Saying {
            begins: "error: record ",
            says: "this line of the input, counted from 1, is none that may stand there, and \
                nothing was done",
        },
        Saying {
            begins: "error: message ",
            says: "this side's message, counted from 0, is no message of D-Bus",
        },
        Saying {
            begins: "error: damaged ",
            says: "this file of the installation does not read, so nothing was changed; put \
                back the text that it had",
        },
        Saying {
            begins: "error: no previous ",
            says: "no commit is known that this ref was at before the one that is installed",
        },
    ]
}
