//! The commit that a remote offers under a ref.

use crate::offers::{URL, app, path, put};
use crate::pulls::end_line;
use crate::rows::agree;
use fp_base::{Blob, Text};
use fp_memhost::{MemNode, MemRemotes};
use fp_name::{RemoteName, RemoteUrl};
use fp_small::RemoteRow;
use ost_head::offer;
use std::alloc::Global;
use std::panic::Expect;
use std::process::Abort;

/// Puts a file with this text on the remote.
fn put_file(rt: &impl Abort, alloc: Global, remotes: &mut MemRemotes, at: &str, text: &str) {
    let bytes = Blob::from_slice(alloc, text.as_bytes()).expect(rt, "memory");
    let at = path(rt, alloc, at);
    put(rt, remotes, URL, &at, MemNode::File { mode: 0o644, bytes });
}

/// Returns the commit that a remote offers with this `config` and this file of the ref, as
/// hexadecimal digits, or the line of the refusal.
fn offer_of(rt: &impl Abort, alloc: Global, config: &str, file: &str) -> Text {
    let mut remotes = MemRemotes::new(alloc).expect(rt, "memory");
    put_file(rt, alloc, &mut remotes, "config", config);
    let at = "refs/heads/app/org.example.App/x86_64/stable";
    put_file(rt, alloc, &mut remotes, at, file);
    let lab = RemoteRow {
        name: RemoteName::parse(alloc, b"lab").expect(rt, "a name"),
        url: RemoteUrl::parse(alloc, URL.as_bytes()).expect(rt, "a url"),
    };
    match offer(alloc, &mut remotes, &lab, &app(rt, alloc)) {
        Ok(commit) => commit.write(alloc).expect(rt, "memory"),
        Err(end) => end_line(rt, alloc, end),
    }
}

/// The `config` of a repository from which fpk pulls.
const CONFIG: &str = "[core]\nrepo_version=1\nmode=bare-user-only\n";

/// The `config` of a remote, the file of a ref there, and the wanted commit or refusal.
const OFFERS: &[(&str, &str, &str)] = &[
    (
        CONFIG,
        "0123456789abcdef0123456789abcdef0123456789abcdef0123456789abcdef\n",
        "0123456789abcdef0123456789abcdef0123456789abcdef0123456789abcdef",
    ),
    (
        CONFIG,
        "0123456789abcdef0123456789abcdef0123456789abcdef0123456789abcde\n",
        "error: no ref lab app/org.example.App/x86_64/stable\n",
    ),
    (
        CONFIG,
        "0123456789abcdef0123456789abcdef0123456789abcdef0123456789abcdef",
        "error: no ref lab app/org.example.App/x86_64/stable\n",
    ),
    (
        "[core]\nmode=bare-user-only\n",
        "0123456789abcdef0123456789abcdef0123456789abcdef0123456789abcdef\n",
        "error: remote mode lab bare-user-only\n",
    ),
    (
        "[core]\nrepo_version=1\nmode=archive-z2\n",
        "0123456789abcdef0123456789abcdef0123456789abcdef0123456789abcdef\n",
        "error: remote mode lab archive-z2\n",
    ),
];

#[test]
fn a_ref_is_offered_by_64_digits_and_a_newline(rt: HostRuntime) {
    for (config, file, want) in OFFERS {
        let offer = offer_of(&rt, rt.alloc(), config, file);
        agree(&rt, want, offer.as_str() == *want);
    }
}
