//! Reading the head of a ref: its commit, checked as far as an installation needs to know it.
ghost use Rattle.std.specs.Prelude.{◌≡◌, ◌≤◌, ℕ, List, length, Option, Some, IfOk, codes};
ghost use Rattle.std.specs.Option.{option_or};
ghost use Rattle.fp_small.specs.Places.{repo};
ghost use Rattle.ost_model.specs.declared.limits.TheConstants.{MOST_METADATA_FILE_BYTES};
ghost use Rattle.ost_model.specs.Objects.{Have};
ghost use Rattle.ost_model.specs.Look.{entry_in, file_at};
ghost use Rattle.ost_model.specs.Remotes.{Supplies};
ghost use Rattle.ost_object.specs.Views.{commit_view, tree_view};
ghost use Rattle.ost_walk.specs.Ends.{Observes, around};
ghost use Rattle.ost_walk.specs.PullEnds.{Answers, Looks, NoFault};
ghost use Rattle.ost_head.specs.Heads.{commit_refused, head_in, head_of, metadata_at, root_refused, with_content};
ghost use Rattle.ost_head.specs.Kept.{kept_of};
ghost use Rattle.ost_head.specs.Roots.{ReadsRoot, ReadsTree};

use crate::entries::file_in;
use crate::metadata::{Kept, find_metadata};
use crate::parts::{find_commit, find_meta, find_tree};
use crate::refusing::{refuse_absent, refuse_commit, refuse_lines, refuse_longer, refuse_root};
use fp_base::Blob;
use fp_host::{Host, Path, Remotes};
use fp_name::{Digest, RefName};
use fp_small::{Refusal, RemoteRow, repo_path};
use ost_object::{Commit, DirTree};
use ost_walk::{PullEnd, WalkEnd};
use std::alloc::{AllocError, Global};

/// The head of a ref: its commit, and the parts of it that an installation needs.
#[derive(Drop)]
pub struct Head {
    /// The digest of the commit.
    pub commit: Digest,
    /// The time of the commit in seconds since 1970.
    pub timestamp: u64,
    /// The content of the commit's file `metadata`.
    pub metadata: Blob,
}

/// A commit and the dirtree of its root.
#[derive(Drop)]
pub(crate) struct Root {
    pub(crate) commit: Commit,
    pub(crate) tree: DirTree,
}

/// Returns the dirtree of a commit's root, and checks the root's dirmeta. `Refused` with the first
/// fault.
fn read_tree<H: Host, R: Remotes>(
    alloc: Global,
    host: &mut H,
    remotes: &mut R,
    store: &Path,
    url: &str,
    commit: &Commit,
) -> Result<DirTree, WalkEnd>
    ensures looks { Observes result
        (around H.Host R.Remotes host.old remotes.old)
        (around H.Host R.Remotes host.new remotes.new) }
    ensures tells { (have : Have) → Supplies store.now (Some url.now) (H.moments host.old)
        (R.holds remotes.old) have
        → ReadsTree have (commit_view commit.now) result }
{
    match find_tree(alloc, host, remotes, store, url, &commit.tree) {
        Ok(tree) => match find_meta(alloc, host, remotes, store, url, &commit.meta) {
            Ok(()) => Ok(tree),
            Err(end) => Err(end),
        },
        Err(end) => Err(end),
    }
}

/// Returns a commit and the dirtree of its root, and checks the root's dirmeta. `Refused` with the
/// first fault.
fn read_root<H: Host, R: Remotes>(
    alloc: Global,
    host: &mut H,
    remotes: &mut R,
    store: &Path,
    url: &str,
    commit: &Digest,
) -> Result<Root, WalkEnd>
    ensures looks { Observes result
        (around H.Host R.Remotes host.old remotes.old)
        (around H.Host R.Remotes host.new remotes.new) }
    ensures tells { (have : Have) → Supplies store.now (Some url.now) (H.moments host.old)
        (R.holds remotes.old) have
        → ReadsRoot have commit.now result }
{
    match find_commit(alloc, host, remotes, store, url, commit) {
        Ok(read) => match read_tree(alloc, host, remotes, store, url, &read) {
            Ok(tree) => Ok(Root { commit: read, tree }),
            Err(end) => Err(end),
        },
        Err(end) => Err(end),
    }
}

/// Returns the refusal of a commit for its ref binding, its time, or an entry `deploy` in its root,
/// in this order.
fn refuse_early(
    alloc: Global,
    name: &RefName,
    commit: &Digest,
    since: Option<u64>,
    root: &Root,
) -> Result<Option<Refusal>, AllocError>
    ensures { IfOk result (λ r. r ≡ option_or (commit_refused name.now since
        (commit_view root.now.commit))
        (root_refused commit.now (tree_view root.now.tree))) }
{
    match refuse_commit(alloc, name, since, &root.commit)? {
        Some(refusal) => Ok(Some(refusal)),
        None => Ok(refuse_root(commit, &root.tree)),
    }
}

/// Returns the head with this file `metadata`, which is within its limit. `Refused` with
/// `BadMetadata` if the file isn't valid.
fn head_with(
    alloc: Global,
    name: &RefName,
    commit: &Digest,
    timestamp: u64,
    metadata: Blob,
) -> Result<Head, PullEnd>
    ensures tells { length metadata ≤ MOST_METADATA_FILE_BYTES
        → Answers result (with_content name.now commit.now timestamp (Some metadata)) }
    ensures faults { NoFault result }
{
    let off = refuse_lines(alloc, name, &metadata)?;
    match off {
        Some(refusal) => Err(PullEnd::Refused(refusal)),
        None => Ok(Head {
            commit: *commit,
            timestamp,
            metadata,
        }),
    }
}

/// Returns the head with this file `metadata`. `Refused` if the file is too long, missing, or not
/// valid.
fn head_kept(
    alloc: Global,
    name: &RefName,
    commit: &Digest,
    timestamp: u64,
    kept: Kept,
) -> Result<Head, PullEnd>
    ensures tells { (content : Option (List ℕ)) → kept ≡ kept_of content
        → Answers result (with_content name.now commit.now timestamp content) }
    ensures faults { NoFault result }
{
    match kept {
        Kept::Bytes(bytes) => head_with(alloc, name, commit, timestamp, bytes),
        Kept::Longer(size) => Err(PullEnd::Refused(refuse_longer(size))),
        Kept::Nothing => Err(PullEnd::Refused(refuse_absent(name)?)),
    }
}

/// Returns the head whose file `metadata` has this digest. `Refused` if the file has a fault as an
/// object, is too long, is a symlink, or isn't valid.
fn head_at<H: Host, R: Remotes>(
    alloc: Global,
    host: &mut H,
    remotes: &mut R,
    store: &Path,
    url: &str,
    name: &RefName,
    commit: &Digest,
    timestamp: u64,
    digest: &Digest,
) -> Result<Head, PullEnd>
    ensures looks { Looks result
        (around H.Host R.Remotes host.old remotes.old)
        (around H.Host R.Remotes host.new remotes.new) }
    ensures tells { (have : Have) → Supplies store.now (Some url.now) (H.moments host.old)
        (R.holds remotes.old) have
        → Answers result (metadata_at have name.now commit.now timestamp (file_at digest.now)) }
{
    match find_metadata(alloc, host, remotes, store, url, digest) {
        Ok(kept) => head_kept(alloc, name, commit, timestamp, kept),
        Err(end) => Err(PullEnd::from(end)),
    }
}

/// Returns the head of a commit whose root has this dirtree. `Refused` if the file `metadata` is
/// missing or refused.
fn head_below<H: Host, R: Remotes>(
    alloc: Global,
    host: &mut H,
    remotes: &mut R,
    store: &Path,
    url: &str,
    name: &RefName,
    commit: &Digest,
    timestamp: u64,
    tree: &DirTree,
) -> Result<Head, PullEnd>
    ensures looks { Looks result
        (around H.Host R.Remotes host.old remotes.old)
        (around H.Host R.Remotes host.new remotes.new) }
    ensures tells { (have : Have) → Supplies store.now (Some url.now) (H.moments host.old)
        (R.holds remotes.old) have
        → Answers result (metadata_at have name.now commit.now timestamp
        (entry_in (codes "metadata") (Some (tree_view tree.now)))) }
{
    match file_in(tree, "metadata") {
        Some(digest) => {
            head_at(
                alloc, host, remotes, store, url, name, commit, timestamp, &digest,
            )
        }
        None => head_kept(alloc, name, commit, timestamp, Kept::Nothing),
    }
}

/// Returns the head of a commit that was read with its root. `Refused` for its ref binding, its
/// time, an entry `deploy` or its file `metadata`, in this order.
#[tactic(auto, using(crate::proofs::Looking::looks_none))]
fn head_in<H: Host, R: Remotes>(
    alloc: Global,
    host: &mut H,
    remotes: &mut R,
    store: &Path,
    url: &str,
    name: &RefName,
    commit: &Digest,
    since: Option<u64>,
    root: &Root,
) -> Result<Head, PullEnd>
    ensures looks { Looks result
        (around H.Host R.Remotes host.old remotes.old)
        (around H.Host R.Remotes host.new remotes.new) }
    ensures tells { (have : Have) → Supplies store.now (Some url.now) (H.moments host.old)
        (R.holds remotes.old) have
        → Answers result (head_in have name.now commit.now since (commit_view root.now.commit)
        (tree_view root.now.tree)) }
{
    let time = root.commit.timestamp;
    let early = refuse_early(alloc, name, commit, since, root)?;
    match early {
        Some(refusal) => Err(PullEnd::Refused(refusal)),
        None => head_below(
            alloc, host, remotes, store, url, name, commit, time, &root.tree,
        ),
    }
}

/// Reads the head of a ref, by the digest of its commit. Looks up objects in the repository and
/// else at the remote, and checks them: the commit, the dirtree and the dirmeta of its root, and
/// its file `metadata`. Refuses in this order: the first three objects if one has a fault; with
/// `RefBinding` if the commit is bound to other refs only; with `Older` if its time is before
/// `since`, the time of the deployed commit; with `ReservedName` if the root has an entry `deploy`;
/// the file `metadata` if it has a fault as an object; with `Limit` if it has more than 1 MiB; and
/// with `BadMetadata` if it is missing, not a regular file, or not valid. Changes nothing.
pub fn read_head<H: Host, R: Remotes>(
    alloc: Global,
    host: &mut H,
    remotes: &mut R,
    remote: &RemoteRow,
    name: &RefName,
    commit: &Digest,
    since: Option<u64>,
) -> Result<Head, PullEnd>
    ensures looks { Looks result
        (around H.Host R.Remotes host.old remotes.old)
        (around H.Host R.Remotes host.new remotes.new) }
    ensures tells { (have : Have)
        → Supplies repo (Some remote.now.url) (H.moments host.old) (R.holds remotes.old) have
        → Answers result (head_of have name.now commit.now since) }
{
    let store = repo_path(alloc)?;
    let url = remote.url.as_str();
    match read_root(alloc, host, remotes, &store, url, commit) {
        Ok(root) => {
            head_in(
                alloc, host, remotes, &store, url, name, commit, since, &root,
            )
        }
        Err(end) => Err(PullEnd::from(end)),
    }
}
