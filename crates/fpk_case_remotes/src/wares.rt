//! The remotes of a case: their commits, made of what the case gives, and their damaged objects.
use crate::harm::{harmed, harmed_digest};
use fp_base::{Blob, ObjKind, Text};
use fp_host::{Path, is_link_text};
use fp_name::{Digest, RefName};
use fpk_case_text::{
    Action, CaseError, CommitLine, Fixture, FixtureKind, Harm, Name, ObjectWords, Owner, Step,
    Wrong, message, name_of,
};
use ost_commit::{BuildError, Built, BuiltObject, TreeRow, commit_tree};
use ost_content::{file_digest, is_permission, link_digest};
use ost_model::{Object, STORE_CONFIG};
use ost_object::commit_root;
use ost_store::path_of;
use std::alloc::{AllocError, Global};
use std::thread::Threads;

/// The file, symlink or directory at a path of a remote.
#[derive(Drop)]
pub enum Ware {
    /// A file with these permission bits and bytes.
    File { mode: u32, bytes: Vec<u8> },
    /// A symlink with this text.
    Link { text: String },
    /// A directory.
    Folder,
    /// Nothing, not even a symlink.
    Nothing,
}

/// A path of a remote, with the file, symlink or directory there.
#[derive(Drop)]
pub struct RemotePath {
    /// The URL of the remote.
    pub url: String,
    /// The path below the URL.
    pub path: String,
    /// The file, symlink or directory at the path.
    pub ware: Ware,
}

/// A commit, with its label in the case and the digests of its files and symlinks.
#[derive(Drop)]
pub struct MadeCommit {
    label: String,
    /// The commit and all its objects.
    pub built: Built,
    files: Vec<(String, Digest)>,
    /// The files, directories and symlinks that it was made of.
    pub rows: Vec<TreeRow>,
}

impl MadeCommit {
    /// Returns the digest of the file or symlink at this path of the commit.
    pub fn file_digest(&self, path: &str) -> Option<Digest> {
        let (_path, digest) = self.files.iter().find(|file| file.0.as_str() == path)?;
        Some(*digest)
    }
}

/// The remotes of a case.
#[derive(Drop)]
pub struct Wares {
    alloc: Global,
    /// The URL of the current remote, which the next lines are about.
    url: String,
    paths: Vec<RemotePath>,
    commits: Vec<MadeCommit>,
}

impl Wares {
    /// Creates a set without remotes.
    pub fn new(alloc: Global) -> Self {
        Wares {
            alloc,
            url: String::new(alloc),
            paths: Vec::new(alloc),
            commits: Vec::new(alloc),
        }
    }

    /// Returns the paths of all remotes, with what is there.
    pub fn paths(&self) -> &[RemotePath] {
        &self.paths
    }

    /// Does what a step asks of the remotes. For a commit, it reads the steps after it, too.
    /// Returns the line that can't be done, if there is one.
    pub fn take<T: Threads + Sync>(
        &mut self,
        rt: &T,
        step: &Step,
        after: &[Step],
    ) -> Result<Option<Wrong>, AllocError> {
        if let Action::Commit(line) = &step.action {
            return self.commit(rt, line, step.line, after);
        }
        let text = self.take_alone(step)?;
        Ok(at_line(step.line, text))
    }

    /// Does what the step at this index asks of the remotes. A step that can't be done is left out.
    pub fn take_next<T: Threads + Sync>(
        &mut self,
        rt: &T,
        steps: &[Step],
        at: usize,
    ) -> Result<(), AllocError> {
        if let Some(step) = steps.get(at) {
            let after = steps.get(at.saturating_add(1)..).unwrap_or(&[]);
            let _refused = self.take(rt, step, after)?;
        }
        Ok(())
    }

    /// Does what a step asks of the remotes, if it needs none of the steps after it. Returns the
    /// reason why it can't be done, if there is one.
    fn take_alone(&mut self, step: &Step) -> Result<Option<String>, AllocError> {
        match &step.action {
            Action::BeginRemote { url } => self.begin(url),
            Action::Offer { name, label } => self.offer(name, label),
            Action::Break { object, harm } => self.harm(object, *harm),
            Action::Replace { object, other } => self.replace(object, other),
            Action::Give(given) => self.give(given, step.bytes()),
            _ => Ok(None),
        }
    }

    /// Makes the remote with this URL the current one. A new one gets the `config` of a repository.
    fn begin(&mut self, url: &str) -> Result<Option<String>, AllocError> {
        self.url = String::from_str(self.alloc, url)?;
        if self.find("config").is_none() {
            let bytes = Vec::from_slice(self.alloc, STORE_CONFIG.as_bytes())?;
            self.put("config", Ware::File { mode: 0o644, bytes })?;
        }
        Ok(None)
    }

    /// Puts a file, directory or symlink into the current remote, if it is given to the remote
    /// itself.
    fn give(&mut self, given: &Fixture, bytes: &[u8]) -> Result<Option<String>, AllocError> {
        if !given.owner.is_remote() {
            return Ok(None);
        }
        let ware = ware_of(self.alloc, given, bytes)?;
        self.put(&given.path, ware)?;
        Ok(None)
    }

    /// Returns the index of a path of the current remote.
    fn find(&self, path: &str) -> Option<usize> {
        let url = self.url.as_str();
        self.paths
            .iter()
            .position(|row| row.url.as_str() == url && row.path.as_str() == path)
    }

    /// Puts something at a path of the current remote, and replaces what is there.
    fn put(&mut self, path: &str, ware: Ware) -> Result<(), AllocError> {
        match self.find(path) {
            Some(at) => {
                if let Some(row) = self.paths.get_mut(at) {
                    row.ware = ware;
                }
            }
            None => {
                let url = self.url.clone()?;
                let path = String::from_str(self.alloc, path)?;
                self.paths.push(RemotePath { url, path, ware })?;
            }
        }
        Ok(())
    }

    /// Makes a commit of the steps that give its files.
    fn commit<T: Threads + Sync>(
        &mut self,
        rt: &T,
        line: &CommitLine,
        number: u64,
        after: &[Step],
    ) -> Result<Option<Wrong>, AllocError> {
        let alloc = self.alloc;
        let given = commit_steps(after);
        let Ok(name) = RefName::parse(alloc, line.name.as_bytes()) else {
            return Ok(at_line(number, message(alloc, "this is no ref")?));
        };
        let mut rows = Vec::new(alloc);
        for step in given {
            match row_of(alloc, step)? {
                Some(row) => rows.push(row)?,
                None => return Ok(at_line(step.line, message(alloc, "this is no path")?)),
            }
        }
        match commit_tree(rt, alloc, &rows, &name, "", line.time) {
            Ok(built) => Ok(at_line(number, self.store(line, built, rows)?)),
            Err(error) => refused(alloc, error, number, given),
        }
    }

    /// Puts the objects of a commit into the current remote, and offers it.
    fn store(
        &mut self,
        line: &CommitLine,
        built: Built,
        rows: Vec<TreeRow>,
    ) -> Result<Option<String>, AllocError> {
        let alloc = self.alloc;
        for object in built.objects.as_slice() {
            let path = path_of(alloc, &Path::root(alloc), &object.digest, object.kind)?;
            self.put(path.text(), object_ware(alloc, &object.object)?)?;
        }
        self.commits.push(MadeCommit {
            label: line.label.clone()?,
            built,
            files: files_of(alloc, &rows)?,
            rows,
        })?;
        self.offer(&line.name, &line.label)
    }

    /// Lets the current remote offer a commit under a ref.
    fn offer(&mut self, name: &str, label: &str) -> Result<Option<String>, AllocError> {
        let alloc = self.alloc;
        let Some(digest) = self.commit_digest(label) else {
            return message(alloc, "no commit is called so");
        };
        let mut said = digest.write(alloc)?.into_string();
        said.push('\n')?;
        let path = format!(in alloc; "refs/heads/{name}")?;
        let bytes = Vec::from_slice(alloc, said.as_bytes())?;
        self.put(&path, Ware::File { mode: 0o644, bytes })?;
        Ok(None)
    }

    /// Returns the commits that were made.
    pub fn commits(&self) -> &[MadeCommit] {
        &self.commits
    }

    /// Returns the commit with this label.
    fn commit_of_label(&self, label: &str) -> Option<&MadeCommit> {
        self.commits
            .iter()
            .find(|made| made.label.as_str() == label)
    }

    fn commit_digest(&self, label: &str) -> Option<Digest> {
        Some(self.commit_of_label(label)?.built.commit)
    }

    /// Returns the object that the words name.
    fn object(&self, words: &ObjectWords) -> Option<&BuiltObject> {
        let made = self.commit_of_label(&words.label)?;
        let digest = digest_in(self.alloc, made, words)?;
        object_in(made, &digest, words.kind)
    }

    /// Damages an object of the current remote.
    fn harm(&mut self, words: &ObjectWords, harm: Harm) -> Result<Option<String>, AllocError> {
        let alloc = self.alloc;
        let Some(object) = self.object(words) else {
            return message(alloc, "there is no such object");
        };
        let path = path_of(alloc, &Path::root(alloc), &object.digest, object.kind)?;
        match harmed(alloc, &object.object, harm)? {
            Some(ware) => {
                self.put(path.text(), ware)?;
                Ok(None)
            }
            None => message(alloc, "this object can't be broken so"),
        }
    }

    /// Puts another object in the place of an object of the current remote.
    fn replace(
        &mut self,
        words: &ObjectWords,
        other: &ObjectWords,
    ) -> Result<Option<String>, AllocError> {
        let alloc = self.alloc;
        let (Some(object), Some(other)) = (self.object(words), self.object(other)) else {
            return message(alloc, "there is no such object");
        };
        let path = path_of(alloc, &Path::root(alloc), &object.digest, object.kind)?;
        let ware = object_ware(alloc, &other.object)?;
        self.put(path.text(), ware)?;
        Ok(None)
    }

    /// Returns the hexadecimal digest that a name in braces stands for; none if it names nothing.
    pub fn digits(&self, name: &str) -> Result<Option<[u8; 64]>, AllocError> {
        match read_name(self.alloc, name)? {
            Some(name) => self.digits_of(&name),
            None => Ok(None),
        }
    }

    /// Returns the path of an object in the installation; none if the name names no object.
    pub fn place(&self, name: &str) -> Result<Option<Path>, AllocError> {
        let Some(name) = read_name(self.alloc, name)? else {
            return Ok(None);
        };
        let Some(object) = self.object(&name.object) else {
            return Ok(None);
        };
        let store = Path::root(self.alloc).child("repo")?;
        Ok(Some(path_of(self.alloc, &store, &object.digest, object.kind)?))
    }

    /// Returns the hexadecimal digest of a name; none if it names nothing.
    fn digits_of(&self, name: &Name) -> Result<Option<[u8; 64]>, AllocError> {
        let Some(object) = self.object(&name.object) else {
            return Ok(None);
        };
        let digest = match name.harm {
            Some(harm) => harmed_digest(self.alloc, &object.object, harm)?,
            None => Some(object.digest),
        };
        Ok(digest.map(|digest| digest.digits()))
    }
}

/// Parses a name. Returns none if it isn't one.
fn read_name(alloc: Global, name: &str) -> Result<Option<Name>, AllocError> {
    match name_of(alloc, name) {
        Ok(name) => Ok(Some(name)),
        Err(CaseError::NoMemory) => Err(AllocError),
        Err(_) => Ok(None),
    }
}

/// Returns what is given in the form that a remote has it.
fn ware_of(alloc: Global, given: &Fixture, bytes: &[u8]) -> Result<Ware, AllocError> {
    match &given.kind {
        FixtureKind::File { mode } => Ok(Ware::File {
            mode: *mode,
            bytes: Vec::from_slice(alloc, bytes)?,
        }),
        FixtureKind::Folder => Ok(Ware::Folder),
        FixtureKind::Link { text } => Ok(Ware::Link {
            text: text.clone()?,
        }),
        FixtureKind::HardLink { .. } => Ok(Ware::Nothing),
    }
}

/// Returns an object in the form that a remote has it.
pub fn object_ware(alloc: Global, object: &Object) -> Result<Ware, AllocError> {
    match object {
        Object::Meta(bytes) => Ok(Ware::File {
            mode: 0o644,
            bytes: Vec::from_slice(alloc, bytes.as_slice())?,
        }),
        Object::File { mode, bytes } => Ok(Ware::File {
            mode: *mode,
            bytes: Vec::from_slice(alloc, bytes.as_slice())?,
        }),
        Object::Link(text) => Ok(Ware::Link {
            text: String::from_str(alloc, text.as_str())?,
        }),
    }
}

/// Returns the text as the message of the line with this number.
fn at_line(line: u64, text: Option<String>) -> Option<Wrong> {
    let text = text?;
    Some(Wrong { line, text })
}

/// Returns the reason why no commit can be made of the steps, at the line of the refused step or
/// else at this line.
fn refused(
    alloc: Global,
    error: BuildError,
    line: u64,
    given: &[Step],
) -> Result<Option<Wrong>, AllocError> {
    match error {
        BuildError::NoMemory => Err(AllocError),
        BuildError::Row(number) => {
            let step = given.get((number as usize).saturating_sub(1));
            let line = step.map(|step| step.line).unwrap_or(line);
            Ok(at_line(line, message(alloc, "this can't be in the commit")?))
        }
        BuildError::Collision | BuildError::TooLarge => {
            Ok(at_line(line, message(alloc, "this commit is too large")?))
        }
    }
}

/// Returns the first steps, up to one that gives nothing to the commit above.
fn commit_steps(steps: &[Step]) -> &[Step] {
    let end = steps.iter().position(|step| !gives_to_commit(step));
    match end {
        Some(end) => steps.get(..end).unwrap_or(&[]),
        None => steps,
    }
}

fn gives_to_commit(step: &Step) -> bool {
    match &step.action {
        Action::Give(given) => matches!(&given.owner, Owner::Commit),
        _ => false,
    }
}

/// Returns the row that a step gives to a commit; none if its path is invalid or it is a hard link.
fn row_of(alloc: Global, step: &Step) -> Result<Option<TreeRow>, AllocError> {
    let Action::Give(given) = &step.action else {
        return Ok(None);
    };
    let Ok(path) = Path::parse(alloc, &given.path) else {
        return Ok(None);
    };
    Ok(match &given.kind {
        FixtureKind::File { mode } => Some(TreeRow::File {
            path,
            mode: *mode,
            bytes: Blob::from_slice(alloc, step.bytes())?,
        }),
        FixtureKind::Folder => Some(TreeRow::Dir(path)),
        FixtureKind::Link { text } => Some(TreeRow::Link {
            path,
            target: Text::from_str(alloc, text)?,
        }),
        FixtureKind::HardLink { .. } => None,
    })
}

/// Returns the paths of files and symlinks, with the digests of their objects.
fn files_of(alloc: Global, rows: &[TreeRow]) -> Result<Vec<(String, Digest)>, AllocError> {
    let mut files = Vec::new(alloc);
    for row in rows {
        if let Some(digest) = row_digest(alloc, row)? {
            files.push((String::from_str(alloc, row.path().text())?, digest))?;
        }
    }
    Ok(files)
}

fn row_digest(alloc: Global, row: &TreeRow) -> Result<Option<Digest>, AllocError> {
    match row {
        TreeRow::File { mode, bytes, .. } if is_permission(*mode) => {
            Ok(Some(file_digest(*mode, bytes.as_slice())))
        }
        TreeRow::Link { target, .. } if is_link_text(target.as_str()) => {
            Ok(Some(link_digest(alloc, target.as_str())?))
        }
        _ => Ok(None),
    }
}

/// Returns the digest of an object of a commit: of the commit itself, a file or symlink by its
/// path, or the root's dirtree or dirmeta.
fn digest_in(alloc: Global, made: &MadeCommit, words: &ObjectWords) -> Option<Digest> {
    match words.kind {
        ObjKind::File => made.file_digest(&words.path),
        ObjKind::Commit => Some(made.built.commit),
        ObjKind::DirTree | ObjKind::DirMeta => root_in(alloc, made, words.kind),
    }
}

/// Returns the digest of the root's dirtree or dirmeta.
fn root_in(alloc: Global, made: &MadeCommit, kind: ObjKind) -> Option<Digest> {
    let commit = object_in(made, &made.built.commit, ObjKind::Commit)?;
    let Object::Meta(bytes) = &commit.object else {
        return None;
    };
    let root = commit_root(alloc, bytes.as_slice()).ok()?;
    match kind {
        ObjKind::DirTree => Some(root.tree),
        _ => Some(root.meta),
    }
}

fn object_in<'a>(made: &'a MadeCommit, digest: &Digest, kind: ObjKind) -> Option<&'a BuiltObject> {
    made.built
        .objects
        .as_slice()
        .iter()
        .find(|object| object.digest == *digest && object.kind == kind)
}
