//! Showing the input as an object or a value.
ghost use Rattle.std.specs.Prelude.{◌≡◌, ◌++◌, IfOk, OnOk, map, string_bytes, codes};
ghost use Rattle.ost_model.specs.Contents.{meta_digest};
ghost use Rattle.std.specs.Option.{is_some};
ghost use Rattle.gv_value.specs.Reading.{value_of};
ghost use Rattle.gv_value.specs.Views.{shape_of};
ghost use Rattle.ost_object.specs.Views.{commit_view, file_row, dir_row, tree_view, meta_view, parent_bytes};
ghost use Rattle.fl_lines.specs.Lines.{line, octal};
ghost use Rattle.fl_top.specs.Answer.{commit_shown, tree_shown, meta_shown, value_shown, shown_by};
ghost use Rattle.fl_top.specs.Ends.{Prints, end_of_object};
ghost use Rattle.fl_top.specs.Objects.{head, root_lines, commit_lines, tree_lines, meta_lines, file_line, dir_line, files_text, dirs_text, parent_text};

use fl_change::RunEnd;
use fl_lines::{digits_of, escape, octal_of};
use fl_words::{Shown, ValueType};
use fp_base::{ObjKind, Text};
use fp_name::Digest;
use fp_small::Refusal;
use gv_decode::{DecodeError, check_normal};
use gv_value::GvType;
use ost_content::meta_digest;
use ost_object::{
    Commit, DirEntry, DirMeta, DirTree, FileEntry, ObjectError, read_commit, read_dirmeta,
    read_dirtree,
};
use std::alloc::{AllocError, Global};

/// Returns the text that `show` prints of these bytes, or refuses them.
pub(crate) fn shown_text(alloc: Global, thing: &Shown, bytes: &[u8]) -> Result<Text, RunEnd>
    ensures { Prints (shown_by thing.now bytes.now) result }
{
    match thing {
        Shown::Commit => commit_text(alloc, bytes),
        Shown::DirTree => tree_text(alloc, bytes),
        Shown::DirMeta => meta_text(alloc, bytes),
        Shown::Value(of) => value_text(alloc, of, bytes),
    }
}

/// Returns the lines of a commit: its digest and its fields. Refuses bytes that aren't one.
fn commit_text(alloc: Global, bytes: &[u8]) -> Result<Text, RunEnd>
    ensures { Prints (commit_shown bytes.now) result }
{
    match read_commit(alloc, bytes) {
        Ok(commit) => Ok(said_of_commit(alloc, bytes, &commit)?),
        Err(error) => Err(malformed(bytes, ObjKind::Commit, error)),
    }
}

/// Returns the lines of a dirtree: its digest, its files and its directories. Refuses bytes that
/// aren't one.
fn tree_text(alloc: Global, bytes: &[u8]) -> Result<Text, RunEnd>
    ensures { Prints (tree_shown bytes.now) result }
{
    match read_dirtree(alloc, bytes) {
        Ok(tree) => Ok(said_of_tree(alloc, bytes, &tree)?),
        Err(error) => Err(malformed(bytes, ObjKind::DirTree, error)),
    }
}

/// Returns the lines of a dirmeta: its digest and its mode. Refuses bytes that aren't one.
fn meta_text(alloc: Global, bytes: &[u8]) -> Result<Text, RunEnd>
    ensures { Prints (meta_shown bytes.now) result }
{
    match read_dirmeta(alloc, bytes) {
        Ok(meta) => Ok(said_of_meta(alloc, bytes, meta)?),
        Err(error) => Err(malformed(bytes, ObjKind::DirMeta, error)),
    }
}

/// Returns the line with the size in bytes of a value of this GVariant type in normal form. Refuses
/// bytes that aren't one.
fn value_text(alloc: Global, of: &ValueType, bytes: &[u8]) -> Result<Text, RunEnd>
    ensures { Prints (value_shown of.now bytes.now) result }
{
    if is_normal(alloc, of.as_type(), bytes)? {
        let size = bytes.len();
        let text = format!(in alloc; "normal {size}\n")?;
        return Ok(Text::from_string(text));
    }
    let digest = meta_digest(bytes);
    Err(RunEnd::Refused(Refusal::MalformedValue { digest }))
}

/// Returns whether bytes are the normal form of a value of this GVariant type.
fn is_normal(alloc: Global, of: &GvType, bytes: &[u8]) -> Result<bool, AllocError>
    ensures { IfOk result (λ normal. normal ≡ is_some (value_of (shape_of of.now) bytes.now)) }
{
    match check_normal(alloc, of, bytes) {
        Ok(()) => Ok(true),
        Err(DecodeError::TooLong) => Ok(false),
        Err(DecodeError::NotNormal) => Ok(false),
        Err(DecodeError::NoMemory) => Err(AllocError),
    }
}

/// Returns the error for bytes that can't be read as an object of this kind: a refusal with their
/// digest and the rule that they break, or `NoMemory` if memory ran out.
fn malformed(bytes: &[u8], kind: ObjKind, error: ObjectError) -> RunEnd
    ensures { result ≡ end_of_object (meta_digest bytes.now) kind error }
{
    match error {
        ObjectError::Malformed(rule) => {
            let digest = meta_digest(bytes);
            RunEnd::Refused(Refusal::MalformedObject { digest, kind, rule })
        }
        ObjectError::NoMemory => RunEnd::NoMemory,
    }
}

/// Returns a line with the commit's digest, and a line for each field.
fn said_of_commit(alloc: Global, bytes: &[u8], commit: &Commit) -> Result<Text, AllocError>
    ensures { IfOk result (λ t. t ≡ head (meta_digest bytes.now) (codes "commit") ++ commit_lines
        (commit_view commit.now)) }
{
    let digest = digits_of(alloc, &meta_digest(bytes))?;
    let fields = fields_of(alloc, commit)?;
    let text = format!(in alloc; "{digest} commit\n{fields}")?;
    Ok(Text::from_string(text))
}

/// Returns a line for each field of a commit.
fn fields_of(alloc: Global, commit: &Commit) -> Result<String, AllocError>
    ensures { IfOk result (λ t. string_bytes t ≡ commit_lines (commit_view commit.now)) }
{
    let parent = parent_of(alloc, &commit.parent)?;
    let time = commit.timestamp;
    let subject = escape(alloc, commit.subject.as_str())?;
    let roots = roots_of(alloc, commit)?;
    format!(in alloc; "parent {parent}\ntimestamp {time}\nsubject {subject}\n{roots}")
}

/// Returns a line for each digest of the commit's root: of its dirtree and of its dirmeta.
fn roots_of(alloc: Global, commit: &Commit) -> Result<String, AllocError>
    ensures { IfOk result (λ t. string_bytes t ≡ root_lines (commit_view commit.now)) }
{
    let tree = digits_of(alloc, &commit.tree)?;
    let meta = digits_of(alloc, &commit.meta)?;
    format!(in alloc; "tree {tree}\nmeta {meta}\n")
}

/// Returns the digest of a parent as hexadecimal digits, or `-` if there is none.
#[tactic(auto, using(crate::proofs::Shown::some_parent))]
fn parent_of(alloc: Global, parent: &Option<Digest>) -> Result<String, AllocError>
    ensures { IfOk result (λ t. string_bytes t ≡ parent_text (parent_bytes parent.now)) }
{
    match parent {
        Some(digest) => digits_of(alloc, digest),
        None => "-".to_string(alloc),
    }
}

/// Returns a line with the dirtree's digest, and a line for each file and each directory.
fn said_of_tree(alloc: Global, bytes: &[u8], tree: &DirTree) -> Result<Text, AllocError>
    ensures { IfOk result (λ t. t ≡ head (meta_digest bytes.now) (codes "dirtree") ++ tree_lines
        (tree_view tree.now)) }
{
    let digest = digits_of(alloc, &meta_digest(bytes))?;
    let files = files_in(alloc, tree.files.as_slice())?;
    let dirs = dirs_in(alloc, tree.dirs.as_slice())?;
    let text = format!(in alloc; "{digest} dirtree\n{files}{dirs}")?;
    Ok(Text::from_string(text))
}

/// Returns a line for each file.
fn files_in(alloc: Global, files: &[FileEntry]) -> Result<String, AllocError>
    ensures { IfOk result (λ t. string_bytes t ≡ files_text (map file_row files.now)) }
{
    let mut text = String::new(alloc);
    for file in files {
        push_file(alloc, &mut text, file)?;
    }
    Ok(text)
}

/// Appends the line of a file.
fn push_file(alloc: Global, out: &mut String, file: &FileEntry) -> Result<(), AllocError>
    ensures { OnOk result (string_bytes out.new ≡ string_bytes out.old ++ file_line
        (file_row file.now)) }
{
    let name = escape(alloc, file.name.as_str())?;
    let digest = digits_of(alloc, &file.digest)?;
    write!(out, "file {name} {digest}\n")
}

/// Returns a line for each directory.
fn dirs_in(alloc: Global, dirs: &[DirEntry]) -> Result<String, AllocError>
    ensures { IfOk result (λ t. string_bytes t ≡ dirs_text (map dir_row dirs.now)) }
{
    let mut text = String::new(alloc);
    for dir in dirs {
        push_dir(alloc, &mut text, dir)?;
    }
    Ok(text)
}

/// Appends the line of a directory.
fn push_dir(alloc: Global, out: &mut String, dir: &DirEntry) -> Result<(), AllocError>
    ensures { OnOk result (string_bytes out.new ≡ string_bytes out.old ++ dir_line
        (dir_row dir.now)) }
{
    let name = escape(alloc, dir.name.as_str())?;
    let tree = digits_of(alloc, &dir.tree)?;
    let meta = digits_of(alloc, &dir.meta)?;
    write!(out, "dir {name} {tree} {meta}\n")
}

/// Returns a line with the dirmeta's digest, and a line with its mode.
fn said_of_meta(alloc: Global, bytes: &[u8], meta: DirMeta) -> Result<Text, AllocError>
    ensures { IfOk result (λ t. t ≡ head (meta_digest bytes.now) (codes "dirmeta") ++ meta_lines
        (meta_view meta)) }
{
    let digest = digits_of(alloc, &meta_digest(bytes))?;
    let mode = mode_line(alloc, meta.mode)?;
    let text = format!(in alloc; "{digest} dirmeta\n{mode}")?;
    Ok(Text::from_string(text))
}

/// Returns the line of a mode, which is printed in octal.
fn mode_line(alloc: Global, mode: u32) -> Result<String, AllocError>
    ensures { IfOk result (λ t. string_bytes t ≡ line (codes "mode " ++ octal mode)) }
{
    let mode = octal_of(alloc, mode)?;
    format!(in alloc; "mode {mode}\n")
}
