//! The names, paths and metadata of generated refs.
ghost use Rattle.std.specs.Prelude.{◌≡◌, ◌∷◌, IfOk, codes, string_bytes};
ghost use Rattle.fp_name.specs.Refs.{ref_with};
ghost use Rattle.fl_gen.specs.Made as made;

use crate::limits::RUNTIMES;
use fp_base::Blob;
use fp_host::Path;
use fp_name::{RefKind, RefName, RemoteName, RemoteUrl};
use std::alloc::{AllocError, Global};

/// Returns a word and a number without a space between them.
pub(crate) fn numbered(alloc: Global, word: &str, number: usize) -> Result<String, AllocError>
    ensures { IfOk result (λ name. string_bytes name ≡ made.numbered word.now number) }
{
    format!(in alloc; "{word}{number}")
}

/// Returns a path with one more element. Errs with `AllocError` also for a bad element, which the
/// generator never makes.
fn path_below(above: &Path, name: &str) -> Result<Path, AllocError>
    ensures { IfOk result (λ path. path ≡ name.now ∷ above.now) }
{
    match above.join(name) {
        Ok(path) => Ok(path),
        Err(_) => Err(AllocError),
    }
}

/// Returns the path of this name at the root.
pub(crate) fn path_at_root(alloc: Global, name: &str) -> Result<Path, AllocError>
    ensures { IfOk result (λ path. path ≡ made.at_root name.now) }
{
    path_below(&Path::root(alloc), name)
}

/// Returns the path of this name in the directory `files`.
pub(crate) fn path_in_files(alloc: Global, name: &str) -> Result<Path, AllocError>
    ensures { IfOk result (λ path. path ≡ made.in_files name.now) }
{
    path_below(&path_at_root(alloc, "files")?, name)
}

/// Returns the ref of this kind and ID, for the architecture `x86_64` and the branch `1`. Errs with
/// `AllocError` also for a bad ID, which the generator never makes.
fn ref_of(alloc: Global, kind: RefKind, id: &str) -> Result<RefName, AllocError>
    ensures { IfOk result (λ name. name ≡ ref_with kind id.now (codes "x86_64") (codes "1")) }
{
    match RefName::new(alloc, kind, id, "x86_64", "1") {
        Ok(name) => Ok(name),
        Err(_) => Err(AllocError),
    }
}

/// Returns the ref of the runtime with this number.
pub(crate) fn runtime_ref(alloc: Global, number: usize) -> Result<RefName, AllocError>
    ensures { IfOk result (λ name. name ≡ made.runtime_ref number) }
{
    let id = numbered(alloc, "org.gen.Run", number)?;
    ref_of(alloc, RefKind::Runtime, &id)
}

/// Returns the ref of the application with this number.
pub(crate) fn app_ref(alloc: Global, number: usize) -> Result<RefName, AllocError>
    ensures { IfOk result (λ name. name ≡ made.app_ref number) }
{
    let id = numbered(alloc, "org.gen.App", number)?;
    ref_of(alloc, RefKind::App, &id)
}

/// Returns the file `metadata` of the runtime with this number.
pub(crate) fn runtime_metadata(alloc: Global, number: usize) -> Result<Blob, AllocError>
    ensures { IfOk result (λ bytes. bytes ≡ made.runtime_metadata number) }
{
    let text = format!(in alloc; "[Runtime]\nname=org.gen.Run{number}\n")?;
    Blob::from_slice(alloc, text.as_bytes())
}

/// Returns the file `metadata` of the application with this number. It names one of the runtimes.
pub(crate) fn app_metadata(alloc: Global, number: usize) -> Result<Blob, AllocError>
    ensures { IfOk result (λ bytes. bytes ≡ made.app_metadata number) }
{
    let runtime = number % RUNTIMES;
    let text = format!(in alloc;
        "[Application]\nname=org.gen.App{number}\nruntime=org.gen.Run{runtime}/x86_64/1\n"
    )?;
    Blob::from_slice(alloc, text.as_bytes())
}

/// Returns the name of the remote that the commands add: `gen`.
pub(crate) fn remote_name(alloc: Global) -> Result<RemoteName, AllocError>
    ensures { IfOk result (λ name. name ≡ codes "gen") }
{
    match RemoteName::parse(alloc, b"gen") {
        Ok(name) => Ok(name),
        Err(_) => Err(AllocError),
    }
}

/// Parses a URL. Errs with `AllocError` also for a bad one, which the generator never makes.
pub(crate) fn url_of(alloc: Global, text: &str) -> Result<RemoteUrl, AllocError>
    ensures { IfOk result (λ url. url ≡ text.now) }
{
    match RemoteUrl::parse(alloc, text.as_bytes()) {
        Ok(url) => Ok(url),
        Err(_) => Err(AllocError),
    }
}
