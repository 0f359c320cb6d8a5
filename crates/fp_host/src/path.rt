//! A path below the host's root. Contracts see it as the list of its elements, the innermost first.
ghost use Rattle.std.specs.Prelude.{◌≡◌, ◌≢◌, ◌↔◌, ◌⊎◌, ℕ, List, ◌∷◌, ◌<◌, ◌≤◌, ◌+◌, [], length, drop, IsTrue, IsOk, IfOk, IfSome, IsNone, IsErrOf, MatchOption, false, count_by, ◌==◌, ◌++◌, string_bytes};
ghost use Rattle.std.specs.List.{list_all};
ghost use Rattle.fp_host.specs.Paths.{is_element, is_name_byte, cut, elements_of, path_text, path_eq, IsAbove};
ghost use Rattle.fp_host.specs.declared.path.PathError.TheVariants.{NoMemory};

use crate::limits::MOST_ELEMENT_BYTES;
use std::alloc::{AllocError, Global};
use std::error::Error;
use std::fmt;
use std::marker::Model;

/// The reason why a text is no path, or can't be added to one as an element.
#[derive(Clone, Copy, Debug, PartialEq, Eq)]
pub enum PathError {
    /// An element is empty, longer than 255 bytes, `.` or `..`, or has a slash or a zero byte.
    Bad,
    /// Memory ran out.
    NoMemory,
}

impl fmt::Display for PathError {
    fn fmt<W: fmt::Write>(&self, f: &mut fmt::Formatter<W>) -> fmt::Result {
        match self {
            PathError::Bad => write!(f, "bad path"),
            PathError::NoMemory => write!(f, "out of memory"),
        }
    }
}

impl Error for PathError {}

impl From<AllocError> for PathError {
    ghost from_gives = { λ _ e. e ≡ NoMemory };

    fn from(_: AllocError) -> PathError {
        PathError::NoMemory
    }
}

/// A path below the root of a host. Each of its elements has 1 to 255 bytes, has no slash and no
/// zero byte, and is neither `.` nor `..`. The root has no elements.
#[derive(Debug, Drop)]
pub struct Path {
    // The elements joined by slashes; empty for the root.
    text: String,
}

impl Model for Path {
    ghost use Rattle.std.specs.Prelude.{◌≡◌, List, ℕ, true, string_bytes};
    ghost use Rattle.std.specs.List.{list_all};
    ghost use Rattle.fp_host.specs.Paths.{is_element, is_name_byte, elements_of};

    ghost Value = { List (List ℕ) };

    ghost view = { λ p. elements_of (string_bytes p.text) };

    ghost invariant = { λ p. list_all is_element (elements_of (string_bytes p.text)) ≡ true };
}

/// Returns whether the text may be an element of a path: 1 to 255 bytes without a slash or zero
/// byte, and neither `.` nor `..`.
pub fn is_element(text: &str) -> bool
    ensures { result ≡ is_element text.now }
{
    let bytes = text.as_bytes();
    if bytes.is_empty() || bytes.len() > MOST_ELEMENT_BYTES {
        return false;
    }
    if !are_name_bytes(bytes) {
        return false;
    }
    if text == "." || text == ".." {
        return false;
    }
    true
}

/// Returns whether no byte is a slash or zero.
fn are_name_bytes(bytes: &[u8]) -> bool
    ensures { result ≡ list_all is_name_byte bytes.now }
{
    bytes.iter().all(|b| !(*b == b'/' || *b == 0))
}

/// Splits the text at its last slash, which neither part includes. Returns `None` if it has no
/// slash.
fn around_last(text: &str) -> Option<(&str, &str)>
    ensures around { IfSome result (λ parts. cut text.now ≡ parts.1.now ∷ cut parts.0.now) }
    ensures shorter { IfSome result (λ parts. length parts.0.now < length text.now) }
    ensures none { IsNone result → cut text.now ≡ text.now ∷ [] }
{
    let at = text.rfind('/')?;
    Some((&text[..at], &text[at + 1..]))
}

/// Returns whether the text is elements joined by slashes, which is the text of a path that isn't
/// the root.
pub fn are_elements(text: &str) -> bool
    ensures { result ≡ list_all is_element (cut text.now) }
{
    let mut left = text;
    while let Some((front, last)) = around_last(left) {
        if !is_element(last) {
            return false;
        }
        left = front;
    }
    is_element(left)
}

/// Joins the two texts by a slash. Allocates once.
fn joined(alloc: Global, above: &str, element: &str) -> Result<String, AllocError>
    ensures { IfOk result (λ text. string_bytes text ≡ above.now ++ 47 ∷ element.now) }
{
    let room = above.len().saturating_add(1).saturating_add(element.len());
    let mut text = String::with_capacity(alloc, room)?;
    text.push_str(above)?;
    text.push_str("/")?;
    text.push_str(element)?;
    Ok(text)
}

/// Returns the text without its last element; the empty text if it has one element or none.
fn front(text: &str) -> &str
    requires { IsTrue (list_all is_element (elements_of text.now)) }
    ensures front { elements_of result.now ≡ drop 1 (elements_of text.now) }
    ensures good { IsTrue (list_all is_element (elements_of result.now)) }
{
    match around_last(text) {
        Some((front, _)) => front,
        None => "",
    }
}

/// Returns the last element of a text that isn't empty.
fn last(text: &str) -> &str
    requires { text.now ≢ [] }
    ensures { elements_of text.now ≡ result.now ∷ drop 1 (elements_of text.now) }
{
    match around_last(text) {
        Some((_, last)) => last,
        None => text,
    }
}

impl Path {
    /// Returns the root. Allocates nothing.
    pub fn root(alloc: Global) -> Self
        ensures { result ≡ [] }
    {
        Path {
            text: String::new(alloc),
        }
    }

    /// Parses elements joined by slashes. Errs with `Bad` if one of them may not be an element, and
    /// with `NoMemory` if memory runs out. The empty text, which `text` returns for the root, is
    /// `Bad` too.
    pub fn parse(alloc: Global, text: &str) -> Result<Self, PathError>
        ensures path { IfOk result (λ p. p ≡ cut text.now) }
        ensures text { IfOk result (λ p. path_text p ≡ text.now) }
        ensures ok { IsOk result → IsTrue (list_all is_element (cut text.now)) }
        ensures bad { IsErrOf result PathError.Bad → list_all is_element (cut text.now) ≡ false }
    {
        if !are_elements(text) {
            return Err(PathError::Bad);
        }
        Ok(Path {
            text: text.to_string(alloc)?,
        })
    }

    /// Returns the elements joined by slashes; the root's text is empty. `parse` reads the text of
    /// any other path back. Allocates nothing.
    pub fn text(&self) -> &str
        ensures text { result.now ≡ path_text self.now }
        ensures back { elements_of result.now ≡ self.now }
        ensures good { IsTrue (list_all is_element self.now) }
    {
        &self.text
    }

    /// Returns the number of elements.
    pub fn len(&self) -> usize
        ensures { result ≡ length self.now }
    {
        let text = self.text.as_str();
        if text.is_empty() {
            return 0;
        }
        count_slashes(text) + 1
    }

    /// Returns whether this is the root.
    pub fn is_root(&self) -> bool
        ensures { IsTrue result ↔ (self.now ≡ []) }
    {
        self.text.is_empty()
    }

    /// Returns the innermost element, or `None` for the root.
    pub fn name(&self) -> Option<&str>
        ensures root { IsNone result ↔ (self.now ≡ []) }
        ensures name { IfSome result (λ x. self.now ≡ x.now ∷ drop 1 self.now) }
        ensures good { IfSome result (λ x. IsTrue (is_element x.now)) }
    {
        let text = self.text.as_str();
        if text.is_empty() {
            return None;
        }
        Some(last(text))
    }

    /// Returns the path with one element added below it. The text must be known to be an element.
    pub fn child(&self, element: &str) -> Result<Self, AllocError>
        requires { IsTrue (is_element element.now) }
        ensures { IfOk result (λ p. p ≡ element.now ∷ self.now) }
    {
        let alloc = *self.text.allocator();
        let above = self.text.as_str();
        if above.is_empty() {
            return Ok(Path {
                text: element.to_string(alloc)?,
            });
        }
        Ok(Path {
            text: joined(alloc, above, element)?,
        })
    }

    /// Returns the path with one element added below it. Errs with `Bad` if the text may not be an
    /// element.
    pub fn join(&self, element: &str) -> Result<Self, PathError>
        ensures path { IfOk result (λ p. p ≡ element.now ∷ self.now) }
        ensures ok { IsOk result → IsTrue (is_element element.now) }
        ensures bad { IsErrOf result PathError.Bad → is_element element.now ≡ false }
    {
        if !is_element(element) {
            return Err(PathError::Bad);
        }
        Ok(self.child(element)?)
    }

    /// Returns the ancestor that is `up` levels above; 0 is the path itself.
    pub fn folder(&self, up: usize) -> Result<Self, AllocError>
        requires { up ≤ length self.now }
        ensures { IfOk result (λ p. p ≡ drop up self.now) }
    {
        let mut text = self.text.as_str();
        for _i in 0..up {
            text = front(text);
        }
        Ok(Path {
            text: text.to_string(*self.text.allocator())?,
        })
    }

    /// Returns a copy. Errs if memory runs out.
    pub fn copy(&self) -> Result<Self, AllocError>
        ensures { IfOk result (λ p. p ≡ self.now) }
    {
        Ok(Path {
            text: self.text.clone()?,
        })
    }

    /// Returns whether this path is a proper ancestor of the other.
    pub fn is_above(&self, other: &Path) -> bool
        ensures { IsTrue result ↔ IsAbove self.now other.now }
    {
        let mut up = other.text.as_str();
        while !up.is_empty() {
            up = front(up);
            if up == self.text.as_str() {
                return true;
            }
        }
        false
    }

    /// Returns whether the two paths are equal.
    pub fn is(&self, other: &Path) -> bool
        ensures { result ≡ path_eq self.now other.now }
    {
        self.text == other.text
    }
}

/// Returns the number of slashes.
fn count_slashes(text: &str) -> usize
    ensures count { result ≡ count_by (λ b. b == 47) text.now }
    ensures small { result ≤ length text.now }
{
    text.as_bytes().iter().filter(|b| **b == b'/').count()
}
