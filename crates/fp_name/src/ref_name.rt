//! Refs: the full names of applications, runtimes and extensions.

ghost use Rattle.std.specs.Prelude.{◌≡◌, ◌↔◌, true, false, ◌∷◌, ◌++◌, Some, None, IsTrue, IfOk, OnOk, IsErrOf, is_some};
ghost use Rattle.std.specs.Ordering.{nat_cmp};
ghost use Rattle.std.specs.Cmp.Lexicographic.{slice_cmp};
ghost use Rattle.std.specs.Str.{bytes_eq};
ghost use Rattle.std.specs.Cmp.{partial_order_from_own_ties};
ghost use Rattle.std.specs.Cmp.Rules.{comparing};
ghost use Rattle.std.proofs.Common.{rules};
ghost use Rattle.fp_name.specs.Refs.{ref_of};

use crate::app_id::AppId;
use crate::fault::NameError;
use crate::kind::RefKind;
use crate::parts::{Parts, is_ref, parts_of, parts_remainder};
use fp_base::Text;
use std::alloc::{AllocError, Global};
use std::cmp::Ordering;
use std::marker::Model;
use std::str;

/// A ref, the full name of an application (`app/ID/ARCH/BRANCH`) or of a runtime or extension
/// (`runtime/ID/ARCH/BRANCH`).
#[derive(Debug, Drop)]
pub struct RefName {
    text: Text,
}

impl Model for RefName {
    ghost use Rattle.std.specs.Prelude.{IsSome};
    ghost use Rattle.fp_name.specs.Refs.{Ref, ref_of, ref_at};

    ghost Value = { Ref };

    ghost view = { λ a. ref_at a.text };

    ghost invariant = { λ a. IsSome (ref_of a.text) };
}

impl RefName {
    ghost use Rattle.fp_name.specs.Refs.{is_ref, ref_text, ref_of, ref_with};
    ghost use Rattle.fp_name.specs.Kinds.{kind_word};
    ghost use Rattle.fp_name.specs.Grammar.{is_id, is_arch, is_branch};
    ghost use Rattle.fp_name.specs.Parts.{ref_in};

    /// Parses a ref. Errs with `Bad` exactly if the text isn't one, and with `NoMemory` if memory
    /// runs out.
    #[tactic(auto, using(crate::proofs::Refs::no_text_no_ref))]
    pub fn parse(alloc: Global, text: &[u8]) -> Result<Self, NameError>
        ensures ok { IfOk result (λ name. ref_of text.now ≡ Some name) }
        ensures bad { IsErrOf result NameError.Bad ↔ (ref_of text.now ≡ None) }
    {
        let Ok(text) = str::from_utf8(text) else {
            return Err(NameError::Bad);
        };
        if !is_ref(text) {
            return Err(NameError::Bad);
        }
        Ok(RefName {
            text: Text::from_str(alloc, text)?,
        })
    }

    /// Creates a ref of its parts. Errs with `Bad` exactly if one of them is outside its grammar.
    pub fn new(
        alloc: Global,
        kind: RefKind,
        id: &str,
        arch: &str,
        branch: &str,
    ) -> Result<Self, NameError>
        ensures ok { IfOk result (λ name. name ≡ ref_with kind id.now arch.now branch.now) }
        ensures good { OnOk result (is_ref (ref_with kind id.now arch.now branch.now) ≡ true) }
        ensures bad { IsErrOf result NameError.Bad ↔ (is_ref
            (ref_with kind id.now arch.now branch.now) ≡ false) }
    {
        let parts = Parts {
            kind,
            id,
            arch,
            branch,
        };
        if !parts.are_ref() {
            return Err(NameError::Bad);
        }
        Ok(RefName {
            text: parts.join(alloc)?,
        })
    }

    /// Creates a ref of a kind and a text `ID/ARCH/BRANCH`. Errs with `Bad` exactly if they don't
    /// make a ref.
    #[tactic(auto, using(crate::proofs::Refs::ref_of_kind, crate::proofs::Refs::made, crate::proofs::Refs::refused))]
    pub fn of_kind(alloc: Global, kind: RefKind, text: &str) -> Result<Self, NameError>
        ensures ok { IfOk result (λ name. ref_of (kind_word kind ++ 47 ∷ text.now) ≡ Some name) }
        ensures bad { IsErrOf result NameError.Bad ↔ (ref_of (kind_word kind ++ 47 ∷ text.now) ≡
            None) }
    {
        let Some(parts) = parts_remainder(kind, text) else {
            return Err(NameError::Bad);
        };
        RefName::new(alloc, parts.kind, parts.id, parts.arch, parts.branch)
    }

    /// Returns the text of the ref, `KIND/ID/ARCH/BRANCH`.
    #[tactic(auto, using(crate::proofs::Refs::kept_text, crate::proofs::Refs::kept_good))]
    pub fn as_str(&self) -> &str
        ensures text { result.now ≡ ref_text self.now }
        ensures good { is_ref self.now ≡ true }
    {
        self.text.as_str()
    }

    /// Returns the parts of the ref.
    #[tactic(auto, using(crate::proofs::Refs::kept_parts, crate::proofs::Refs::kept_good))]
    pub(crate) fn parts(&self) -> Parts<'_>
        ensures parts { ref_in result ≡ self.now }
        ensures good { is_ref self.now ≡ true }
    {
        parts_of(self.text.as_str()).unwrap()
    }

    /// Returns the kind of the ref.
    pub fn kind(&self) -> RefKind
        ensures { result ≡ self.now.kind }
    {
        self.parts().kind
    }

    /// Returns the ID of the ref.
    #[tactic(auto, using(crate::proofs::Refs::parts_good))]
    pub fn id(&self) -> &str
        ensures id { result.now ≡ self.now.id }
        ensures good { is_id self.now.id ≡ true }
    {
        self.parts().id
    }

    /// Copies the ID of the ref.
    pub fn app_id(&self) -> Result<AppId, AllocError>
        ensures { IfOk result (λ id. id ≡ self.now.id) }
    {
        AppId::of_id(self.text.allocator(), self.id())
    }

    /// Returns the architecture of the ref.
    #[tactic(auto, using(crate::proofs::Refs::parts_good))]
    pub fn arch(&self) -> &str
        ensures arch { result.now ≡ self.now.arch }
        ensures good { is_arch self.now.arch ≡ true }
    {
        self.parts().arch
    }

    /// Returns the branch of the ref.
    #[tactic(auto, using(crate::proofs::Refs::parts_good))]
    pub fn branch(&self) -> &str
        ensures branch { result.now ≡ self.now.branch }
        ensures good { is_branch self.now.branch ≡ true }
    {
        self.parts().branch
    }

    /// Copies the text of the ref, `KIND/ID/ARCH/BRANCH`.
    #[tactic(auto, using(crate::proofs::Refs::kept_text, crate::proofs::Refs::kept_good))]
    pub fn write(&self) -> Result<Text, AllocError>
        ensures text { IfOk result (λ text. text ≡ ref_text self.now) }
        ensures good { is_ref self.now ≡ true }
    {
        self.text.copy()
    }

    /// Returns the ref as a relative path, `KIND/ID/ARCH/BRANCH`, which is the text of the ref.
    pub fn path(&self) -> Result<Text, AllocError>
        ensures { IfOk result (λ text. text ≡ ref_text self.now) }
    {
        self.write()
    }

    /// Returns a copy. Errs if memory runs out.
    pub fn copy(&self) -> Result<Self, AllocError>
        ensures { IfOk result (λ name. name ≡ self.now) }
    {
        Ok(RefName {
            text: self.text.copy()?,
        })
    }
}

// Refs are compared by the bytes of their texts. The order of their parts would be another one,
// since `-` and `.` come before `/`.

impl PartialEq for RefName {
    ghost use Rattle.std.specs.Ordering.{on};
    ghost use Rattle.fp_name.specs.Refs.{ref_text};

    ghost eq = { on ref_text bytes_eq };

    ghost laws = { Prim.search (comparing, rules) };

    #[tactic(auto, using(crate::proofs::Refs::same_by_eq))]
    fn eq(&self, other: &Self) -> bool
        ensures value { result ≡ bytes_eq (ref_text self.now) (ref_text other.now) }
        ensures same { IsTrue result ↔ (self.now ≡ other.now) }
    {
        self.as_str() == other.as_str()
    }
}

impl Eq for RefName {
    ghost laws = { Prim.search (comparing, rules) };
}

impl PartialOrd for RefName {
    ghost use Rattle.std.specs.Ordering.{on, as_partial_cmp};
    ghost use Rattle.fp_name.specs.Refs.{ref_text};

    ghost partial_cmp = { as_partial_cmp (on ref_text (slice_cmp nat_cmp)) };

    ghost laws = { partial_order_from_own_ties (Prim.search (comparing, rules)) (Prim.search (comparing, rules)) };

    fn partial_cmp(&self, other: &Self) -> Option<Ordering> {
        Some(self.cmp(other))
    }
}

impl Ord for RefName {
    ghost use Rattle.std.specs.Ordering.{on};
    ghost use Rattle.fp_name.specs.Refs.{ref_text};

    ghost cmp = { on ref_text (slice_cmp nat_cmp) };

    ghost total = { Prim.search (comparing, rules) };

    ghost matches_partial_cmp = { Prim.search (comparing, rules) };

    ghost matches_eq = { Prim.search (comparing, rules) };

    #[tactic(auto, using(crate::proofs::Refs::same_by_cmp))]
    fn cmp(&self, other: &Self) -> Ordering
        ensures value { result ≡ slice_cmp nat_cmp (ref_text self.now) (ref_text other.now) }
        ensures same { (result ≡ Ordering.Equal) ↔ (self.now ≡ other.now) }
    {
        self.as_str().cmp(other.as_str())
    }
}
