//! The offers of remotes.
ghost use Rattle.std.specs.Prelude.{◌≡◌, true, IfOk, OnOk};
ghost use Rattle.fp_name.specs.Hex.{is_digest};
ghost use Rattle.fp_name.specs.Refs.{is_ref};
ghost use Rattle.fl_plan.specs.Offers.{offer_with};

use fp_base::Blob;
use fp_name::{Digest, RefName};
use fp_small::RemoteRow;
use std::alloc::AllocError;

/// A commit that a remote offers under a ref.
#[derive(Drop)]
pub(crate) struct Offer {
    pub(crate) name: RefName,
    pub(crate) remote: RemoteRow,
    pub(crate) commit: Digest,
}

/// An offer whose head was checked.
#[derive(Drop)]
pub(crate) struct Chosen {
    pub(crate) offer: Offer,
    /// The content of the commit's file `metadata`.
    pub(crate) metadata: Blob,
}

impl Offer {
    /// Returns the offer of this commit.
    pub(crate) fn new(
        remote: &RemoteRow,
        name: &RefName,
        commit: Digest,
    ) -> Result<Offer, AllocError>
        ensures is { IfOk result (λ offer. offer ≡ offer_with remote.now name.now commit) }
        ensures name { OnOk result (is_ref name.now ≡ true) }
        ensures commit { OnOk result (is_digest commit ≡ true) }
    {
        let _text = name.as_str();
        let _bytes = commit.as_bytes();
        Ok(Offer {
            name: name.copy()?,
            remote: remote.copy()?,
            commit,
        })
    }

    /// Returns a copy. Errs if memory runs out.
    pub(crate) fn copy(&self) -> Result<Offer, AllocError>
        ensures { IfOk result (λ offer. offer ≡ self.now) }
    {
        Offer::new(&self.remote, &self.name, self.commit)
    }
}
