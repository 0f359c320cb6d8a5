//! The records that fakes keep of their calls.

/// A fake host that records its calls.
pub trait Recorder {
    ghost use Rattle.fp_memhost.specs.Story.{Story};

    /// The record: the number of calls, the view after each, the calls that are to fail, and the
    /// created files.
    ghost story: { Self → Story };
}

/// A fake source that returns its bytes piece by piece.
pub trait Supplier {
    ghost use Rattle.fp_memhost.specs.Supply.{Supply};

    /// The bytes that are left, the maximum of a call, the call that fails, and the number of
    /// calls.
    ghost supply: { Self → Supply };
}

/// Fake remotes that may fail at some of their calls.
pub trait Keeper {
    ghost use Rattle.fp_memhost.specs.Holding.{Keeping};

    /// The number of calls, and the calls that are to fail.
    ghost keeping: { Self → Keeping };
}
