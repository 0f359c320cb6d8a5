//! The errors of a checkout.
use fp_host::HostEnd;
use std::alloc::AllocError;

/// The error of a checkout.
#[derive(Clone, Copy, Debug, PartialEq, Eq)]
pub enum CheckoutEnd {
    /// The commit's root directory has an entry `deploy`, which is the name of fpk's own file in
    /// the checkout's directory. Nothing changed.
    ReservedName,
    /// A call of the host failed, or the host's content didn't meet the condition.
    Fault,
    /// Memory ran out.
    NoMemory,
}

impl From<HostEnd> for CheckoutEnd {
    ghost use Rattle.std.specs.Prelude.{◌≡◌};
    ghost use Rattle.ost_checkout.specs.Ends.{of_host};

    ghost from_gives = { λ end e. e ≡ of_host end };

    fn from(end: HostEnd) -> CheckoutEnd {
        match end {
            HostEnd::Fault => CheckoutEnd::Fault,
            HostEnd::NoMemory => CheckoutEnd::NoMemory,
        }
    }
}

impl From<AllocError> for CheckoutEnd {
    ghost use Rattle.std.specs.Prelude.{◌≡◌};
    ghost use Rattle.ost_checkout.specs.declared.ends.CheckoutEnd.TheVariants.{NoMemory};

    ghost from_gives = { λ _ e. e ≡ NoMemory };

    fn from(_: AllocError) -> CheckoutEnd {
        CheckoutEnd::NoMemory
    }
}
