//! The error of filtering a recording.
ghost use Rattle.std.specs.Prelude.{◌≡◌};

use bus_proxy::FilterError;
use fp_host::HostEnd;
use fp_small::Refusal;
use std::alloc::AllocError;

/// The error of filtering a recording.
#[derive(Drop)]
pub enum FilterEnd {
    /// A message breaks a rule, or the recording ends within one.
    Refused(Refusal),
    /// A call of the host failed.
    Fault,
    /// Memory ran out.
    NoMemory,
}

impl From<AllocError> for FilterEnd {
    ghost use Rattle.std.specs.Prelude.{◌≡◌};
    ghost use Rattle.fl_filter.specs.declared.end.FilterEnd.TheVariants.{NoMemory};

    ghost from_gives = { λ _ end. end ≡ NoMemory };

    fn from(_: AllocError) -> FilterEnd {
        FilterEnd::NoMemory
    }
}

impl From<HostEnd> for FilterEnd {
    ghost use Rattle.std.specs.Prelude.{◌≡◌};
    ghost use Rattle.fl_filter.specs.Printed.{end_of};

    ghost from_gives = { λ host end. end ≡ end_of host };

    fn from(end: HostEnd) -> FilterEnd {
        match end {
            HostEnd::Fault => FilterEnd::Fault,
            HostEnd::NoMemory => FilterEnd::NoMemory,
        }
    }
}

impl From<FilterError> for FilterEnd {
    ghost use Rattle.std.specs.Prelude.{◌≡◌};
    ghost use Rattle.fl_filter.specs.Printed.{end_by};

    ghost from_gives = { λ error end. end ≡ end_by error };

    fn from(error: FilterError) -> FilterEnd {
        match error {
            FilterError::Bad(side, index, rule) => FilterEnd::Refused(Refusal::BadMessage {
                side,
                index,
                rule,
            }),
            FilterError::NoMemory => FilterEnd::NoMemory,
        }
    }
}
