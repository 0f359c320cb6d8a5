//! The error of a command.
ghost use Rattle.std.specs.Prelude.{◌≡◌};

use crate::input::{InputEnd, TOO_LONG_INPUT};
use fl_change::RunEnd;
use fl_make::MakeEnd;
use fl_words::BatchError;
use fp_base::What;
use fp_host::HostEnd;
use fp_small::Refusal;

/// The error of a command.
#[derive(Drop)]
pub(crate) enum CommandEnd {
    /// The command was refused.
    Refused(Refusal),
    /// A call of the host failed, or the host's content didn't meet the command's condition.
    Fault,
    /// A call of the remotes failed.
    RemoteFault,
    /// The source of the input failed.
    InputFault,
    /// Memory ran out.
    NoMemory,
}

impl From<RunEnd> for CommandEnd {
    ghost use Rattle.std.specs.Prelude.{◌≡◌};
    ghost use Rattle.fl_top.specs.Ends.{end_of_run};

    ghost from_gives = { λ run end. end ≡ end_of_run run };

    fn from(end: RunEnd) -> CommandEnd {
        match end {
            RunEnd::Refused(refusal) => CommandEnd::Refused(refusal),
            RunEnd::Fault => CommandEnd::Fault,
            RunEnd::RemoteFault => CommandEnd::RemoteFault,
            RunEnd::NoMemory => CommandEnd::NoMemory,
        }
    }
}

impl From<HostEnd> for CommandEnd {
    ghost use Rattle.std.specs.Prelude.{◌≡◌};
    ghost use Rattle.fl_top.specs.Ends.{end_of_run};
    ghost use Rattle.fl_change.specs.Ends.{end_of_host};

    ghost from_gives = { λ host end. end ≡ end_of_run (end_of_host host) };

    fn from(end: HostEnd) -> CommandEnd {
        CommandEnd::from(RunEnd::from(end))
    }
}

impl From<InputEnd> for CommandEnd {
    ghost use Rattle.std.specs.Prelude.{◌≡◌};
    ghost use Rattle.fl_top.specs.Ends.{end_of_input};

    ghost from_gives = { λ input end. end ≡ end_of_input input };

    fn from(end: InputEnd) -> CommandEnd {
        match end {
            InputEnd::TooLong => CommandEnd::Refused(Refusal::Limit {
                what: What::Input,
                number: TOO_LONG_INPUT,
            }),
            InputEnd::Fault => CommandEnd::InputFault,
            InputEnd::NoMemory => CommandEnd::NoMemory,
        }
    }
}

impl From<BatchError> for CommandEnd {
    ghost use Rattle.std.specs.Prelude.{◌≡◌};
    ghost use Rattle.fl_top.specs.Ends.{end_of_batch};

    ghost from_gives = { λ error end. end ≡ end_of_batch error };

    fn from(error: BatchError) -> CommandEnd {
        match error {
            BatchError::BadRecord { line } => CommandEnd::Refused(Refusal::BadRecord { line }),
            BatchError::NoMemory => CommandEnd::NoMemory,
        }
    }
}

impl From<MakeEnd> for CommandEnd {
    ghost use Rattle.std.specs.Prelude.{◌≡◌};
    ghost use Rattle.fl_top.specs.Ends.{end_of_make};

    ghost from_gives = { λ make end. end ≡ end_of_make make };

    fn from(end: MakeEnd) -> CommandEnd {
        match end {
            MakeEnd::BadRecord { line } => CommandEnd::Refused(Refusal::BadRecord { line }),
            MakeEnd::Fault => CommandEnd::Fault,
            MakeEnd::NoMemory => CommandEnd::NoMemory,
        }
    }
}
