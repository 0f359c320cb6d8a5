//! Commands: what the words of a command line ask for.
ghost use Rattle.std.specs.Prelude.{◌≡◌};
ghost use Rattle.fl_words.specs.Words.{may_change};
ghost use Rattle.fl_words.specs.declared.command.WordsError.TheVariants.{NoMemory};

use crate::app_count::AppCount;
use crate::override_name::OverrideName;
use crate::value_type::ValueType;
use fp_base::{Items, Text};
use fp_name::{PinPattern, RefName, RemoteName};
use fp_small::RemoteRow;
use std::alloc::AllocError;
use std::error::Error;
use std::fmt;

/// A command of fpk.
#[derive(Drop)]
pub enum Command {
    /// A change of the installation.
    Change(Change),
    /// A listing of a part of the installation.
    List(Listing),
    /// A view of the input, which is an object or a value.
    Show(Shown),
    /// `filter`: prints which messages of a recorded D-Bus connection, read from the input, the
    /// filter forwards to each side under a policy.
    Filter(PolicySource),
    /// `batch`: makes the changes that the lines of the input ask for.
    Batch,
    /// `fsck`: checks each object of the store, and prints the bad ones and the paths that are no
    /// object's.
    Fsck,
    /// `export NAME REF`: makes a commit of the tree that the input describes, and offers it under
    /// the ref in the store `made/NAME` of the installation's directory, which can serve as a
    /// remote.
    Export { remote: RemoteName, name: RefName },
    /// `exercise COUNT`: makes the changes of an exercise with this number of applications, over
    /// remotes that are generated for it in memory.
    Exercise(AppCount),
}

impl Command {
    /// Returns whether the command may change files in the installation's directory: a change, a
    /// batch, an export or an exercise.
    pub fn changes(&self) -> bool
        ensures { result ≡ may_change self.now }
    {
        matches!(
            self,
            Command::Change(_) | Command::Batch | Command::Export { .. } | Command::Exercise(_)
        )
    }
}

/// A change of the installation: a command that may be a line of a batch.
#[derive(Drop)]
pub enum Change {
    /// `pin PATTERN`: pins what the pattern matches.
    Pin(PinPattern),
    /// `unpin PATTERN`: removes the pattern from the pins.
    Unpin(PinPattern),
    /// `remote-add NAME URL`: adds a remote.
    RemoteAdd(RemoteRow),
    /// `remote-modify NAME URL`: gives a remote another URL.
    RemoteModify(RemoteRow),
    /// `remote-delete NAME`: removes a remote.
    RemoteDelete(RemoteName),
    /// `install NAME REF`: installs a ref from the remote of this name.
    Install {
        remote: RemoteName,
        name: RefName,
    },
    /// `update`: updates all installed refs.
    UpdateAll,
    /// `update REF`: updates one ref.
    UpdateOne(RefName),
    /// `uninstall REF`: uninstalls a ref.
    Uninstall(RefName),
    /// `uninstall --unused`: uninstalls the runtimes that nothing needs.
    UninstallUnused,
    /// `rollback REF`: returns a ref to the commit that was deployed before the current one.
    Rollback(RefName),
    /// `override OPTION..` or `override OPTION.. ID`: changes the override for all applications, or
    /// that of one, by options. These are kept as the words were.
    OverrideChange {
        name: OverrideName,
        options: Items<Text>,
    },
    /// `override --reset` or `override --reset ID`: removes the override for all applications, or
    /// that of one.
    OverrideReset {
        name: OverrideName,
    },
}

/// A part of the installation that a command prints.
#[derive(Drop)]
pub enum Listing {
    /// `list`: the deployed refs.
    Refs,
    /// `list --remotes`: the remotes.
    Remotes,
    /// `list --pins`: the patterns of the pins.
    Pins,
    /// `list --exports`: the exported files.
    Exports,
    /// `info REF`: the facts about a deployed ref.
    Info(RefName),
    /// `launch APP [OPTION..]`: the sandbox in which an application is launched with these options,
    /// which are kept as the words were.
    Launch { name: RefName, options: Items<Text> },
    /// `override --show` or `override --show ID`: the override for all applications, whose name is
    /// `global`, or that of one, whose name is its ID.
    OverrideShow { name: Text },
}

/// The kind of the input that `show` prints: an object, or a value of a GVariant type.
#[derive(Drop)]
pub enum Shown {
    /// `show commit`: the fields of a commit.
    Commit,
    /// `show dirtree`: the entries of a dirtree.
    DirTree,
    /// `show dirmeta`: the mode of a dirmeta.
    DirMeta,
    /// `show value TYPE`: the number of bytes, which must be the normal form of a value of this
    /// type.
    Value(ValueType),
}

/// The source of the filter's policy.
#[derive(Drop)]
pub enum PolicySource {
    /// `filter [RULE..]`: rules, which are kept as the words were.
    Rules(Items<Text>),
    /// `filter --from=APP`: the grants of an application on the session bus.
    Session(RefName),
    /// `filter --system --from=APP`: the grants of an application on the system bus.
    System(RefName),
}

/// The error of reading words as a command.
#[derive(Clone, Copy, Debug, PartialEq, Eq)]
pub enum WordsError {
    /// The words are no command. The index counts from 0: it is that of the first word with which
    /// they can't go on to be a command, or the number of words if they can go on.
    BadWords { index: u64 },
    /// Memory ran out.
    NoMemory,
}

impl fmt::Display for WordsError {
    fn fmt<W: fmt::Write>(&self, f: &mut fmt::Formatter<W>) -> fmt::Result {
        match self {
            WordsError::BadWords { index } => write!(f, "bad words at {index}"),
            WordsError::NoMemory => write!(f, "out of memory"),
        }
    }
}

impl Error for WordsError {}

impl From<AllocError> for WordsError {
    ghost from_gives = { λ _ e. e ≡ NoMemory };

    fn from(_: AllocError) -> WordsError {
        WordsError::NoMemory
    }
}
