//! The content of the file `config`, and the error of parsing it.
ghost use Rattle.std.specs.Prelude.{◌≡◌};
ghost use Rattle.fp_small.specs.ConfigErrors.{key_fault, name_fault};
ghost use Rattle.fp_small.specs.declared.config.ConfigError.TheVariants.{NoMemory};

use crate::state::RemoteRow;
use fp_base::Items;
use fp_keyfile::KeyError;
use fp_name::{NameError, PinPattern};
use std::alloc::{AllocError, AllocFailed};
use std::error::Error;
use std::fmt;

/// The remotes and the pins of an installation, each strictly ascending by the bytes of their
/// names.
#[derive(Drop)]
pub struct Settings {
    /// The remotes.
    pub remotes: Items<RemoteRow>,
    /// The pins.
    pub pins: Items<PinPattern>,
}

/// The reason why a `config` was not parsed.
#[derive(Clone, Copy, Debug, PartialEq, Eq)]
pub enum ConfigError {
    /// The bytes aren't a valid `config`.
    Bad,
    /// Memory ran out.
    NoMemory,
}

impl fmt::Display for ConfigError {
    fn fmt<W: fmt::Write>(&self, f: &mut fmt::Formatter<W>) -> fmt::Result {
        match self {
            ConfigError::Bad => write!(f, "not a config file"),
            ConfigError::NoMemory => write!(f, "out of memory"),
        }
    }
}

impl Error for ConfigError {}

impl From<AllocError> for ConfigError {
    ghost from_gives = { λ _ e. e ≡ NoMemory };

    fn from(_e: AllocError) -> ConfigError {
        ConfigError::NoMemory
    }
}

impl<T: Drop> From<AllocFailed<T>> for ConfigError {
    ghost from_gives = { λ _ e. e ≡ NoMemory };

    fn from(_e: AllocFailed<T>) -> ConfigError {
        ConfigError::NoMemory
    }
}

impl From<KeyError> for ConfigError {
    ghost from_gives = { λ e fault. fault ≡ key_fault e };

    fn from(e: KeyError) -> ConfigError {
        match e {
            KeyError::Fault(_) => ConfigError::Bad,
            KeyError::NoMemory => ConfigError::NoMemory,
        }
    }
}

impl From<NameError> for ConfigError {
    ghost from_gives = { λ e fault. fault ≡ name_fault e };

    fn from(e: NameError) -> ConfigError {
        match e {
            NameError::Bad => ConfigError::Bad,
            NameError::NoMemory => ConfigError::NoMemory,
        }
    }
}
