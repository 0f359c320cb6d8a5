//! The purpose of a command.

/// The purpose of a command, as its progress line shows it.
#[derive(Clone, Copy, PartialEq, Eq)]
pub enum Task {
    /// Installing a ref.
    Install,
    /// Updating refs.
    Update,
    /// Uninstalling a ref.
    Uninstall,
    /// Checking each object of a store.
    Check,
    /// Anything else.
    Other,
}

impl Task {
    /// Returns the verb that starts the line.
    pub(crate) fn verb(self) -> &'static str {
        match self {
            Task::Install => "installing",
            Task::Update => "updating",
            Task::Uninstall => "uninstalling",
            Task::Check => "checking",
            Task::Other => "working",
        }
    }
}
