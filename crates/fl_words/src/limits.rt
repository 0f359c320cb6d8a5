//! Limits: the applications of an exercise, and the forms that ask for a `Change`.

/// The maximum number of applications in an exercise.
pub const MOST_APPS: u32 = 64;

/// The number of forms that ask for a `Change`. They are the first in `Form::all`.
pub(crate) const CHANGES: usize = 15;
