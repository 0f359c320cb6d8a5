//! The number of an exercise's applications.
ghost use Rattle.std.specs.Prelude.{◌≡◌, ◌≤◌, true, false, IfOk, OnOk, IsErrOf, decimal};
ghost use Rattle.std.specs.Str.{bytes_eq};
ghost use Rattle.fl_words.specs.Counts.{is_app_count, count_at, is_count_text};

use crate::limits::MOST_APPS;
use fp_name::NameError;
use std::alloc::{AllocError, Global};
use std::marker::Model;

/// A number of applications in an exercise, from 1 to `MOST_APPS`. Contracts see the number.
#[derive(Drop)]
pub struct AppCount {
    number: u32,
}

impl Model for AppCount {
    ghost use Rattle.std.specs.Prelude.{◌≡◌, ℕ, true};
    ghost use Rattle.fl_words.specs.Counts.{is_app_count};

    ghost Value = { ℕ };

    ghost view = { λ c. c.number };

    ghost invariant = { λ c. is_app_count c.number ≡ true };
}

impl AppCount {
    /// Parses a decimal number. Errs with `Bad` if the text is no number from 1 to `MOST_APPS`, or
    /// has a leading zero or a sign.
    pub fn parse(alloc: Global, text: &str) -> Result<AppCount, NameError>
        ensures ok { IfOk result (λ count. count ≡ count_at text.now) }
        ensures good { OnOk result (is_count_text text.now ≡ true) }
        ensures bad { IsErrOf result NameError.Bad → is_count_text text.now ≡ false }
    {
        let Ok(number) = text.parse::<u32>() else {
            return Err(NameError::Bad);
        };
        if is_count(number) && is_printed(alloc, number, text)? {
            Ok(AppCount { number })
        } else {
            Err(NameError::Bad)
        }
    }

    /// Returns the number.
    pub fn number(&self) -> u32
        ensures number { result ≡ self.now }
        ensures good { is_app_count result ≡ true }
        ensures within { result ≤ MOST_APPS }
    {
        self.number
    }
}

/// Returns whether an exercise may have this number of applications.
fn is_count(number: u32) -> bool
    ensures { result ≡ is_app_count number }
{
    1 <= number && number <= MOST_APPS
}

/// Returns whether a text is the decimal form of a number, without a leading zero or a sign.
fn is_printed(alloc: Global, number: u32, text: &str) -> Result<bool, AllocError>
    ensures { IfOk result (λ same. same ≡ bytes_eq text.now (decimal number)) }
{
    let digits = format!(in alloc; "{number}")?;
    Ok(text == digits.as_str())
}
