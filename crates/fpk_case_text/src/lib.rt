//! Cases as text: parsing of their lines, and the messages for lines that can't be read or don't
//! hold.
#![tactic(auto)]

mod case;
mod fault;
mod name;
mod parser;
mod sign;
mod words;
mod wrong;

pub use case::{
    Action, Case, Command, CommitLine, Expected, Failing, Failure, Fixture, FixtureKind, Harm,
    ObjectWords, Owner, Pieces, ShownText, Step, Stops, What,
};
pub use fault::CaseError;
pub use name::{Name, name_of};
pub use parser::Parser;
pub use sign::Form;
pub use wrong::{Wrong, bytes_text, difference, message};
