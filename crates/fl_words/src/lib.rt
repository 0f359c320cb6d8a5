//! Parsing of command lines: the command that words ask for, the changes that a batch asks for, the
//! reasons for words that are no command, notes on options with less effect than they seem to have,
//! and the text of `fpk --help`.
#![tactic(auto)]

mod app_count;
mod batch;
mod batch_reasons;
mod command;
mod forms;
mod help_page;
mod laws;
mod limits;
mod option_notes;
mod override_name;
mod reading;
mod reasons;
mod value_type;
mod values;

pub use app_count::AppCount;
pub use batch::{BatchError, read_batch};
pub use batch_reasons::batch_reason;
pub use command::{Change, Command, Listing, PolicySource, Shown, WordsError};
pub use forms::{Form, Slot};
pub use help_page::help;
pub use laws::{
    bad_index_is_least, batches_hold_changes, limits_are, usage_is_of_forms_begun, words_read_back,
};
pub use limits::MOST_APPS;
pub use option_notes::notes;
pub use override_name::OverrideName;
pub use reading::read_words;
pub use reasons::reason;
pub use value_type::ValueType;
