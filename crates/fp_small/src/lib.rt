//! The small files of an installation, and its state apart from its objects.
#![tactic(auto)]

mod above;
mod clearing;
mod config;
mod config_reading;
mod config_writing;
pub mod laws;
mod limits;
mod loading;
mod old_pins;
mod old_remotes;
mod op;
mod ordering;
mod places;
mod refusal;
mod replacing;
mod state;
mod taking;
mod walking;

pub use above::make_above;
pub use clearing::{clear, clear_below};
pub use config::{ConfigError, Settings};
pub use config_reading::read_config;
pub use config_writing::write_config;
pub use limits::{
    FILE_MODE, MOST_CONFIG_BYTES, MOST_ELEMENTS, MOST_PINS, MOST_REFS, MOST_REMOTES,
    MOST_TEXT_BYTES,
};
pub use loading::{Loaded, load};
pub use old_pins::read_pins;
pub use old_remotes::read_remotes;
pub use op::Op;
pub use ordering::{has_pin, has_remote, insert_pin, insert_remote, remove_pin, remove_remote};
pub use places::{repo_path, tmp_path};
pub use refusal::Refusal;
pub use replacing::{replace, staging_place};
pub use state::{Layout, OverrideRow, Previous, RefRow, RemoteRow, State};
pub use taking::take_away;
pub use walking::{add_names, list_of_one, names_in, values_in_order};
