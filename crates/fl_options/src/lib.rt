//! Options on the command line that change permissions, as `--share=network`, and rules of a
//! filter, as `--talk=org.gnome.Shell`.
#![tactic(auto)]

mod names;
mod option_lines;
mod options;
mod rule_names;
mod tests_of_text;
mod words;

pub use options::{is_launch_option, is_option, last_command, layer_of, option_layer};
pub use words::{is_rule, policy_of};

pub mod laws;
pub mod laws_of_rules;
