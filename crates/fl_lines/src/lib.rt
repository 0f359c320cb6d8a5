//! The lines that commands print: for operations, listings, a checked store and refusals; and the
//! sentences that explain refusals.
#![tactic(auto)]

mod advice;
mod escaping;
mod exercises;
mod exports;
mod info;
mod laws;
mod lines;
mod printed_words;
mod refusals;
mod rules;
mod stores;

pub use advice::advice_on;
pub use escaping::escape;
pub use exercises::exercise_line;
pub use exports::export_line;
pub use info::info_text;
pub use laws::{escapes_tell_texts, refusals_are_explained};
pub use lines::{digits_of, object_of, op_line, pins_text, refs_text, remotes_text, skipped_line};
pub use printed_words::{
    frame_rule_word, key_rule_word, meta_rule_word, metadata_rule_word, rule_word, side_word,
    what_word,
};
pub use refusals::{octal_of, refusal_line};
pub use rules::{frame_rule, key_rule, meta_rule, object_rule};
pub use stores::{bad_line, fsck_line, made_line, stray_line};
