//! The types that every crate of fpk uses: texts, bytes, lists, and the kinds and rules that
//! refusals name.
#![tactic(auto)]

mod blob;
mod control;
mod frame_rule;
mod items;
mod key_rule;
mod meta_rule;
mod object;
mod parts;
mod rule;
mod side;
mod text;
mod what;

pub use blob::Blob;
pub use control::is_control;
pub use frame_rule::FrameRule;
pub use items::Items;
pub use key_rule::KeyRule;
pub use meta_rule::{MetaRule, MetadataRule};
pub use object::ObjKind;
pub use parts::{bytes_of_hex, cut};
pub use rule::Rule;
pub use side::Side;
pub use text::Text;
pub use what::What;
