//! Reads and writes the metadata objects of OSTree's repositories: commits, dirtrees and dirmetas.
//! Only objects in GVariant's normal form that follow all rules are read.
#![tactic(auto)]

mod bindings;
mod checked;
mod commit;
mod commit_parts;
mod digests;
mod dirmeta;
mod dirtree;
mod error;
mod field_values;
mod fields;
mod numbers;
mod reading_commits;
mod reading_metas;
mod reading_rows;
mod reading_trees;
mod row_values;
mod spelling;
mod tree_rules;
mod types;
mod values;
mod writing_commits;
mod writing_metas;
mod writing_trees;

pub use bindings::binding;
pub use commit::{Commit, CommitRoot};
pub use dirmeta::DirMeta;
pub use dirtree::{DirEntry, DirTree, FileEntry};
pub use error::ObjectError;
pub use field_values::text_as_value;
pub use reading_commits::{commit_root, read_commit};
pub use reading_metas::read_dirmeta;
pub use reading_trees::read_dirtree;
pub use types::dictionary_type;
pub use writing_commits::write_commit;
pub use writing_metas::write_dirmeta;
pub use writing_trees::write_dirtree;
