//! The names of applications, runtimes and remotes, and the digests of objects.
#![tactic(auto)]

mod app_id;
mod digest;
mod fault;
mod grammar;
mod kind;
mod laws;
mod limits;
mod parts;
mod pin_pattern;
mod ref_name;
mod remote_name;
mod remote_url;

pub use app_id::AppId;
pub use digest::Digest;
pub use fault::NameError;
pub use grammar::{is_arch, is_branch, is_id, is_inner_element, is_remote_name, is_url};
pub use kind::RefKind;
pub use laws::{
    digests_read_back, names_are_equal_by_text, names_are_file_names, names_are_ordered_by_text,
    refs_are_patterns, refs_read_back,
};
pub use limits::{DIGEST_DIGITS, MOST_NAME_BYTES, MOST_REMOTE_NAME_BYTES, MOST_URL_BYTES};
pub use parts::{is_pin, is_ref};
pub use pin_pattern::PinPattern;
pub use ref_name::RefName;
pub use remote_name::RemoteName;
pub use remote_url::RemoteUrl;
