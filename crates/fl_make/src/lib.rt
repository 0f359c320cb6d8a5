//! Making a remote: a store in `made/REMOTE` of the installation, which offers the commit of a
//! described tree.
#![tactic(auto)]

mod end;
pub mod laws;
mod making;

pub use end::MakeEnd;
pub use making::make_remote;
