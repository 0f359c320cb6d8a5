//! One operation on an installation, done wholly or not at all.
#![tactic(auto)]

mod applying;
mod coming;
mod deploying;
mod ending;
mod fetching;
mod furnishing;
mod incoming;
mod laying_out;
mod obtaining;
mod overriding;
mod places;
mod plainly;
mod readying;
mod rolling_back;
mod rooms;
mod rows;
mod settings;
mod uninstalling;

pub use applying::apply;
pub use deploying::deploy_row;
pub use ending::ApplyEnd;
pub use fp_small::Op;
pub use incoming::bring;
pub use rolling_back::roll_back;
pub use uninstalling::uninstall;

pub mod laws;
