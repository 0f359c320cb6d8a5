//! Laws of launches, for crates that build on them. Each law is the contract of a function with an
//! empty body.
ghost use Rattle.fl_installed.specs.Local.{LaunchIsLocal};
ghost use Rattle.fl_installed.specs.Refusals.{LaunchRefuses};

/// States that a launch depends only on the state and on the files `metadata` in the directories of
/// the deployed commits.
pub fn launch_depends_on_metadata()
    ensures { LaunchIsLocal }
{}

/// States that a launch is refused only with `NotInstalled`, `BadMetadata` or `RuntimeMissing`.
pub fn what_refuses_a_launch()
    ensures { LaunchRefuses }
{}
