//! Laws of the D-Bus filter's conditions: there are recordings that meet them.
ghost use Rattle.std.specs.Prelude.{◌≡◌, ◌≢◌, true};
ghost use Rattle.std.specs.List.{AllByRecursion};
ghost use Rattle.bus_policy.specs.Events.{Judged, is_sent};
ghost use Rattle.bus_policy.specs.Laws.{Rising};
ghost use Rattle.bus_proxy.specs.Laws.{AlikeButUnseen};
ghost use Rattle.fl_samples.specs.Lists.{bar_seen, one_recording, other_recording, two_calls};

/// States that two recordings can differ in nothing but a hidden name of a list that the filter
/// reduces.
pub fn recordings_may_differ_unseen()
    ensures alike { AlikeButUnseen bar_seen one_recording other_recording }
    ensures apart { one_recording ≢ other_recording }
{}

/// States that two calls of the application can have rising serials and both be forwarded.
pub fn serials_may_rise()
    ensures rises { Rising two_calls }
    ensures sent { AllByRecursion (λ (j : Judged). is_sent j ≡ true) two_calls }
{}
