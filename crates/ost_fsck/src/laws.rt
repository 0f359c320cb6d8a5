//! Laws of reports. Each is the contract of a function with an empty body.
ghost use Rattle.ost_fsck.specs.Laws.{OneReport, SmallReport};

/// States that a store has at most one report.
pub fn reports_are_single()
    ensures { OneReport }
{}

/// States that the report of a store with a dirmeta, a file that isn't the dirtree of its name, and
/// a file whose path is no object's has these two faults and counts two objects.
pub fn a_small_store_is_reported()
    ensures { SmallReport }
{}
