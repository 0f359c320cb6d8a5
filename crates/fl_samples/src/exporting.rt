//! Laws of the sample installation's exports.
ghost use Rattle.std.specs.Prelude.{◌≡◌};
ghost use Rattle.fp_small.specs.Places.{repo};
ghost use Rattle.ost_model.specs.Objects.{store};
ghost use Rattle.fl_export.specs.Exported.{exported};
ghost use Rattle.fl_export.specs.Placed.{ExportsAre};
ghost use Rattle.fl_samples.specs.Exports.{rows};
ghost use Rattle.fl_samples.specs.Image.{whole_disk, whole_state};

/// States that the application exports its desktop file, with a rewritten command, and its icon,
/// and that exactly these are at or below `exports`.
pub fn its_exports_stand()
    ensures exported { exported (store repo whole_disk) whole_state ≡ rows }
    ensures stand { ExportsAre (exported (store repo whole_disk) whole_state) whole_disk }
{}
