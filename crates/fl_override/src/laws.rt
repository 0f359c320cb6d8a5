//! Laws of the definitions in this crate's contracts, for crates that build on it. Each law is the
//! contract of a function with an empty body.

ghost use Rattle.std.specs.Prelude.{List, IsTrue};
ghost use Rattle.fp_keyfile.specs.declared.group.Group.{Group};
ghost use Rattle.fp_keyfile.specs.KeyFile.{is_good};
ghost use Rattle.fl_meta.specs.declared.mentions.Source.{Source as TheSource};
ghost use Rattle.fl_meta.specs.Mentions.{file_mentions};
ghost use Rattle.fl_override.specs.Overrides.{AllCanWrite};

/// States that each mention that is read from a key file, as metadata or as an override, can be
/// written: alone, it is a pair of a key file, and reads back as this one mention.
pub fn what_is_read_can_be_written()
    ensures { (source : TheSource) (file : List Group) → IsTrue (is_good file) → AllCanWrite
        (file_mentions source file) }
{}
