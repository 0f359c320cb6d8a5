//! Laws of all headers, by their definitions. Each is the contract of a function with an empty
//! body.

ghost use Rattle.std.specs.Prelude.{◌≡◌, codes};
ghost use Rattle.gv_value.specs.TypeText.{type_text};
ghost use Rattle.ost_model.specs.Contents.{header_shape};
ghost use Rattle.ost_content.specs.Laws.{FilesHaveHeaders, LinksHaveHeaders, TellsFiles, TellsLinks, TellsKinds};

/// States that a header is its length and then the one serialised form of a GVariant of the type
/// `(uuuusa(ayay))`.
pub fn headers_are_values()
    ensures type_string { type_text header_shape ≡ codes "(uuuusa(ayay))" }
    ensures files { FilesHaveHeaders }
    ensures links { LinksHaveHeaders }
{}

/// States that no two files or symlinks have the same input to SHA-256: it determines a file's
/// permission bits and content, a symlink's text, and which of the two it is.
pub fn headers_tell_objects()
    ensures files { TellsFiles }
    ensures links { TellsLinks }
    ensures kinds { TellsKinds }
{}
