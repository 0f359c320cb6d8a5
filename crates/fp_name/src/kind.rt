//! The two kinds of refs.

ghost use Rattle.std.specs.Prelude.{◌≡◌};
ghost use Rattle.fp_name.specs.Kinds.{kind_word, kind_of};

/// The kind of a ref.
#[derive(Clone, Copy, Debug, PartialEq, Eq, PartialOrd, Ord)]
pub enum RefKind {
    /// An application.
    App,
    /// A runtime, or an extension of a runtime or an application.
    Runtime,
}

impl RefKind {
    /// Returns the first part of the kind's refs: `app` or `runtime`.
    pub fn word(self) -> &'static str
        ensures { result.now ≡ kind_word self }
    {
        match self {
            RefKind::App => "app",
            RefKind::Runtime => "runtime",
        }
    }

    /// Returns the kind with this word, or `None` for any word but `app` and `runtime`.
    pub fn of_word(word: &str) -> Option<RefKind>
        ensures { result ≡ kind_of word.now }
    {
        match word {
            "app" => Some(RefKind::App),
            "runtime" => Some(RefKind::Runtime),
            _ => None,
        }
    }
}
