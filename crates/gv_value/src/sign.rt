//! The characters of type strings.
ghost use Rattle.std.specs.Prelude.{◌≡◌, option_map};
ghost use Rattle.gv_value.specs.Signs.{sign_of, sign_at};

use crate::basic::Basic;

/// The meaning of a character in a type string.
#[derive(Clone, Copy)]
pub enum Sign {
    /// A basic type.
    Basic(Basic),
    /// `v`: a variant.
    Variant,
    /// `a`: an array, whose element type follows.
    Array,
    /// `m`: a maybe, whose child's type follows.
    Maybe,
    /// `(`: the start of a tuple, whose members' types follow.
    TupleOpen,
    /// `)`: the end of a tuple.
    TupleClose,
    /// `{`: the start of a dictionary entry; the types of its key and value follow.
    EntryOpen,
    /// `}`: the end of a dictionary entry.
    EntryClose,
}

impl Sign {
    /// Returns the meaning of a character, or `None` if it has none in a type string.
    pub fn of(letter: u8) -> Option<Sign>
        ensures { result ≡ sign_of letter }
    {
        let basic = match letter {
            b'b' => Basic::Bool,
            b'y' => Basic::Byte,
            b'n' => Basic::Int16,
            b'q' => Basic::Uint16,
            b'i' => Basic::Int32,
            b'u' => Basic::Uint32,
            b'x' => Basic::Int64,
            b't' => Basic::Uint64,
            b'h' => Basic::Handle,
            b'd' => Basic::Double,
            b's' => Basic::Str,
            b'o' => Basic::ObjectPath,
            b'g' => Basic::Signature,
            b'v' => return Some(Sign::Variant),
            b'a' => return Some(Sign::Array),
            b'm' => return Some(Sign::Maybe),
            b'(' => return Some(Sign::TupleOpen),
            b')' => return Some(Sign::TupleClose),
            b'{' => return Some(Sign::EntryOpen),
            b'}' => return Some(Sign::EntryClose),
            _ => return None,
        };
        Some(Sign::Basic(basic))
    }

    /// Returns the meaning of the first character, and the text after it. Returns `None` if the
    /// text is empty or its first character has no meaning in a type string.
    pub fn at_front(text: &[u8]) -> Option<(Sign, &[u8])>
        ensures { option_map (λ p. (p.0, p.1.now)) result ≡ sign_at text.now }
    {
        let (letter, rest) = text.split_first()?;
        let sign = Sign::of(*letter)?;
        Some((sign, rest))
    }
}
