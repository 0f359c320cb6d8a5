//! The laws of GVariant's serialisation, and the limits as numbers.
ghost use Rattle.std.specs.Prelude.{◌≡◌};
ghost use Rattle.gv_value.specs.declared.limits.TheConstants.{MOST_BYTES, TOO_LARGE, MOST_DEPTH, MOST_SIGNATURE_BYTES, MOST_OPEN};
ghost use Rattle.gv_value.specs.Exact.{ReadsTypes, ReadsValues, SpellsValues, HasOneSpelling, HasOneValue, BoundsDepth};

/// States the laws of all types, values and bytes: each value of a type has one serialised form,
/// and bytes are the form of at most one value. The body is empty: the contract is the law.
pub fn one_spelling()
    ensures types { ReadsTypes }
    ensures read { ReadsValues }
    ensures spelled { SpellsValues }
    ensures one_spelling { HasOneSpelling }
    ensures one_value { HasOneValue }
    ensures depth { BoundsDepth }
{}

/// States the limits of types, values and signatures as numbers.
pub fn limits_as_numbers()
    ensures bytes { MOST_BYTES ≡ 16777216 }
    ensures too_large { TOO_LARGE ≡ 16777217 }
    ensures depth { MOST_DEPTH ≡ 64 }
    ensures signature { MOST_SIGNATURE_BYTES ≡ 255 }
    ensures open_at_once { MOST_OPEN ≡ 32 }
{}
