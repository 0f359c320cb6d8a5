//! Limits for objects that are hashed together.
ghost use Rattle.std.specs.Prelude.{◌≡◌};
ghost use Rattle.par_digest.specs.declared.limits.TheConstants.{MOST_SMALL_BYTES, MOST_IN_BATCH};

/// The largest length in bytes of an object that is hashed with others: 256 KiB.
pub const MOST_SMALL_BYTES: u64 = 256 * 1024;

/// The most objects of a batch, which are looked up and hashed together.
pub const MOST_IN_BATCH: usize = 64;

/// States the limits as numbers.
pub fn limits_as_numbers()
    ensures small { MOST_SMALL_BYTES ≡ 262144 }
    ensures batch { MOST_IN_BATCH ≡ 64 }
{}
