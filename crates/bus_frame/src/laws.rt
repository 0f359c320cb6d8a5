//! Laws of constants: their values as numbers and bytes. The D-Bus specification fixes them, except
//! the limit for a message, which is fpk's own.

ghost use Rattle.std.specs.Prelude.{◌≡◌, codes};
ghost use Rattle.bus_frame.specs.declared.limits.TheConstants.{GREATEST_SERIAL, MOST_ARRAY_BYTES, MOST_ARRAYS, MOST_CONTAINERS, MOST_MESSAGE_BYTES, MOST_NAME_BYTES, MOST_SIGNATURE_BYTES, MOST_STRUCTS};
ghost use Rattle.bus_frame.specs.declared.message.TheConstants.Flags.{NONE, NO_REPLY_EXPECTED};
ghost use Rattle.bus_frame.specs.declared.names.TheConstants.{BUS_NAME};

/// States the limits: 64 MiB for an array, 16 MiB for a message, 255 bytes for a name and for a
/// signature, 64 nested containers, among them 32 arrays and 32 structs, and 2^32 - 1 for a serial.
pub fn limits_of_messages()
    ensures array { MOST_ARRAY_BYTES ≡ 67108864 }
    ensures message { MOST_MESSAGE_BYTES ≡ 16777216 }
    ensures name { MOST_NAME_BYTES ≡ 255 }
    ensures signature { MOST_SIGNATURE_BYTES ≡ 255 }
    ensures containers { MOST_CONTAINERS ≡ 64 }
    ensures arrays { MOST_ARRAYS ≡ 32 }
    ensures structs { MOST_STRUCTS ≡ 32 }
    ensures serial { GREATEST_SERIAL ≡ 4294967295 }
{}

/// States that the flag NO_REPLY_EXPECTED is the lowest bit, and that the bus's name is
/// `org.freedesktop.DBus`.
pub fn flags_and_the_name_of_the_bus()
    ensures none { NONE.bits ≡ 0 }
    ensures no_reply { NO_REPLY_EXPECTED.bits ≡ 1 }
    ensures bus { BUS_NAME.now ≡ codes "org.freedesktop.DBus" }
{}
