//! Laws of what a filter prints. Each law is the contract of a function with an empty body.
ghost use Rattle.std.specs.Prelude.{◌≡◌, [], ◌∷◌, List, codes, reverse};
ghost use Rattle.fp_base.specs.declared.side.Side.TheVariants as side;
ghost use Rattle.bus_stream.specs.declared.recording.Recording.{Recording};
ghost use Rattle.bus_policy.specs.declared.policy.PolicyRule.{PolicyRule};
ghost use Rattle.bus_proxy.specs.Arrivals.{bytes_fed};
ghost use Rattle.fl_filter.specs.Filtered.{filtered, out_text};

/// States that a line is the word of the side to which its message goes, a space, and the message's
/// bytes in lower-case hexadecimal.
pub fn lines_of_messages()
    ensures bus { out_text (record { to = side.Bus; bytes = 108 ∷ 1 ∷ [] }) ≡ codes "bus 6c01\n" }
    ensures client { out_text (record { to = side.Client; bytes = 255 ∷ [] })
        ≡ codes "client ff\n" }
{}

/// States that what a filter prints depends only on the policy, the client, the owners, and the
/// bytes of both sides in their order, and not on the pieces in which these were recorded.
pub fn answers_depend_on_bytes()
    ensures { (rules : List PolicyRule) (one two : Recording) → one.client ≡ two.client
        → one.owners ≡ two.owners
        → bytes_fed (reverse one.pieces) ≡ bytes_fed (reverse two.pieces)
        → filtered rules one ≡ filtered rules two }
{}
