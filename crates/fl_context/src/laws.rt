//! Laws of the definitions in this crate's contracts, for crates that build on it. Each law is the
//! contract of a function with an empty body.

ghost use Rattle.std.specs.Prelude.{◌≡◌, ◌++◌, List};
ghost use Rattle.fl_meta.specs.declared.permission.Permission.{Permission};
ghost use Rattle.fl_meta.specs.declared.permission.Mention.{Mention};
ghost use Rattle.fl_context.specs.Grants.{last_mention, value_in, later, IsAscending};

/// States that a later layer decides about each permission that it mentions.
pub fn later_layers_decide()
    ensures { (before after : List Mention) (p : Permission) → last_mention (before ++ after) p ≡
        later (last_mention after p) (last_mention before p) }
{}

/// States that in an ascending list the only mention of a permission is its last one.
pub fn one_mention_is_the_last()
    ensures { (mentions : List Mention) (p : Permission) → IsAscending mentions → last_mention
        mentions p ≡ value_in mentions p }
{}

/// States that two ascending lists with the same values are equal.
pub fn same_values_same_list()
    ensures { (one other : List Mention) → IsAscending one → IsAscending other →
        ((p : Permission) → value_in one p ≡ value_in other p) → one ≡ other }
{}
