//! A law of keys: called where it is wanted, its clause is a fact from there on.

ghost use Rattle.ref_messages.specs.Laws.{KeysAreTold};

/// Two keys compare as equal exactly where they are equal.
pub fn keys_are_told()
    ensures { KeysAreTold }
{}
