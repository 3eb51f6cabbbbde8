//! The length of a tag, as a law.

ghost use Rattle.std.specs.Prelude.{◌≡◌};
ghost use Rattle.keyed_seal.specs.declared.tag.TheConstants.{TAG_LEN};

/// A tag has 32 bytes.
pub fn limits_are()
    ensures { TAG_LEN ≡ 32 }
{}
