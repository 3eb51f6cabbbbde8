//! The limit of lemmas, as a law.

ghost use Rattle.std.specs.Prelude.{◌≡◌};
ghost use Rattle.lemma_memo.specs.declared.memory.TheConstants.{MAX_LEMMAS};

/// How many lemmas there may be: this number.
pub fn limits_are()
    ensures lemmas { MAX_LEMMAS ≡ 1024 }
{}
