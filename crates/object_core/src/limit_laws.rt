//! The limits of an object and of what is asked of it, as a law.

ghost use Rattle.std.specs.Prelude.{◌≡◌};
ghost use Rattle.object_core.specs.declared.limits.TheConstants.{MAX_CONTENT, MAX_ENTRIES, MAX_RIGHTS};
ghost use Rattle.object_core.specs.declared.operation.TheConstants.{LAST_KIND};

/// What an object has at most, and the last kind of operation: each is this number.
pub fn limits_are()
    ensures content { MAX_CONTENT ≡ 4096 }
    ensures entries { MAX_ENTRIES ≡ 8 }
    ensures rights { MAX_RIGHTS ≡ 15 }
    ensures kinds { LAST_KIND ≡ 8 }
{}
