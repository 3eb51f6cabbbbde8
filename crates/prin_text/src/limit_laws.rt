//! The limits of texts and files, as a law.

ghost use Rattle.std.specs.Prelude.{◌≡◌};
ghost use Rattle.prin_text.specs.declared.limits.TheConstants.{MAX_TEXT, MAX_NAMES, MAX_ROLES, MAX_ENTRIES};
ghost use Rattle.prin_text.specs.declared.lines.limits.TheConstants.{MAX_FILE};

/// Bytes of a text, rows of a table and entries of a list: each limit is this number.
/// The limit of a file is this number.
pub fn limits_are()
    ensures text { MAX_TEXT ≡ 32 }
    ensures names { MAX_NAMES ≡ 1024 }
    ensures roles { MAX_ROLES ≡ 256 }
    ensures entries { MAX_ENTRIES ≡ 8 }
    ensures file { MAX_FILE ≡ 4194304 }
{}
