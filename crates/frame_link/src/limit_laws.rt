//! The limit of a payload, as a law.

ghost use Rattle.std.specs.Prelude.{◌≡◌};
ghost use Rattle.frame_link.specs.declared.service.TheConstants.{MAX_PAYLOAD};

/// A service is given at most 65,536 bytes.
pub fn limits_are()
    ensures { MAX_PAYLOAD ≡ 65536 }
{}
