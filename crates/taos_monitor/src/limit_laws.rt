//! The limit of a request, as a law.

ghost use Rattle.std.specs.Prelude.{◌≡◌};
ghost use Rattle.taos_monitor.specs.declared.connection.TheConstants.{MAX_REQUEST};

/// A request has at most 65,536 bytes.
pub fn limits_are()
    ensures { MAX_REQUEST ≡ 65536 }
{}
