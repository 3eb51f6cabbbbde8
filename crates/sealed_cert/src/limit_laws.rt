//! The kinds of sealed certificates, as a law.

ghost use Rattle.std.specs.Prelude.{◌≡◌};
ghost use Rattle.sealed_cert.specs.declared.kind.TheConstants.{ISSUED, RELAYED};

/// The first byte says whose seal it is: 1 the issuer's, 2 a relay's for a node.
pub fn limits_are()
    ensures issued { ISSUED ≡ 1 }
    ensures relayed { RELAYED ≡ 2 }
{}
