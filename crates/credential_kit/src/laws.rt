//! What the forms give together, stated as contracts of functions that do nothing.

ghost use Rattle.std.specs.Prelude.{ℕ, List};
ghost use Rattle.prin_term.specs.declared.term.Anchor.{Anchor};
ghost use Rattle.stmt_codec.specs.Certificates.{Certificate};
ghost use Rattle.credential_kit.specs.Conclusions.{LoginSpeaks, DelegateSpeaks, RoleSpeaks};

/// A login's four certificates, with the anchors of the machine and of the user, let the channel
/// speak for the machine's system for the user until the first of them ends.
pub fn a_login_speaks_for_its_user()
    ensures { (anchors : List Anchor) (certs : List Certificate) (moment : ℕ)
        → LoginSpeaks anchors certs moment }
{}

/// A login's certificates with those of a second machine and a delegation let the second machine's
/// channel speak for its system for the first one's for the user.
pub fn a_delegation_reaches_a_second_machine()
    ensures { (anchors : List Anchor) (certs : List Certificate) (moment : ℕ)
        → DelegateSpeaks anchors certs moment }
{}

/// A role's certificate, with the user's anchor, lets the key speak for the user in the role.
pub fn a_role_speaks_for_its_user()
    ensures { (anchors : List Anchor) (certs : List Certificate) (moment : ℕ)
        → RoleSpeaks anchors certs moment }
{}
