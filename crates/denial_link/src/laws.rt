//! The law of first links, as the contract of a function that does nothing.

ghost use Rattle.std.specs.Prelude.{List, ℕ};
ghost use Rattle.prin_term.specs.declared.term.Anchor.{Anchor};
ghost use Rattle.prin_term.specs.Principal.{Principal};
ghost use Rattle.prin_term.specs.View.{Grant};
ghost use Rattle.stmt_codec.specs.Certificates.{Certificate};
ghost use Rattle.denial_link.specs.Links.{HasOneLink};

/// No question has two first links.
pub fn one_first_link()
    ensures { (anchors : List Anchor) (certs : List Certificate) (moment : ℕ)
        (subject : Principal) (list : List Grant) (right : ℕ)
        → HasOneLink anchors certs moment subject list right }
{}
