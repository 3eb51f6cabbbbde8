//! Laws of pulled certificates and of what gives them, stated as contracts of functions that do
//! nothing.

ghost use Rattle.std.specs.Prelude.{◌≡◌, ℕ, List, All};
ghost use Rattle.sealed_cert.specs.Seals.{Opens, sealed};
ghost use Rattle.sealed_cert.specs.declared.kind.TheConstants.{RELAYED};
ghost use Rattle.stmt_codec.specs.Certificates.{Certificate};
ghost use Rattle.relay_core.specs.Credentials.{LinkCall};
ghost use Rattle.cred_pull.specs.Fetching.{Texts};
ghost use Rattle.cred_pull.specs.FetchMessages.{IsGiving};
ghost use Rattle.cred_pull.specs.Pulled.{ArePulled};

/// Each certificate that is appended opens under the node's key.
pub fn what_is_appended_opens()
    ensures { (key : List ℕ) (texts : Texts) (calls : List LinkCall)
        (certs : List Certificate) → ArePulled key texts calls certs
        → All (λ c. Opens key (sealed RELAYED key c) c) certs }
{}

/// A payload gives one list of certificates, if any.
pub fn what_is_given_is_one_list()
    ensures { (payload : List ℕ) (certs others : Texts) → IsGiving payload certs
        → IsGiving payload others → certs ≡ others }
{}

/// The texts that are looked at and the calls of the link leave one list of certificates.
pub fn the_calls_leave_no_choice()
    ensures { (key : List ℕ) (texts : Texts) (calls : List LinkCall) (certs others : List Certificate)
        → ArePulled key texts calls certs → ArePulled key texts calls others → certs ≡ others }
{}
