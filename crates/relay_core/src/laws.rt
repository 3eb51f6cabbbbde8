//! Laws of the relay, stated as contracts of functions that do nothing.

ghost use Rattle.std.specs.Prelude.{◌≡◌, ◌<◌, ◌≤◌, ◌^◌, ℕ, List, All, length};
ghost use Rattle.keyed_seal.specs.Keys.{Entries};
ghost use Rattle.stmt_codec.specs.Certificates.{Certificate, IsWithinLimits};
ghost use Rattle.frame_link.specs.declared.outcome.Outcome.{Outcome};
ghost use Rattle.frame_link.specs.Relay.{Said};
ghost use Rattle.frame_link.specs.Served.{Line, IsServed, payloads_of};
ghost use Rattle.sealed_cert.specs.Seals.{sealed};
ghost use Rattle.relay_core.specs.declared.resealing.RelayTable.{RelayTable};
ghost use Rattle.relay_core.specs.Resealing.{resealed, IsResealed};
ghost use Rattle.relay_core.specs.Serving.{Answers, GivesUp, IsReply};

/// Of the cases of resealing one holds of any bytes, and no other.
pub fn one_case_holds()
    ensures some { (issuers nodes : Entries) (node : ℕ) (bytes : List ℕ) → All (λ b. b < 256) bytes
        → IsResealed issuers nodes node bytes (resealed issuers nodes node bytes) }
    ensures alone { (issuers nodes : Entries) (node : ℕ) (bytes : List ℕ) (said : Said)
        → All (λ b. b < 256) bytes → IsResealed issuers nodes node bytes said
        → said ≡ resealed issuers nodes node bytes }
{}

/// A certificate within the limits is at most 1,023 bytes long under a seal.
pub fn sealed_certificates_are_short()
    ensures { (kind : ℕ) (key : List ℕ) (c : Certificate) → IsWithinLimits c
        → length (sealed kind key c) ≤ 1023 }
{}

/// Each turn of a connection that a table serves has the reply of a relay with the table's keys,
/// and each whole frame has its turn.
pub fn each_turn_is_a_reply()
    ensures replies { (limit : ℕ) (before after : Line RelayTable) (outcome : Outcome)
        → (served : IsServed Answers GivesUp limit before after outcome)
        → All (IsReply before.service) served.turns }
    ensures all { (limit : ℕ) (before after : Line RelayTable) (outcome : Outcome)
        → (served : IsServed Answers GivesUp limit before after outcome)
        → served.payloads ≡ payloads_of served.turns }
{}
