//! Laws of requests and replies, stated as contracts of functions that do nothing.

ghost use Rattle.std.specs.Prelude.{◌≡◌, ◌↔◌, ◌<◌, ◌^◌, ◌++◌, [], All, List, ℕ, Option, Ok};
ghost use Rattle.std.specs.Prelude.{Err, length};
ghost use Rattle.byte_fields.specs.Formats.{IsFaultIn};
ghost use Rattle.byte_fields.specs.Steps.{IsByte};
ghost use Rattle.taos_wire.specs.Request.{Request, FitsRequest, IsSealed, Spells, sealed};
ghost use Rattle.byte_fields.specs.declared.fault.FormatFault.{FormatFault as WireFault};
ghost use Rattle.byte_fields.specs.declared.fault.FormatFault.TheVariants.{Malformed};
ghost use Rattle.taos_wire.specs.RequestReading.{request_of};
ghost use Rattle.taos_wire.specs.Reply.{Reply, FitsReply, SpellsReply, sent, spelling};
ghost use Rattle.taos_wire.specs.ReplyReading.{reply_of};

/// No bytes spell two requests.
pub fn one_request()
    ensures { (q r : Request) (bytes : List ℕ) → Spells q bytes → Spells r bytes → q ≡ r }
{}

/// What is written under a key is sealed by it, and is read back as the request that it was.
pub fn written_is_read()
    ensures spelled { (key : List ℕ) (r : Request) → FitsRequest r → Spells r (sealed key r) }
    ensures read { (key : List ℕ) (r : Request) → FitsRequest r
        → request_of (sealed key r) ≡ Ok r }
    ensures seal { (key : List ℕ) (r : Request) → IsSealed key (sealed key r) }
{}

/// No spelling begins another: one that is cut is refused at the cut, and what follows one at its
/// first byte.
pub fn no_proper_prefix()
    ensures alone { (q r : Request) (front more : List ℕ) → Spells q front
        → Spells r (front ++ more) → more ≡ [] }
    ensures cut { (r : Request) (front more : List ℕ) → All IsByte (front ++ more)
        → Spells r (front ++ more) → 0 < length more
        → request_of front ≡ Err (Malformed (length front)) }
    ensures longer { (r : Request) (bytes more : List ℕ) → Spells r bytes → 0 < length more
        → request_of (bytes ++ more) ≡ Err (Malformed (length bytes)) }
{}

/// Reading as a function gives exactly the request that the bytes spell. Other bytes are refused at
/// one of them or right after the last, and never for memory.
pub fn requests_are_read()
    ensures read { (bytes : List ℕ) (r : Request) → All IsByte bytes
        → (request_of bytes ≡ Ok r) ↔ Spells r bytes }
    ensures refused { (bytes : List ℕ) (f : WireFault) → All IsByte bytes
        → request_of bytes ≡ Err f → IsFaultIn bytes f }
{}

/// No bytes spell two replies.
pub fn one_reply()
    ensures { (c d n m : ℕ) (q r : Reply) (bytes : List ℕ) → SpellsReply c n q bytes
        → SpellsReply d m r bytes → (c ≡ d) × (n ≡ m) × (q ≡ r) }
{}

/// A reply that is written, under a key or none, is read back as it was.
pub fn reply_is_read()
    ensures spelled { (key : Option (List ℕ)) (channel seq : ℕ) (r : Reply) → channel < 2 ^ 32
        → seq < 2 ^ 64 → FitsReply r
        → SpellsReply channel seq r (spelling (sent key channel seq r)) }
    ensures read { (key : Option (List ℕ)) (channel seq : ℕ) (r : Reply) → channel < 2 ^ 32
        → seq < 2 ^ 64 → FitsReply r
        → reply_of (spelling (sent key channel seq r)) ≡ Ok (channel, seq, r) }
{}

/// No reply's spelling begins another: one that is cut is refused at the cut, and what follows one
/// at its first byte.
pub fn no_reply_begins_another()
    ensures alone { (c d n m : ℕ) (q r : Reply) (front more : List ℕ) → SpellsReply c n q front
        → SpellsReply d m r (front ++ more) → more ≡ [] }
    ensures cut { (channel seq : ℕ) (r : Reply) (front more : List ℕ) → All IsByte (front ++ more)
        → SpellsReply channel seq r (front ++ more) → 0 < length more
        → reply_of front ≡ Err (Malformed (length front)) }
    ensures longer { (channel seq : ℕ) (r : Reply) (bytes more : List ℕ)
        → SpellsReply channel seq r bytes → 0 < length more
        → reply_of (bytes ++ more) ≡ Err (Malformed (length bytes)) }
{}

/// Reading as a function gives exactly the reply that the bytes spell, with the channel and the
/// number that it answers. Other bytes are refused at one of them or right after the last, and
/// never for memory.
pub fn replies_are_read()
    ensures read { (bytes : List ℕ) (channel seq : ℕ) (r : Reply) → All IsByte bytes
        → (reply_of bytes ≡ Ok (channel, seq, r)) ↔ SpellsReply channel seq r bytes }
    ensures refused { (bytes : List ℕ) (f : WireFault) → All IsByte bytes
        → reply_of bytes ≡ Err f → IsFaultIn bytes f }
{}
