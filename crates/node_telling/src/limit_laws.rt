//! The waits and limits of what is told, as a law.

ghost use Rattle.std.specs.Prelude.{◌≡◌};
ghost use Rattle.node_telling.specs.declared.journals.TheConstants.{FILLING, OBJECTS, WATCHED};
ghost use Rattle.node_telling.specs.declared.notices.TheConstants.{WAITING};
ghost use Rattle.node_telling.specs.declared.scribe.TheConstants.{LINES, LAST};
ghost use Rattle.node_telling.specs.declared.status_door.TheConstants.{ASKING, SEATS};
ghost use Rattle.node_telling.specs.declared.texts.reply.TheConstants.{FRONT};
ghost use Rattle.node_telling.specs.declared.texts.status.TheConstants.{
  ANSWERS,
  BUCKETS,
  CAUSES,
  STATUSES,
};

/// Each wait and each limit is this number.
/// Each table has so many rows, and the front of a reply so many bytes.
pub fn limits_are()
    ensures notices { (WAITING ≡ 64) × (LINES ≡ 100) × (LAST ≡ 2000) }
    ensures journals { (WATCHED ≡ 64) × (OBJECTS ≡ 256) × (FILLING ≡ 80) }
    ensures status { (ASKING ≡ 5) × (SEATS ≡ 8) }
    ensures tables { (STATUSES ≡ 16) × (ANSWERS ≡ 7) × (CAUSES ≡ 8) }
    ensures times { BUCKETS ≡ 17 }
    ensures front { FRONT ≡ 28 }
{}
