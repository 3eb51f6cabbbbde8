//! Who answers the payloads of a connection.

ghost use Rattle.std.specs.Prelude.{◌≡◌, ◌<◌, ◌≤◌, ◌^◌, ℕ, List, length, OnOk, OnErr};
ghost use Rattle.frame_link.specs.Faults.{HasCause};
ghost use Rattle.frame_link.specs.Lent.{Lent, Nothing};

use crate::outside::Failed;

/// The most bytes of a payload that a service is given.
pub const MAX_PAYLOAD: u32 = 65_536;

pub trait Service {
    /// From the first state, the reply answers the payload and leaves the second state.
    ghost answers: { Self → List ℕ → List ℕ → Self → Type 0 };

    /// From the first state, the payload is given up, and the second state is left.
    ghost gives_up: { Self → List ℕ → Self → Type 0 };

    /// The reply that stands ready.
    ghost ready: { Self → List ℕ };

    /// How often its clock has failed.
    ghost faults: { Self → ℕ };

    /// What has to hold of it before each payload.
    ghost stands: { Self → Type 0 } = { λ _. Unit {0} };

    /// What it borrows to change, where its owner is to know what became of that.
    ghost borrows: { Self → Lent } = { λ _. Nothing };

    /// Answers a payload, or gives it up since the clock failed. Any other want is told in the
    /// reply.
    fn answer(&mut self, payload: &[u8]) -> Result<(), Failed>
        requires stands { stands self.old }
        requires short { length payload.now ≤ MAX_PAYLOAD }
        ensures stays { stands self.new }
        ensures same { borrows self.new ≡ borrows self.old }
        ensures answered { OnOk result (answers self.old payload.now (ready self.new) self.new) }
        ensures fits { OnOk result (length (ready self.new) < 2 ^ 32) }
        ensures given_up { OnErr result (gives_up self.old payload.now self.new) }
        ensures cause { HasCause (faults self.old) (faults self.new) result };

    /// The reply to the payload that was answered last.
    fn reply(&self) -> &[u8]
        ensures { result.now ≡ ready self.now };
}
