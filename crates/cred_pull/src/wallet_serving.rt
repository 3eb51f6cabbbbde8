//! Serving a connection with a wallet: one reply frame to each frame, in order.

ghost use Rattle.std.specs.Prelude.{◌≡◌, ◌≢◌};
ghost use Rattle.frame_link.specs.declared.outcome.Outcome.TheVariants.{ClockFault};
ghost use Rattle.frame_link.specs.Served.{line, IsServed, HasCauses, IsComplete};
ghost use Rattle.cred_pull.specs.WalletFile.{AreShort};
ghost use Rattle.cred_pull.specs.WalletServing.{Answers, GivesUp};
ghost use Rattle.cred_pull.specs.WalletView.{rows_of};

use crate::wallet::Wallet;
use crate::wallet_answer::reply_to;
use arrayvec::ArrayVec;
use frame_link::{Failed, FrameBuf, MAX_PAYLOAD, Outcome, Service, Sink, Source, serve_frames};
use std::alloc::Global;

// A wallet, and the reply that stands ready, with room for the longest.
#[derive(Drop)]
struct Giving<'a> {
    wallet: &'a Wallet,
    reply: ArrayVec<u8, 16418>,
}

impl<'a> Service for Giving<'a> {
    ghost answers = { λ s payload reply t.
        Answers (rows_of s.wallet.now) payload reply (rows_of t.wallet.now) };

    ghost gives_up = { λ s payload t. GivesUp (rows_of s.wallet.now) payload (rows_of t.wallet.now) };

    ghost ready = { λ s. s.reply.items };

    ghost faults = { λ _. 0 };

    ghost stands = { λ s. AreShort (rows_of s.wallet.now) };

    fn answer(&mut self, payload: &[u8]) -> Result<(), Failed> {
        reply_to(self.wallet, payload, &mut self.reply);
        Ok(())
    }

    fn reply(&self) -> &[u8] {
        self.reply.as_slice()
    }
}

/// Serves a connection: each frame of the input, at most so many, is answered by one frame of the
/// output, before the next is read. `NoMemory` comes only before the first. A wallet of a file has no
/// certificate that is too long (`read_wallet`).
pub fn serve_wallet<I: Source, O: Sink>(
    alloc: Global,
    wallet: &Wallet,
    input: &mut I,
    output: &mut O,
    frames: u64,
) -> Outcome
    requires short { AreShort (rows_of wallet.now) }
    ensures served { IsServed Answers GivesUp frames
        (line (I.shown input.old) (O.shown output.old) (rows_of wallet.now))
        (line (I.shown input.new) (O.shown output.new) (rows_of wallet.now)) result }

    // A wallet has no clock.
    ensures causes { HasCauses (λ _. 0)
        (line (I.shown input.old) (O.shown output.old) (rows_of wallet.now))
        (line (I.shown input.new) (O.shown output.new) (rows_of wallet.now)) result }
    ensures clock { result ≢ ClockFault }
    ensures complete { IsComplete (λ _. 0) frames
        (line (I.shown input.old) (O.shown output.old) (rows_of wallet.now))
        (line (I.shown input.new) (O.shown output.new) (rows_of wallet.now)) result }
{
    let Ok(mut buf) = FrameBuf::new(alloc, MAX_PAYLOAD) else {
        return Outcome::NoMemory;
    };
    let mut service = Giving {
        wallet,
        reply: ArrayVec::new(),
    };
    serve_frames(&mut service, &mut buf, input, output, frames)
}
