//! A `&mut` to a thing of the outside is one, and shows the same.

ghost use Rattle.frame_link.specs.Lent.{To};

use crate::outside::{Clock, Failed, RelayAnswer, RelayLink, Sink, Source};
use arrayvec::ArrayVec;

impl<S: Source> Source for &mut S {
    ghost shown = { λ s. S.shown s.now };

    ghost borrows = { λ s. To s.ghost_name (S.borrows s.now) };

    fn read(&mut self, into: &mut [u8]) -> Result<usize, Failed> {
        (**self).read(into)
    }
}

impl<K: Sink> Sink for &mut K {
    ghost shown = { λ s. K.shown s.now };

    ghost borrows = { λ s. To s.ghost_name (K.borrows s.now) };

    fn write(&mut self, piece: &[u8]) -> Result<usize, Failed> {
        (**self).write(piece)
    }
}

impl<C: Clock> Clock for &mut C {
    ghost shown = { λ c. C.shown c.now };

    ghost borrows = { λ c. To c.ghost_name (C.borrows c.now) };

    fn now(&mut self) -> Result<u64, Failed> {
        (**self).now()
    }
}

impl<R: RelayLink> RelayLink for &mut R {
    ghost shown = { λ r. R.shown r.now };

    ghost borrows = { λ r. To r.ghost_name (R.borrows r.now) };

    fn reseal(
        &mut self,
        node: u32,
        sealed: &[u8],
        out: &mut ArrayVec<u8, 2048>,
    ) -> Result<RelayAnswer, Failed> {
        (**self).reseal(node, sealed, out)
    }
}
