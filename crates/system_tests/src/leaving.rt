use node_telling::Telling;
use std::alloc::{AllocError, Global};
use std::io;
use std::io::{Read, Write};
use std::sync::Arc;
use std::sync::atomic::{AtomicU64, Ordering};
use std::test::*;
use system_io::{Deferred, Outbox, Patient, Prompt};

// How many bytes have left, and how often they were flushed.
#[derive(Drop)]
struct Gone {
    bytes: AtomicU64,
    flushes: AtomicU64,
}

// A writer that takes all and says so.
#[derive(Drop)]
struct Taker(Arc<Gone, Global>);

impl Write for Taker {
    fn write(&mut self, piece: &[u8]) -> io::Result<usize> {
        self.0.bytes.fetch_add(piece.len() as u64, Ordering::SeqCst);
        Ok(piece.len())
    }

    fn flush(&mut self) -> io::Result<()> {
        self.0.flushes.fetch_add(1, Ordering::SeqCst);
        Ok(())
    }
}

fn have_left(gone: &Gone, bytes: u64, flushes: u64) -> bool {
    gone.bytes.load(Ordering::SeqCst) == bytes && gone.flushes.load(Ordering::SeqCst) == flushes
}

// As the program writes to its output: with room for eight bytes.
fn waiting_for(
    rt: &HostRuntime,
    alloc: Global,
    gone: &Arc<Gone, Global>,
) -> io::Result<Outbox<Patient<Taker, HostRuntime>>> {
    let taker = Taker(Arc::try_clone(gone)?);
    Outbox::with_capacity(alloc, 8, Patient::new(taker, *rt))
}

fn none_gone(alloc: Global) -> Result<Arc<Gone, Global>, AllocError> {
    let gone = Gone {
        bytes: AtomicU64::new(0),
        flushes: AtomicU64::new(0),
    };
    Ok(Arc::new(alloc, gone)?)
}

#[test]
fn what_waits_leaves_before_a_read_and_by_a_flush(rt: HostRuntime) -> Result<(), Fail> {
    let gone = none_gone(rt.alloc())?;
    let outbox = waiting_for(&rt, rt.alloc(), &gone)?;
    let mut output = Telling::new(Deferred::new(&outbox), &rt, None, None, None);
    let input: &[u8] = &[7];
    let mut input = Prompt::new(input, &outbox);
    let mut room = [0u8; 4];
    assert!(rt; output.write(&[1, 2])? == 2 && have_left(&gone, 0, 0));
    assert!(rt; input.read(&mut room)? == 1 && room == [7, 0, 0, 0]);
    assert!(rt; have_left(&gone, 2, 1));
    output.write_all(&[3])?;
    assert!(rt; have_left(&gone, 2, 1));
    output.flush()?;
    assert!(rt; have_left(&gone, 3, 2));
    Ok(())
}
