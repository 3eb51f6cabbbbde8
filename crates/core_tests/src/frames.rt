//! That a frame of up to 512 bytes is handed to the sink in one call.

use frame_link::*;
use std::alloc::{AllocError, Global};
use std::test::*;

// The call of a sink that fails, how each of two frames is put, and how much was written.
const WRITES: &[(u64, Put, Put, usize)] = &[
    (0, Put::WriteFault, Put::Done, 513),
    (1, Put::Done, Put::WriteFault, 512),
    (2, Put::Done, Put::WriteFault, 516),
    (3, Put::Done, Put::Done, 1025),
];

// Whether this comes of two frames at a sink. The first is the largest that is written in one
// piece, the second one byte longer.
fn are_put(alloc: Global, row: (u64, Put, Put, usize)) -> Result<bool, AllocError> {
    let (call, first, second, len) = row;
    let fails = vec![in alloc; call]?;
    let mut sink = MemSink::new(alloc, 2000, fails)?;
    let is_first = put_frame(&mut sink, &[1; SMALL_FRAME - 4]) == first;
    let is_second = put_frame(&mut sink, &[2; SMALL_FRAME - 3]) == second;
    let faults = if call < 3 { 1 } else { 0 };
    Ok(is_first && is_second && sink.written().len() == len && sink.faults() == faults)
}

#[test]
fn a_small_frame_is_one_call_and_a_larger_one_two(rt: HostRuntime) -> Result<(), Fail> {
    for &row in WRITES {
        assert!(rt; are_put(rt.alloc(), row)?, "at {}", row.0);
    }
    Ok(())
}
