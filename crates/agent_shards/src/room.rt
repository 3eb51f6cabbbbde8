//! Room ahead for what a thread keeps.

use std::alloc::Global;

// A block of so many bytes comes from the thread's own heap; from 128 KiB on it may be the system's.
const BLOCK: usize = 126_976;

// So many fill such a heap, which has 64 MiB.
const BLOCKS: usize = 512;

/// Takes room in the heap of this thread and gives it back. What the thread takes later comes from
/// there, without a call of the system for each page of 4,096 bytes, in which the threads of a program
/// wait for each other. Some 62 MiB have such room. Where memory is refused there is less.
pub fn take_room(alloc: Global) {
    let Ok(mut blocks) = Vec::with_capacity(alloc, BLOCKS) else {
        return;
    };
    for _ in 0..BLOCKS {
        let Ok(block) = Vec::<u8>::with_capacity(alloc, BLOCK) else {
            return;
        };
        let _ = blocks.push(block);
    }
}
