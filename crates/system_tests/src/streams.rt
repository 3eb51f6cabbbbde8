use frame_link::{Failed, Sink, Source};
use node_telling::Watched;
use std::alloc::Global;
use std::fs::File;
use std::io;
use std::io::{ErrorKind, Read, Write};
use std::test::*;
use system_io::{FileReading, Origin, Patient, Reading, Writing};

fn fails<S: Source>(source: &mut S) -> bool {
    let mut room = [0u8; 4];
    source.read(&mut room) == Err(Failed)
}

// Whether so many bytes come, and then none, twice.
fn gives<S: Source>(source: &mut S, count: usize) -> bool {
    let mut room = [0u8; 512];
    source.read(&mut room) == Ok(count)
        && source.read(&mut room) == Ok(0)
        && source.read(&mut room) == Ok(0)
}

// A folder that is open for reading: each read and each write of it fails.
#[test]
fn each_fault_of_a_reader_is_counted(rt: HostRuntime) -> Result<(), Fail> {
    let mut input = Reading::new(File::open(&rt, "/")?);
    assert!(rt; fails(&mut input));
    assert!(rt; fails(&mut input));
    assert!(rt; input.faults() == 2);
    Ok(())
}

#[test]
fn each_fault_of_a_writer_is_counted(rt: HostRuntime) -> Result<(), Fail> {
    let mut output = Writing::new(File::open(&rt, "/")?);
    assert!(rt; output.write(&[1]) == Err(Failed));
    assert!(rt; output.faults() == 1);
    Ok(())
}

// Keys of one digit each: two alike, and one of zeros.
const KEYS: &[u8] =
    b"taos 1\nnode 1 1111111111111111111111111111111111111111111111111111111111111111\n\
    channel 1 2222222222222222222222222222222222222222222222222222222222222222\n# channel\n\
    channel 2 1111111111111111111111111111111111111111111111111111111111111111\n\
    channel 3 0000000000000000000000000000000000000000000000000000000000000000\n";

const TOLD: &[u8] =
    b"taosd: keys: line 6: a key of zeros\ntaosd: keys: line 5: the key of line 2\n";

// Whether these lines are told of a file that is read to its end.
fn are_told(alloc: Global, file: &[u8], lines: &[u8]) -> bool {
    let mut told = Vec::new(alloc);
    let mut watched = Watched::new(alloc, Reading::new(file), "keys", &mut told);
    let is_given = gives(&mut watched, file.len());
    drop(watched);
    is_given && told.as_slice() == lines
}

#[test]
fn lines_whose_keys_are_alike_or_zero_are_named(rt: HostRuntime) {
    assert!(rt; are_told(rt.alloc(), KEYS, TOLD));
}

const MISSING: &[u8] = b"taosd: no such: entity not found\n";

// Whether it fails, and its reason is told in this line.
fn is_missing(alloc: Global, line: &[u8]) -> bool {
    let reason = Origin::Missing(io::Error::from(ErrorKind::NotFound));
    let mut told = Vec::new(alloc);
    let mut file: FileReading<'_, File, _> = FileReading::new(reason, "no such", &mut told);
    let is_so = fails(&mut file) && file.faults() == 1;
    drop(file);
    is_so && told.as_slice() == line
}

#[test]
fn a_file_that_is_not_there_fails(rt: HostRuntime) {
    assert!(rt; is_missing(rt.alloc(), MISSING));
}

// Whether nothing comes, and nothing is told.
fn is_empty(alloc: Global) -> bool {
    let mut told = Vec::new(alloc);
    let mut file: FileReading<'_, File, _> = FileReading::new(Origin::Empty, "-", &mut told);
    let is_so = gives(&mut file, 0) && file.faults() == 0;
    drop(file);
    is_so && told.is_empty()
}

#[test]
fn no_file_is_empty(rt: HostRuntime) {
    assert!(rt; is_empty(rt.alloc()));
}

// A stream that has nothing, and takes nothing, at so many calls, and then a byte.
#[derive(Drop)]
struct Late {
    calls: u32,
}

impl Late {
    fn call(&mut self) -> io::Result<usize> {
        if self.calls == 0 {
            return Ok(1);
        }
        self.calls -= 1;
        Err(io::Error::from(ErrorKind::WouldBlock))
    }
}

impl Read for Late {
    fn read(&mut self, into: &mut [u8]) -> io::Result<usize> {
        let count = self.call()?;
        Ok(count.min(into.len()))
    }
}

impl Write for Late {
    fn write(&mut self, piece: &[u8]) -> io::Result<usize> {
        let count = self.call()?;
        Ok(count.min(piece.len()))
    }

    fn flush(&mut self) -> io::Result<()> {
        Ok(())
    }
}

#[test]
fn what_is_not_there_yet_is_waited_for(rt: HostRuntime) {
    let mut input = Reading::new(Patient::new(Late { calls: 3 }, &rt));
    let mut room = [0u8; 4];
    assert!(rt; input.read(&mut room) == Ok(1) && input.faults() == 0);
    let mut output = Writing::new(Patient::new(Late { calls: 3 }, &rt));
    assert!(rt; output.write(&room) == Ok(1) && output.faults() == 0);
    let mut bare = Reading::new(Late { calls: 1 });
    assert!(rt; fails(&mut bare) && bare.faults() == 1);
}
