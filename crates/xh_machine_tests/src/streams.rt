//! Readers and writers that fail, and a reader without an end.
use crate::harness::{SCRIPT, SMALL, assert_fails};
use std::alloc::Global;
use std::io;
use std::io::{Read, Write};
use xh_core::Config;
use xh_runner::run_serial;
use xh_script::{Fault, FaultKind, Watched};

const OUTPUT: &[u8] =
    b"1 ok 0\n2 ok 1\n3 ok\n4 ok 48\n5 ok 16\n6 ok 1\n7 no 6 NotOwned\n8 ok 1 7 48 16\n9 ok\n\
     10 ok beef0000\narena 0 256 128 1 128 0\nprocess a running 1 32\nprocess b running 3 96\n\
     owned 128\nflight 0\nout 128\n";

/// Gives one byte at a time, and fails at a given read.
#[derive(Drop)]
struct OneByOne<'a> {
    left: &'a [u8],
    reads: usize,
}

impl<'a> Read for OneByOne<'a> {
    fn read(&mut self, room: &mut [u8]) -> io::Result<usize> {
        if self.reads == 0 {
            return Err(io::Error::from(io::ErrorKind::Other));
        }
        self.reads -= 1;
        match self.left.split_first() {
            Some((b, rest)) if !room.is_empty() => {
                room[0] = *b;
                self.left = rest;
                Ok(1)
            }
            _ => Ok(0),
        }
    }
}

/// Gives the sign of a comment for ever.
#[derive(Drop)]
struct Endless;

impl Read for Endless {
    fn read(&mut self, room: &mut [u8]) -> io::Result<usize> {
        room.fill(b'#');
        Ok(room.len())
    }
}

/// Takes one byte at a time, and fails, or takes none, at a given write.
#[derive(Drop)]
struct Choppy {
    taken: Vec<u8>,
    writes: usize,
    is_failing: bool,
}

impl Write for Choppy {
    fn write(&mut self, bytes: &[u8]) -> io::Result<usize> {
        if self.writes == 0 {
            if self.is_failing {
                return Err(io::Error::from(io::ErrorKind::Other));
            }
            return Ok(0);
        }
        self.writes -= 1;
        if bytes.is_empty() {
            return Ok(0);
        }
        self.taken.push(bytes[0])?;
        Ok(1)
    }

    fn flush(&mut self) -> io::Result<()> {
        Ok(())
    }
}

#[test]
fn a_reader_fails_at_each_read(rt: HostRuntime) {
    for reads in 0..=SCRIPT.len() {
        let reader = OneByOne {
            left: SCRIPT,
            reads,
        };
        assert_fails(&rt, rt.alloc(), SMALL, reader, Fault::Read);
    }
}

// How a run ended whose writer fails at this write, or takes nothing, and what it took.
fn run_choppy(alloc: Global, writes: usize, is_failing: bool) -> (Result<(), Fault>, Vec<u8>) {
    let mut reader = Watched::new(SCRIPT);
    let mut out = Choppy {
        taken: Vec::new(alloc),
        writes,
        is_failing,
    };
    let mut writer = Watched::new(&mut out);
    let ended = run_serial(alloc, &mut reader, &mut writer, SMALL);
    (ended, out.taken)
}

#[test]
fn a_writer_fails_at_each_write(rt: HostRuntime) {
    for turn in 0..2 * OUTPUT.len() {
        let (ended, taken) = run_choppy(rt.alloc(), turn / 2, turn % 2 == 0);
        assert!(rt; ended == Err(Fault::Write) && taken.as_slice() == &OUTPUT[..turn / 2]);
    }
}

#[test]
fn a_reader_without_an_end(rt: HostRuntime) {
    let fault = Fault::Script {
        line: 0,
        kind: FaultKind::TooLong,
    };
    assert_fails(&rt, rt.alloc(), SMALL, Endless, fault);
}

/// Configs outside their limits: arenas, bytes, records, depth and wear.
const BAD_CONFIGS: &[(u8, u32, u16, u8, u64)] = &[
    (0, 256, 256, 4, 0),
    (9, 256, 256, 4, 0),
    (1, 40, 256, 4, 0),
    (1, 0, 256, 4, 0),
    (1, 1_048_592, 256, 4, 0),
    (1, 256, 0, 4, 0),
    (1, 256, 257, 4, 0),
    (1, 256, 256, 0, 0),
    (1, 256, 256, 17, 0),
    (1, 256, 256, 4, 9_223_372_036_854_775_808),
];

/// A config outside its limits is refused before the first read, which would fail.
#[test]
fn bad_configs(rt: HostRuntime) {
    for (arenas, bytes, records, depth, wear) in BAD_CONFIGS {
        let config = Config {
            arenas: *arenas,
            bytes: *bytes,
            records: *records,
            depth: *depth,
            wear: *wear,
        };
        let reader = OneByOne {
            left: SCRIPT,
            reads: 0,
        };
        assert_fails(&rt, rt.alloc(), config, reader, Fault::BadConfig);
    }
}
