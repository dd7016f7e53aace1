//! Each prefix of a script is a script of its own, or has a fault of its own.
use crate::harness::{SCRIPT, SMALL, assert_fails, run_alone};
use std::alloc::{AllocError, Global};
use std::process::Abort;
use std::test::Fail;
use xh_script::{Fault, FaultKind};

/// What each prefix of a line is that has so many of its bytes, the end of the line among them: a script (.), or a fault of
/// that line: BadCount (C), BadWord (W), BadHex (H).
const MARKS: [&str; 10] = [
    "CCCCCCCW..",
    "CCCCCCCW..",
    "CCCCWCWCWCWCW..",
    "CWWWWWCWCWCCW..",
    "CWWWWWCWCWCCW..",
    "CWWWWCWCW.W.W..",
    "CWWWWCWCW.W..",
    "CWWWWCW.W.W..",
    "CWWWWWCWCWCWH.H..",
    "CWWWWCWCWCW..",
];

/// What the whole script's commands are answered.
const REPLIES: [&str; 10] = [
    "1 ok 0\n",
    "2 ok 1\n",
    "3 ok\n",
    "4 ok 48\n",
    "5 ok 16\n",
    "6 ok 1\n",
    "7 no 6 NotOwned\n",
    "8 ok 1 7 48 16\n",
    "9 ok\n",
    "10 ok beef0000\n",
];

const NONE: &str = "arena 0 256 0 1 0 0\nowned 0\nflight 0\nout 0\n";

const ONE: &str = "arena 0 256 0 1 0 0\nprocess a running 0 0\nowned 0\nflight 0\nout 0\n";

const TWO: &str =
    "arena 0 256 0 1 0 0\nprocess a running 0 0\nprocess b running 0 0\nowned 0\nflight 0\nout 0\n";

const WIRED: &str = "arena 0 256 64 1 64 0\nprocess a running 1 32\nprocess b running 1 32\n\
    owned 64\nflight 0\nout 64\n";

const HALF: &str = "arena 0 256 112 1 112 0\nprocess a running 2 80\nprocess b running 1 32\n\
    owned 112\nflight 0\nout 112\n";

const MADE: &str = "arena 0 256 128 1 128 0\nprocess a running 3 96\nprocess b running 1 32\n\
    owned 128\nflight 0\nout 128\n";

/// One of the two blocks was given.
const SENT: &str = "arena 0 256 128 1 128 0\nprocess a running 2 48\nprocess b running 1 32\n\
    owned 80\nflight 48\nout 128\n";

const GIVEN: &str = "arena 0 256 128 1 128 0\nprocess a running 1 32\nprocess b running 1 32\n\
    owned 64\nflight 64\nout 128\n";

/// Both were given, and then a message without blocks.
const AGAIN: &str =
    "7 ok 2\narena 0 256 128 1 128 0\nprocess a running 1 32\nprocess b running 1 32\n\
    owned 64\nflight 64\nout 128\n";

const TAKEN: &str = "arena 0 256 128 1 128 0\nprocess a running 1 32\nprocess b running 3 96\n\
    owned 128\nflight 0\nout 128\n";

/// The prefixes that are scripts, from so many bytes on: how many of the whole script's replies each writes, and what it
/// writes then.
const WRITTEN: &[(usize, usize, &str)] = &[
    (0, 0, NONE),
    (9, 1, ONE),
    (19, 2, TWO),
    (34, 3, WIRED),
    (49, 4, HALF),
    (64, 5, MADE),
    (75, 6, MADE),
    (77, 6, SENT),
    (79, 6, GIVEN),
    (90, 6, AGAIN),
    (92, 7, GIVEN),
    (101, 8, TAKEN),
    (120, 9, TAKEN),
    (135, 10, TAKEN),
];

// What the prefix of so many bytes writes, where it is a script.
fn text_of(alloc: Global, length: usize) -> Result<String, AllocError> {
    let mut all = String::new(alloc);
    if let Some((_from, count, text)) = WRITTEN.iter().rfind(|row| row.0 <= length) {
        for reply in REPLIES.iter().take(*count) {
            all.push_str(reply)?;
        }
        all.push_str(text)?;
    }
    Ok(all)
}

// The prefix of so many bytes, which ends in this line, is what the mark says.
fn assert_prefix(
    rt: &impl Abort,
    alloc: Global,
    length: usize,
    line: u32,
    mark: u8,
) -> Result<(), Fail> {
    let prefix = SCRIPT.get(..length).expect(rt, "a prefix");
    let kind = match mark {
        b'C' => FaultKind::BadCount,
        b'W' => FaultKind::BadWord,
        b'H' => FaultKind::BadHex,
        _ => {
            let (ended, text) = run_alone(alloc, SMALL, prefix);
            assert!(rt; ended == Ok(()), "{length}");
            assert!(rt;
                text.as_slice() == text_of(alloc, length)?.as_bytes(),
                "{length}"
            );
            return Ok(());
        }
    };
    assert_fails(rt, alloc, SMALL, prefix, Fault::Script { line, kind });
    Ok(())
}

/// Each prefix of a script writes its own replies and ledger, or tells its fault, and then writes nothing.
#[test]
fn prefixes(rt: HostRuntime) -> Result<(), Fail> {
    assert_prefix(&rt, rt.alloc(), 0, 0, b'.')?;
    let (mut length, mut line) = (0usize, 0u32);
    for marks in MARKS {
        line = line.wrapping_add(1);
        for mark in marks.bytes() {
            length = length.wrapping_add(1);
            assert_prefix(&rt, rt.alloc(), length, line, mark)?;
        }
    }
    assert_eq!(&rt; length, SCRIPT.len());
    Ok(())
}
