//! Calls that only a kernel has, beside those of both machines: buffers that become blocks, blocks that become buffers, and takes at
//! several endpoints, by one worker.
use crate::answers::Answer::{self, Block, No};
use crate::answers::{Call, LACKING, answer_of, assert_row};
use crate::machines::{BufferMachine, Case, TookAt};
use std::alloc::{AllocError, Global};
use std::process::Abort;

/// A call of a machine and what it answers; these bytes in a buffer with room for so many, which a process puts into an arena; the
/// bytes of a block that goes, or why it doesn't; or a take at any of these ends of a process and what it is told.
#[derive(Clone, Copy)]
pub enum Step<'a> {
    Call(Call<'a>, Answer),
    Put(u16, &'a [u8], usize, u32, Answer),
    Out(u16, u16, Result<&'a [u8], &'static str>),
    Any(u16, &'a [u16], TookAt),
}

fn buffer_of(alloc: Global, bytes: &[u8], room: usize) -> Result<Vec<u8>, AllocError> {
    let mut buffer = Vec::with_capacity(alloc, room)?;
    buffer.extend_from_slice(bytes)?;
    Ok(buffer)
}

// What a put answers, which leaves nothing in the buffer, or all where it is refused.
fn put_of<W: BufferMachine>(
    rt: &impl Abort,
    worker: &mut W,
    p: u16,
    buffer: &mut Vec<u8>,
    arena: u32,
) -> Answer {
    let before = buffer.len();
    let answered = match worker.put(p, buffer, arena) {
        Ok(block) => Block(block.rec, block.len),
        Err(refused) => No(refused.name()),
    };
    let left = if matches!(answered, No(_)) { before } else { 0 };
    assert_eq!(rt; buffer.len(), left);
    answered
}

// A put, once more where a growth was refused.
fn assert_put<W: BufferMachine>(
    rt: &impl Abort,
    alloc: Global,
    worker: &mut W,
    at: usize,
    (p, bytes, room, arena, expected): (u16, &[u8], usize, u32, Answer),
) {
    let Ok(mut buffer) = buffer_of(alloc, bytes, room).or_else(|_refused| buffer_of(
        alloc, bytes, room,
    )) else {
        panic!(rt; "no room");
    };
    let mut answered = put_of(rt, worker, p, &mut buffer, arena);
    if answered == LACKING {
        assert!(rt; buffer.as_slice() == bytes);
        answered = put_of(rt, worker, p, &mut buffer, arena);
    }
    assert_row(rt, at, answered, expected);
    assert!(rt; buffer.is_empty() || buffer.as_slice() == bytes);
}

/// What a take was told is what is expected.
pub fn assert_told(rt: &impl Abort, at: usize, was_told: TookAt, expected: TookAt) {
    assert_eq!(rt; was_told, expected, "step {at}");
}

/// Steps, each of which is made, and what it answers compared.
#[derive(Drop)]
pub struct Steps<'a>(pub &'a [Step<'a>]);

impl<'a> Case for Steps<'a> {
    fn try_by<W: BufferMachine>(&self, rt: &impl Abort, alloc: Global, worker: &mut W) {
        for (at, step) in self.0.iter().enumerate() {
            match step {
                Step::Call(call, expected) => {
                    assert_row(rt, at, answer_of(worker, alloc, *call), *expected);
                }
                Step::Put(p, bytes, room, arena, expected) => {
                    let put = (*p, *bytes, *room, *arena, *expected);
                    assert_put(rt, alloc, worker, at, put);
                }
                Step::Out(p, r, expected) => {
                    let told = worker.into_bytes(*p, *r).map_err(|refused| refused.name());
                    let is_so = match (&told, expected) {
                        (Ok(bytes), Ok(wanted)) => bytes.as_slice() == *wanted,
                        (Err(why), Err(wanted)) => *why == *wanted,
                        _ => false,
                    };
                    assert!(rt; is_so, "step {at}");
                }
                Step::Any(p, ends, expected) => {
                    assert_told(rt, at, worker.take_any(*p, ends), *expected);
                }
            }
        }
    }
}
