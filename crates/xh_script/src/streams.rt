//! Readers and writers that count which of their calls failed.
ghost use Rattle.std.specs.Prelude.{◌≡◌, ◌≢◌, ◌<◌, ◌≤◌, [], take, length, IfSome, IfNone};
ghost use Rattle.std.specs.Io.KnownBytes.{Appends, IsAtEnd, Keeps};
ghost use Rattle.xh_script.specs.Watching.{failures, inner_of, ReadsBytes, WritesBytes, WritesOrFails};

use crate::Fault;
use std::io::{Read, Write};

/// A reader or a writer, and how many of its calls have failed (modulo 2^64, so that no count is
/// that of the call before).
#[derive(Drop)]
pub struct Watched<T> {
    inner: T,
    failures: u64,
}

impl<T> Watched<T> {
    /// No call has failed yet.
    pub fn new(stream: T) -> Watched<T>
        ensures inner { inner_of result ≡ stream }
        ensures still { failures result ≡ 0 }
    {
        Watched {
            inner: stream,
            failures: 0,
        }
    }
}

impl<R: Read> Watched<R> {
    /// Reads some bytes, and none only at the end. `None` where the reader failed.
    pub fn read(&mut self, room: &mut [u8]) -> Option<usize>
        ensures bound { IfSome result (λ n. n ≤ length room.new) }
        ensures some { IfSome result (λ n. ReadsBytes R.remaining self.old self.new (take n room.new)) }
        ensures end { IfSome result (λ n. n ≡ 0 → 0 < length room.new → IsAtEnd (R.remaining (inner_of self.new))) }
        ensures none { IfNone result (Keeps (R.remaining (inner_of self.old)) (R.remaining (inner_of self.new))
            × (failures self.new ≢ failures self.old)) }
    {
        match self.inner.read(room) {
            Ok(n) => Some(n),
            Err(_) => {
                self.failures = self.failures.wrapping_add(1);
                None
            }
        }
    }
}

impl<W: Write> Watched<W> {
    /// Writes some of the bytes, at least one. `None` where the writer failed or took none.
    pub fn write(&mut self, bytes: &[u8]) -> Option<usize>
        requires { 0 < length bytes.now }
        ensures bound { IfSome result (λ n. (0 < n) × (n ≤ length bytes.now)) }
        ensures some { IfSome result (λ n. WritesBytes W.contents self.old self.new (take n bytes.now)) }
        ensures none { IfNone result (Appends (W.contents (inner_of self.old)) (W.contents (inner_of self.new)) []
            × (failures self.new ≢ failures self.old)) }
    {
        match self.inner.write(bytes) {
            Ok(n) if n > 0 => Some(n),
            _ => {
                self.failures = self.failures.wrapping_add(1);
                None
            }
        }
    }

    /// Sends everything that was written on its way.
    pub fn flush(&mut self) -> Result<(), Fault>
        ensures { WritesOrFails W.contents self.old self.new result [] }
    {
        match self.inner.flush() {
            Ok(()) => Ok(()),
            Err(_) => {
                self.failures = self.failures.wrapping_add(1);
                Err(Fault::Write)
            }
        }
    }
}
