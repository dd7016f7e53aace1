//! What the blocks of all records hold.
ghost use Rattle.std.specs.Prelude.{◌≡◌, ◌+◌, ◌≤◌, ◌<◌, IfOk, None, OnErr, OnOk, drop, length, replicate, slice_set, take};
ghost use Rattle.xh_serial.specs.BlockCommands.{overwritten};
ghost use Rattle.xh_serial.specs.Machine.{blank, body, refilled};

use std::alloc::{AllocError, Global};
use std::marker::Model;

/// The direction toward a record, where it is an endpoint, and its bytes, where it is a data block.
#[derive(Drop)]
struct Body {
    end: Option<u8>,
    bytes: Vec<u8>,
}

impl Model for Body {
    ghost use Rattle.xh_serial.specs.Machine.{BodyOf};

    ghost Value = { BodyOf };

    ghost view = { λ b. record { end = b.end; bytes = b.bytes.items } };
}

/// A record without bytes.
fn blank(alloc: Global, end: Option<u8>) -> Body
    ensures { result ≡ blank end }
{
    Body {
        end,
        bytes: Vec::new(alloc),
    }
}

/// So many zeros.
pub(crate) fn zeros(alloc: Global, count: u32) -> Result<Vec<u8>, AllocError>
    ensures { IfOk result (λ bytes. bytes.items ≡ replicate count 0) }
{
    vec![in alloc; 0; count as usize]
}

/// What each record has, the bytes of a data block in memory of exactly its length.
#[derive(Drop)]
pub(crate) struct Blocks {
    bodies: Vec<Body>,
}

impl Model for Blocks {
    ghost use Rattle.std.specs.Prelude.{List};
    ghost use Rattle.xh_serial.specs.Machine.{BodyOf};

    ghost Value = { List BodyOf };

    ghost view = { λ b. b.bodies.items };
}

impl Blocks {
    /// No endpoints and no bytes.
    pub(crate) fn none(alloc: Global, count: u16) -> Result<Blocks, AllocError>
        ensures { IfOk result (λ blocks. blocks ≡ replicate count (blank None)) }
    {
        let mut bodies = Vec::with_capacity(alloc, usize::from(count))?;
        for _ in 0..count {
            bodies.push(blank(alloc, None))?;
        }
        Ok(Blocks { bodies })
    }

    /// The direction toward a record, where it is an endpoint.
    pub(crate) fn end(&self, r: u16) -> Option<u8>
        ensures { result ≡ (body self.now r).end }
    {
        self.bodies.get(usize::from(r))?.end
    }

    /// A record has no bytes from now on; this is the direction toward it, where it is an endpoint.
    pub(crate) fn bind(&mut self, r: u16, end: Option<u8>)
        requires { r < length self.old }
        ensures { self.new ≡ slice_set self.old r (blank end) }
    {
        self.bodies[usize::from(r)] = blank(*self.bodies.allocator(), end);
    }

    /// A record has these bytes from now on.
    pub(crate) fn fill(&mut self, r: u16, bytes: Vec<u8>)
        requires { r < length self.old }
        ensures { self.new ≡ refilled r bytes.items self.old }
    {
        self.bodies[usize::from(r)].bytes = bytes;
    }

    /// Writes the bytes of a record from `at` on into `out`, as many as it has room for.
    pub(crate) fn copy(&self, r: u16, at: usize, out: &mut [u8])
        requires there { r < length self.now }
        requires within { at + length out.old ≤ length (body self.now r).bytes }
        ensures { out.new ≡ take (length out.old) (drop at (body self.now r).bytes) }
    {
        out.copy_from_slice(&self.bodies[usize::from(r)].bytes[at..at + out.len()]);
    }

    /// These bytes come in the place of as many of a record from `at` on.
    pub(crate) fn overwrite(&mut self, r: u16, at: usize, bytes: &[u8])
        requires there { r < length self.old }
        requires within { at + length bytes.now ≤ length (body self.old r).bytes }
        ensures { self.new ≡ refilled r (overwritten at bytes.now (body self.old r).bytes) self.old }
    {
        self.bodies[usize::from(r)].bytes[at..at + bytes.len()].copy_from_slice(bytes);
    }

    /// Only the first `at` bytes of a record stay, and the record `t` gets what is past them. A
    /// refused growth leaves all as it was.
    pub(crate) fn split(
        &mut self,
        alloc: Global,
        r: u16,
        t: u16,
        at: usize,
    ) -> Result<(), AllocError>
        requires there { r < length self.old }
        requires within { at ≤ length (body self.old r).bytes }
        requires other { t < length self.old }
        ensures done { OnOk result (self.new ≡ refilled t (drop at (body self.old r).bytes) (refilled r (take at (body self.old r).bytes) self.old)) }
        ensures kept { OnErr result (self.new ≡ self.old) }
    {
        let bytes = &mut self.bodies[usize::from(r)].bytes;
        let tail = bytes[at..].to_vec(alloc)?;
        bytes.truncate(at);
        bytes.shrink_to_fit();
        self.fill(t, tail);
        Ok(())
    }
}
