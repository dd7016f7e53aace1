//! Several records at a time: they are passed, accepted, or described.
ghost use Rattle.std.specs.Prelude.{◌≡◌};
ghost use Rattle.xh_serial.specs.Commands.{accept_all, accept_from, described, pass_all};

use arrayvec::ArrayVec;
use xh_core::{Block, Event, Plain};
use xh_model::limits::MAX_BLOCKS;

/// `p` passes these records to a direction.
pub(crate) fn pass_all(plain: &mut Plain, p: u16, d: u8, blocks: &[u16])
    ensures { plain.new ≡ pass_all p d blocks.now plain.old }
{
    for r in blocks {
        plain.step(Event::Pass(p, *r, d));
    }
}

/// `p` accepts these records, which are in flight on `d`.
pub(crate) fn accept_all(plain: &mut Plain, p: u16, d: u8, blocks: &[u16])
    ensures { plain.new ≡ accept_all p d blocks.now plain.old }
{
    for r in blocks {
        plain.step(Event::Accept(p, *r, d));
    }
}

/// The same, where there is such a direction.
pub(crate) fn accept_from(plain: &mut Plain, p: u16, end: Option<u8>, blocks: &[u16])
    ensures { plain.new ≡ accept_from p end blocks.now plain.old }
{
    if let Some(d) = end {
        accept_all(plain, p, d, blocks);
    }
}

/// These records as blocks, each with its length.
pub(crate) fn describe(
    plain: &Plain,
    blocks: &ArrayVec<u16, MAX_BLOCKS>,
) -> ArrayVec<Block, MAX_BLOCKS>
    ensures { result.items ≡ described plain.now blocks.now.items }
{
    let mut list = ArrayVec::new();
    for r in blocks.as_slice() {
        list.push(Block {
            rec: *r,
            len: plain.len(*r),
        });
    }
    list
}
