//! Lists of records.
ghost use Rattle.std.specs.Prelude.{◌≡◌, ◌+◌, ◌≤◌, ◌==◌, ◌++◌, length};
ghost use Rattle.std.specs.List.{position, position_or_len};
ghost use Rattle.xh_serial.specs.MessageCommands.{without_records};

use arrayvec::ArrayVec;

/// These go to the end of a list.
pub(crate) fn extend<const ROOM: usize>(list: &mut ArrayVec<u16, ROOM>, blocks: &[u16])
    requires { length list.old.items + length blocks.now ≤ ROOM }
    ensures { list.new.items ≡ list.old.items ++ blocks.now }
{
    let _ = list.try_extend_from_slice(blocks);
}

/// These as a list of their own.
pub(crate) fn listed<const ROOM: usize>(blocks: &[u16]) -> ArrayVec<u16, ROOM>
    requires { length blocks.now ≤ ROOM }
    ensures { result.items ≡ blocks.now }
{
    let mut list = ArrayVec::new();
    extend(&mut list, blocks);
    list
}

/// These leave a list, wherever they stand in it.
pub(crate) fn drop_all<const ROOM: usize>(list: &mut ArrayVec<u16, ROOM>, blocks: &[u16])
    ensures { list.new.items ≡ without_records blocks.now list.old.items }
{
    list.retain(|r| !blocks.contains(r));
}

/// Where a record stands first in a list, if it does.
fn index_in(list: &[u16], r: u16) -> Option<usize>
    ensures { result ≡ position (λ q. q == r) list.now }
{
    list.iter().position(|q| *q == r)
}

/// The same, or the list's length.
pub(crate) fn index_of(list: &[u16], r: u16) -> usize
    ensures { result ≡ position_or_len (λ q. q == r) list.now }
{
    index_in(list, r).unwrap_or(list.len())
}
