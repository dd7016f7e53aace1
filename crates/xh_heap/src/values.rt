//! Blocks and endpoints as values, what messages carry, and what is handed back.
ghost use Rattle.std.specs.Prelude.{◌≡◌, [], ◌∷◌, IfErr, map};
ghost use Rattle.std.specs.Result.{result_map_both};
ghost use Rattle.xh_heap.specs.Values as values;
ghost use Rattle.xh_heap.specs.Values.{answered_of, block_back, block_in, block_of, end_at, end_came, end_in, end_of, item_at, item_of, items_back, len_of, message_of, plain, rec_at};
ghost use Rattle.xh_heap.specs.declared.values.Item.TheVariants as item;

use arrayvec::ArrayVec;
use xh_core::{Block as Named, Kind, Refused};
use xh_kernel::{AnsweredAt, Got, MAX_ENDS, Taken};
use xh_model::limits::MAX_BLOCKS;

/// The number of a record that no arena has: what a value names at another's handle, so that the kernel's own test
/// refuses it, in its order.
pub(crate) const NO_RECORD: u16 = 65_535;

/// More endpoints than a take looks at.
pub(crate) const TOO_MANY_ENDS: usize = MAX_ENDS + 1;

/// A block of bytes, of one process. It can't be copied: whoever has it alone can name it. To let it go frees nothing: the
/// process has the block until it ends. It doesn't know its run: in another one it may name another block.
#[derive(Debug, Drop)]
pub struct Block {
    rec: u16,
    owner: u16,
    len: u32,
}

impl Block {
    /// Its bytes, as many as it had when it was made, taken or last cut.
    pub fn len(&self) -> u32
        ensures { result ≡ len_of self.now }
    {
        self.len
    }

    pub(crate) fn of(owner: u16, named: Named) -> Block
        ensures { result ≡ block_of owner named }
    {
        let Named { rec, len } = named;
        Block { rec, owner, len }
    }

    // Its record, to its owner; to others it names nothing.
    pub(crate) fn at(&self, p: u16) -> u16
        ensures { result ≡ rec_at self.now p }
    {
        if self.owner == p { self.rec } else { NO_RECORD }
    }
}

/// An end of a channel, of one process. It can't be copied; to let it go closes nothing: the process has it until it ends. As a
/// block it doesn't know its run.
#[derive(Debug, Drop)]
pub struct End {
    rec: u16,
    owner: u16,
}

impl End {
    pub(crate) fn of(owner: u16, named: Named) -> End
        ensures { result ≡ end_of owner named }
    {
        End {
            rec: named.rec,
            owner,
        }
    }

    pub(crate) fn at(&self, p: u16) -> u16
        ensures { result ≡ end_at self.now p }
    {
        if self.owner == p { self.rec } else { NO_RECORD }
    }
}

/// An end, or a reference to one.
pub trait AsEnd {
    ghost use Rattle.xh_heap.specs.declared.values.End.{End};

    ghost shows: { Self → End };

    fn as_end(&self) -> &End
        ensures { result.now ≡ shows self.now };
}

impl AsEnd for End {
    ghost shows = { λ end. end };

    fn as_end(&self) -> &End {
        self
    }
}

impl AsEnd for &End {
    ghost shows = { λ end. end.now };

    fn as_end(&self) -> &End {
        *self
    }
}

// The ends' records, to a process; one more than a take looks at, where there are too many.
pub(crate) fn ends_at<E: AsEnd>(p: u16, ends: &[E]) -> ArrayVec<u16, TOO_MANY_ENDS>
    ensures { result.items ≡ values.ends_at E.shows ends.now p }
{
    let seen = &ends[..TOO_MANY_ENDS.min(ends.len())];
    let mut recs = ArrayVec::new();
    for end in seen {
        recs.push(end.as_end().at(p));
    }
    recs
}

/// What a message carries: a block, an end, or what was reclaimed on its way, which names nothing.
#[derive(Debug, Default, Drop)]
pub enum Item {
    Block(Block),
    End(End),
    #[default]
    Missing,
}

/// The items of a message, in order.
pub type Items = ArrayVec<Item, MAX_BLOCKS>;

impl Item {
    fn of(p: u16, got: &Got) -> Item
        ensures { result ≡ item_of p got.now }
    {
        match got {
            Got::Here(named, Kind::Data) => Item::Block(Block::of(p, *named)),
            Got::Here(named, Kind::End) => Item::End(End::of(p, *named)),
            Got::Missing { .. } => Item::Missing,
        }
    }

    fn at(&self, p: u16) -> u16
        ensures { result ≡ item_at p self.now }
    {
        match self {
            Item::Block(block) => block.at(p),
            Item::End(end) => end.at(p),
            Item::Missing => NO_RECORD,
        }
    }
}

/// What can be given: a block, an end, or items of both kinds.
pub trait Load: Drop {
    ghost use Rattle.std.specs.Prelude.{List, ℕ};
    ghost use Rattle.xh_core.specs.declared.refused.Refused.{Refused};
    ghost use Rattle.xh_heap.specs.declared.values.Item.{Item};

    /// What a refused give hands back of it.
    type Back: Drop;

    ghost items: { Self → List Item };

    /// By the process that gave it, and why it was refused.
    ghost back: { ℕ → Refused → Self → Self.Back };

    /// Its records, to a process.
    fn recs(&self, p: u16) -> ArrayVec<u16, MAX_BLOCKS>
        ensures { result.items ≡ map (item_at p) (items self.now) };

    /// What came back.
    fn returned(self, p: u16, why: &Refused) -> Self::Back
        ensures { result ≡ back p why.now self };
}

impl Load for Block {
    type Back = Option<Block>;

    ghost items = { λ block. item.Block block ∷ [] };

    ghost back = { block_back };

    fn recs(&self, p: u16) -> ArrayVec<u16, MAX_BLOCKS> {
        let mut recs = ArrayVec::new();
        recs.push(self.at(p));
        recs
    }

    fn returned(self, p: u16, why: &Refused) -> Option<Block> {
        if is_back(why, self.at(p)) {
            Some(self)
        } else {
            None
        }
    }
}

impl Load for End {
    type Back = Option<End>;

    ghost items = { λ end. item.End end ∷ [] };

    ghost back = { end_came };

    fn recs(&self, p: u16) -> ArrayVec<u16, MAX_BLOCKS> {
        let mut recs = ArrayVec::new();
        recs.push(self.at(p));
        recs
    }

    fn returned(self, p: u16, why: &Refused) -> Option<End> {
        if is_back(why, self.at(p)) {
            Some(self)
        } else {
            None
        }
    }
}

impl Load for Items {
    type Back = Items;

    ghost items = { λ load. load.items };

    ghost back = { λ p why load. record { items = items_back p why load.items } };

    fn recs(&self, p: u16) -> ArrayVec<u16, MAX_BLOCKS> {
        let mut recs = ArrayVec::new();
        for item in self.as_slice() {
            recs.push(item.at(p));
        }
        recs
    }

    fn returned(self, p: u16, why: &Refused) -> Items {
        let mut items = self;
        items.retain(|item| is_back(why, item.at(p)));
        items
    }
}

/// A message that was taken: its number in its direction, from 1, its tag, and its items, now this process's.
#[derive(Debug, Drop)]
pub struct Message {
    pub no: u64,
    pub tag: u16,
    pub items: Items,
}

impl Message {
    pub(crate) fn of(p: u16, taken: Taken) -> Message
        ensures { result ≡ message_of p taken }
    {
        let mut items = Items::new();
        for got in taken.blocks.as_slice() {
            items.push(Item::of(p, got));
        }
        Message {
            no: taken.no,
            tag: taken.tag,
            items,
        }
    }

    /// Its first item, a block; others are let go. NotData of an end; NotOwned of a missing one, or none.
    pub fn block(self) -> Result<Block, Refused>
        ensures { result ≡ block_in self.items.items }
    {
        match self.items.into_iter().next() {
            Some(Item::Block(block)) => Ok(block),
            Some(Item::End(_)) => Err(Refused::NotData),
            _ => Err(Refused::NotOwned),
        }
    }

    /// Its first item, an end; others are let go. NotEndpoint of a block; NotOwned of a missing one, or none.
    pub fn end(self) -> Result<End, Refused>
        ensures { result ≡ end_in self.items.items }
    {
        match self.items.into_iter().next() {
            Some(Item::End(end)) => Ok(end),
            Some(Item::Block(_)) => Err(Refused::NotEndpoint),
            _ => Err(Refused::NotOwned),
        }
    }
}

/// What a take at several ends answers: at which of them, by its index, and what `take` answers there.
#[derive(Debug, Drop)]
pub struct Answered {
    pub at: usize,
    pub answer: Result<Message, Refused>,
}

impl Answered {
    pub(crate) fn of(p: u16, told: Result<AnsweredAt, Refused>) -> Result<Answered, Refused>
        ensures { result ≡ result_map_both (answered_of p) (λ why. why) told }
    {
        told.map(|AnsweredAt { at, answer }| Answered {
            at,
            answer: answer.map(|taken| Message::of(p, taken)),
        })
    }
}

/// Why a call was refused, and what it hands back.
#[derive(Debug, Drop)]
pub struct Returned<V> {
    pub why: Refused,
    pub value: V,
}

impl<V: Drop> From<Returned<V>> for Refused {
    ghost from_gives = { λ returned why. why ≡ returned.why };

    fn from(returned: Returned<V>) -> Refused {
        returned.why
    }
}

// Whether a record that was given came back.
pub(crate) fn is_back(why: &Refused, rec: u16) -> bool
    ensures { result ≡ values.is_back why.now rec }
{
    match why {
        Refused::Full { back } | Refused::PeerClosed { back } | Refused::Protocol { back } => {
            back.contains(&rec)
        }
        _ => true,
    }
}

// The end, where it is still there.
pub(crate) fn end_back(why: &Refused, end: End) -> Option<End>
    ensures { result ≡ values.end_back why.now end }
{
    match why {
        Refused::Unfinished { .. } => None,
        _ => Some(end),
    }
}

// What a give was answered, with what came back.
pub(crate) fn given<L: Load>(
    p: u16,
    load: L,
    told: Result<u64, Refused>,
) -> Result<u64, Returned<L::Back>>
    ensures call { plain result ≡ told }
    ensures returned { IfErr result (λ e. e.value ≡ L.back p e.why load) }
{
    match told {
        Ok(number) => Ok(number),
        Err(why) => {
            let value = load.returned(p, &why);
            Err(Returned { why, value })
        }
    }
}
