//! What the seats of a vault's table know, and the steps on it. No value of a `Part` is ever made.
use atomic_table::{Join, Play, Split, TableRule};
use std::collections::LinkedList;
use std::marker::{Brand, PhantomData};

/// A view is a list of parts: none where it is spent.
pub enum Part {
    /// The vault's: the length of each record, the bytes taken and given back by all tallies, and how many tallies there are.
    Books(LinkedList<u32>, u64, u64, u8),
    /// A lot's: its record and its length.
    Length(u16, u32),
    /// A tally's: its number, and the bytes that it has taken and given back.
    Moved(u8, u64, u64),
}

/// The parts that one seat has.
pub type View = LinkedList<Part>;

/// The rule of a vault's table: all views together have each part once. The key is how many lots and tallies there are.
pub struct Law;

impl TableRule<(), View, (u16, u8)> for Law {
    ghost use Rattle.xh_arena.specs.inner.Parts.{Kept, first_parts};

    ghost holds = { λ _ s. Kept s };

    ghost first = { λ key. first_parts key.0 key.1 };
}

/// The first part goes to a seat of its own.
pub struct OffTheTop;

impl Split<View> for OffTheTop {
    ghost use Rattle.xh_arena.specs.inner.Parts.{top, below};

    ghost left = { below };

    ghost right = { top };
}

/// The parts of the other seat go before the seat's own.
pub struct OnTop;

impl Join<View> for OnTop {
    ghost use Rattle.std.specs.Prelude.{[], ◌++◌};

    ghost both = { λ v w. w ++ v };

    ghost spent = { [] };
}

/// Nothing goes to a seat of its own.
pub struct Nothing;

impl Split<View> for Nothing {
    ghost use Rattle.std.specs.Prelude.{[]};

    ghost left = { λ v. v };

    ghost right = { λ _. [] };
}

/// A change of parts that a step is told, for the proof alone, and that it keeps the whole.
pub trait Change {
    ghost use Rattle.std.specs.Prelude.{List};
    ghost use Rattle.xh_arena.specs.declared.parts.Part.{Part};
    ghost use Rattle.xh_arena.specs.inner.Parts.{Keeps};

    ghost change: { List Part → List Part };

    ghost keeps: { Keeps change };
}

impl Change for Brand {
    ghost change = { λ v. v };

    ghost keeps = { λ _ _ kept. kept };
}

/// The parts of a seat are changed, and what they were is of one whole.
pub struct Changes<C> {
    change: PhantomData<C>,
}

impl<C: Change> Play<(), View> for Changes<C> {
    ghost use Rattle.xh_arena.specs.inner.Parts.{Changed};

    ghost then = { Changed C.change };
}

/// The parts of the other seat go under the seat's first.
pub struct Under;

impl Join<View> for Under {
    ghost use Rattle.std.specs.Prelude.{[]};
    ghost use Rattle.xh_arena.specs.inner.Parts.{under};

    ghost both = { under };

    ghost spent = { [] };
}
