//! The table of measures.

use crate::calls::Work;
use crate::calls::Work::{AllocFree, GiveTake, Kill, Message, Overview, Read, Write};
use crate::pieces::Piece::{
    Copied, Exchange, Load, Lock, Pooled, PushPop, ToAndFro, Vector, Zeroed,
};
use crate::pieces::Pieces;

/// A measure: its name, by how many threads, what is measured, the most that it may be in hundredths of what stands
/// beside it, and that.
pub(crate) type Row = (&'static str, u8, Work, u64, Pieces);

const VECTOR_64: Pieces = &[(1, Vector(64))];

const VECTOR_4K: Pieces = &[(1, Vector(4096))];

const VECTOR_1M: Pieces = &[(1, Vector(1 << 20))];

const POOL_4K: Pieces = &[(1, Pooled(4096))];

const ALLOC: Pieces = &[(4, Lock), (4, Exchange), (1, Zeroed(64))];

const MESSAGE_1: Pieces = &[(2, Lock), (1, PushPop), (5, Exchange)];

const MESSAGE_8: Pieces = &[(2, Lock), (1, PushPop), (19, Exchange)];

const COPY_16: Pieces = &[(1, Lock), (1, Copied(16))];

const COPY_4K: Pieces = &[(1, Lock), (1, Copied(4096))];

const KILL_16: Pieces = &[(16, Lock), (16, Exchange), (8, Zeroed(64))];

const KILL_256: Pieces = &[(256, Lock), (256, Exchange), (128, Zeroed(64))];

const LOOK: Pieces = &[(8, Lock), (96, Load)];

pub(crate) const ROWS: &[Row] = &[
    ("message_64", 1, Message(64, 0), 560, VECTOR_64),
    ("message_64_255", 1, Message(64, 255), 560, VECTOR_64),
    ("message_4k", 1, Message(4096, 0), 300, VECTOR_4K),
    ("message_4k_pool", 1, Message(4096, 0), 350, POOL_4K),
    ("message_1m", 1, Message(1 << 20, 0), 105, VECTOR_1M),
    ("message_64_across", 2, Message(64, 0), 165, VECTOR_64),
    ("message_4k_across", 2, Message(4096, 0), 140, VECTOR_4K),
    ("message_4k_pool_across", 2, Message(4096, 0), 215, POOL_4K),
    ("message_1m_across", 2, Message(1 << 20, 0), 115, VECTOR_1M),
    ("alloc_free_1", 1, AllocFree(64, 1), 245, ALLOC),
    ("alloc_free_255", 1, AllocFree(64, 255), 255, ALLOC),
    ("allocs_apart_4", 4, AllocFree(64, 0), 245, ALLOC),
    ("give_take_1", 1, GiveTake(1), 500, MESSAGE_1),
    ("give_take_8", 1, GiveTake(8), 620, MESSAGE_8),
    ("read_16", 1, Read(16), 230, COPY_16),
    ("read_4096", 1, Read(4096), 150, COPY_4K),
    ("write_16", 1, Write(16), 230, COPY_16),
    ("write_4096", 1, Write(4096), 150, COPY_4K),
    ("kill_16", 1, Kill(16), 255, KILL_16),
    ("kill_256", 1, Kill(256), 225, KILL_256),
    ("overview", 1, Overview, 670, LOOK),
    ("ping_pong", 2, Work::ToAndFro, 130, &[(1, ToAndFro)]),
    ("stream", 2, GiveTake(0), 130, &[(1, Vector(0))]),
    ("pairs_4", 4, GiveTake(0), 130, &[(1, Vector(0))]),
];
