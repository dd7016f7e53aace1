//! What an end of a channel may do.

/// The side, 0 or 1, puts a message with this tag, or takes the message at the front toward it.
#[derive(Clone, Copy, Debug)]
pub enum Turn {
    Put(u8, u16),
    Take(u8),
}
