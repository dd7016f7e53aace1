//! Why a put was refused.
use thiserror::Error;

/// Why a put was refused. Who put has the list of the blocks. The names and numbers are those of the heap's refusals.
#[derive(Drop, Debug, Error)]
pub enum Unsent {
    /// In this state the channel's contract allows no message with this tag from this side. Number 22.
    #[error("in this state the contract allows no message with this tag from this side")]
    Protocol,
    /// The peer is shut. Number 15.
    #[error("the peer is shut")]
    PeerClosed,
    /// As many messages wait as may, or the direction has carried its last message. Number 14.
    #[error("the direction is full")]
    Full,
}
