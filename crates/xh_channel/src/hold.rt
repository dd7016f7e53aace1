//! What keeps a channel's number.
use crate::waiting::OwnSignal;

/// While it is there, the number of the channel that was open when it was made doesn't come back.
#[derive(Drop)]
pub struct Hold {
    pub(crate) signal: OwnSignal,
}
