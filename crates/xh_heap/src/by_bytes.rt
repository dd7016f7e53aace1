//! Messages of bytes: what comes at an end, and what a handle does beside its calls.
ghost use Rattle.std.specs.Prelude.{◌≡◌, []};
ghost use Rattle.xh_heap.specs.ByBytes.{Regains, Unpacks, bytes_in};

use crate::process::Process;
use crate::values::{Block, Item, Message, Returned};
use xh_core::Refused;

/// What came: the bytes of a message of one data block alone, with the zeros behind those that were put; or another message.
#[derive(Debug, Drop)]
pub enum Came {
    Bytes { no: u64, tag: u16, bytes: Vec<u8> },
    Message(Message),
}

impl Came {
    /// Its bytes. NotData of another message, whose items are let go.
    pub fn bytes(self) -> Result<Vec<u8>, Refused>
        ensures { result ≡ bytes_in self }
    {
        match self {
            Came::Bytes { bytes, .. } => Ok(bytes),
            Came::Message(_) => Err(Refused::NotData),
        }
    }
}

// A message that was taken, by its bytes where it is one data block.
pub(crate) fn unpack<P: Process>(own: &mut P, mut message: Message) -> Came
    ensures { Unpacks P.leads message message.items.items result (P.handle own.old) (P.handle own.new) }
{
    let [Item::Block(_)] = message.items.as_slice() else {
        return Came::Message(message);
    };
    let Some(Item::Block(block)) = message.items.pop() else {
        unreachable!()
    };
    let Message { no, tag, mut items } = message;
    match own.into_bytes(block) {
        Ok(bytes) => Came::Bytes { no, tag, bytes },
        Err(returned) => {
            items.push(Item::Block(returned.value));
            Came::Message(Message { no, tag, items })
        }
    }
}

// What a give of a block answered; of one that came back the bytes are the buffer's.
pub(crate) fn regain<P: Process>(
    own: &mut P,
    told: Result<u64, Returned<Option<Block>>>,
    bytes: &mut Vec<u8>,
) -> Result<u64, Refused>
    requires { bytes.old.items ≡ [] }
    ensures { Regains P.leads told result bytes.new.items (P.handle own.old) (P.handle own.new) }
{
    match told {
        Ok(number) => Ok(number),
        Err(Returned { why, value }) => match value {
            None => Err(why),
            Some(block) => match own.into_bytes(block) {
                Ok(regained) => {
                    *bytes = regained;
                    Err(why)
                }
                Err(_refused) => Err(why),
            },
        },
    }
}
