//! Replies, and how they are written.
ghost use Rattle.std.specs.Prelude.{◌≡◌, ◌≤◌, ◌<◌, length, [], ◌∷◌, codes, map};
ghost use Rattle.std.specs.Fmt.{decimal};
ghost use Rattle.xh_script.specs.Watching.{WritesOrFails};
ghost use Rattle.xh_script.specs.Texts.{hex_digit, hex_text, length_text, line_text, count_of, give_count_of, refusal_text, done, reply_text, answer_texts};
ghost use Rattle.xh_script.specs.inner.Pieces.{piece_text};
ghost use Rattle.xh_script.specs.declared.limits.TheConstants.{MAX_HEX};
ghost use Rattle.xh_script.specs.declared.replies.TheConstants.{NUMBERS};
ghost use Rattle.xh_model.specs.declared.limits.TheConstants.{MAX_BLOCKS};

use crate::limits::MAX_HEX;
use crate::writing::Piece::{Number, Text};
use crate::writing::{Piece, put_line};
use crate::{Fault, Watched};
use arrayvec::ArrayVec;
use std::io::Write;
use xh_core::Refused;
use xh_model::limits::MAX_BLOCKS;

/// The digits of a HEX, at most.
const DIGITS: usize = 2 * MAX_HEX;

/// The words of the longest reply, behind its line: those of a message with all its blocks.
const WORDS: usize = 3 + MAX_BLOCKS;

const OK: Piece = Text(b"ok");

const NO: Piece = Text(b"no");

/// The numbers of a reply, at most.
const NUMBERS: usize = 2;

/// What is answered to a command.
#[derive(Drop)]
pub enum Reply {
    /// The command is done, and these numbers tell of it. `contract`, `wire`, `open` and `write`: none.
    /// `alloc` and `free`: the block's length in bytes; `split`: those of its two parts. `give`: the
    /// message's number in its direction, from 1 on. `close`, `exit` and `kill`: the bytes that the
    /// command reclaimed. `glance`: how many blocks the process holds, and their bytes.
    Done(ArrayVec<u64, NUMBERS>),
    /// `process` and `again` have a place; the process's number (place + 32 × generation).
    Started(u16),
    /// `read`: the bytes.
    Bytes(ArrayVec<u8, MAX_HEX>),
    /// `take` and `await`: the message's number, its tag, and the length of each block, or
    /// `None` for one that another holds.
    Taken {
        number: u64,
        tag: u16,
        blocks: ArrayVec<Option<u32>, MAX_BLOCKS>,
    },
    /// A `give` is refused; a closed peer comes with the number of blocks handed back.
    NotGiven(Refused),
    /// Any other command is refused; a closed peer comes alone.
    No(Refused),
}

/// A reply with the number of its command's line.
#[derive(Drop)]
pub struct NumberedReply {
    pub line: u32,
    pub reply: Reply,
}

impl Reply {
    /// The command is done, and these numbers tell of it.
    pub fn done(numbers: &[u64]) -> Reply
        requires { length numbers.now ≤ NUMBERS }
        ensures { result ≡ done numbers.now }
    {
        let mut told = ArrayVec::new();
        let _ = told.try_extend_from_slice(numbers);
        Reply::Done(told)
    }
}

fn hex_digit(n: u8) -> u8
    requires { n < 16 }
    ensures { result ≡ hex_digit n }
{
    if n < 10 { b'0' + n } else { b'a' - 10 + n }
}

/// Two hexadecimal digits for each byte.
fn hex_text(bytes: &[u8]) -> ArrayVec<u8, DIGITS>
    requires { length bytes.now ≤ MAX_HEX }
    ensures { result.items ≡ hex_text bytes.now }
{
    let mut digits = ArrayVec::new();
    for b in bytes {
        digits.push(hex_digit(*b / 16));
        digits.push(hex_digit(*b % 16));
    }
    digits
}

fn length_piece(length: Option<u32>) -> Piece<'static>
    ensures { piece_text result ≡ length_text length }
{
    match length {
        Some(n) => Number(u64::from(n)),
        None => Text(b"-"),
    }
}

/// The words of numbers, behind `ok`.
fn numbers_words(numbers: &[u64]) -> ArrayVec<Piece<'static>, WORDS>
    requires { length numbers.now ≤ NUMBERS }
    ensures { map piece_text result.items ≡ codes "ok" ∷ map decimal numbers.now }
{
    let mut words = ArrayVec::new();
    words.push(OK);
    for number in numbers {
        words.push(Number(*number));
    }
    words
}

/// The words of a message that was taken.
fn taken(number: u64, tag: u16, lengths: &[Option<u32>]) -> ArrayVec<Piece<'static>, WORDS>
    requires { length lengths.now ≤ MAX_BLOCKS }
    ensures { map piece_text result.items ≡ codes "ok" ∷ decimal number ∷ decimal tag ∷ map length_text lengths.now }
{
    let mut words = ArrayVec::new();
    words.push(OK);
    words.push(Number(number));
    words.push(Number(u64::from(tag)));
    for length in lengths {
        words.push(length_piece(*length));
    }
    words
}

fn count_of(refused: &Refused) -> Option<u32>
    ensures { result ≡ count_of refused.now }
{
    match refused {
        Refused::Full { back } => Some(back.len() as u32),
        Refused::Unfinished { left } => Some(*left),
        _ => None,
    }
}

fn give_count_of(refused: &Refused) -> Option<u32>
    ensures { result ≡ give_count_of refused.now }
{
    match refused {
        Refused::PeerClosed { back } => Some(back.len() as u32),
        _ => count_of(refused),
    }
}

fn put_refusal<W: Write>(
    writer: &mut Watched<W>,
    line: Piece,
    refused: &Refused,
    count: Option<u32>,
) -> Result<(), Fault>
    ensures { WritesOrFails W.contents writer.old writer.new result (refusal_text (piece_text line.entry) refused.now count) }
{
    let code = Number(u64::from(refused.number()));
    let name = Text(refused.name().as_bytes());
    match count {
        None => put_line(writer, line, &[NO, code, name]),
        Some(n) => put_line(writer, line, &[NO, code, name, Number(u64::from(n))]),
    }
}

/// Writes the reply to the command of a line. Where the writer fails, or takes no byte, a prefix of
/// the text was written, and the fault is `Write`.
#[tactic(auto, unfolding(crate::specs::Texts::reply_text))]
pub fn write_reply<W: Write>(writer: &mut Watched<W>, line: u32, reply: &Reply) -> Result<(), Fault>
    ensures { WritesOrFails W.contents writer.old writer.new result (reply_text line reply.now) }
{
    let line = Number(u64::from(line));
    match reply {
        Reply::Done(numbers) => put_line(writer, line, &numbers_words(numbers)),
        Reply::Started(process) => put_line(writer, line, &[OK, Number(u64::from(*process))]),
        Reply::Bytes(bytes) => put_line(writer, line, &[OK, Text(hex_text(bytes).as_slice())]),
        Reply::Taken {
            number,
            tag,
            blocks,
        } => put_line(writer, line, &taken(*number, *tag, blocks)),
        Reply::NotGiven(refused) => put_refusal(writer, line, refused, give_count_of(refused)),
        Reply::No(refused) => put_refusal(writer, line, refused, count_of(refused)),
    }
}

/// Writes replies in their order, as `write_reply` does.
pub fn write_answers<W: Write>(
    writer: &mut Watched<W>,
    answers: &[NumberedReply],
) -> Result<(), Fault>
    ensures { WritesOrFails W.contents writer.old writer.new result (answer_texts answers.now) }
{
    for answered in answers {
        write_reply(writer, answered.line, &answered.reply)?;
    }
    Ok(())
}
