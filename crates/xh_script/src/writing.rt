//! How texts are written.
ghost use Rattle.std.specs.Prelude.{◌++◌, codes, map};
ghost use Rattle.xh_script.specs.Watching.{WritesOrFails};
ghost use Rattle.xh_script.specs.Texts.{line_text};
ghost use Rattle.xh_script.specs.inner.Pieces.{piece_text};

use crate::{Fault, Watched};
use itoa::Buffer;
use std::io::Write;

/// Writes bytes, by as many calls as it takes. Where the writer fails, or takes no byte, a prefix of them
/// was written, and the fault is `Write`.
pub fn put<W: Write>(writer: &mut Watched<W>, bytes: &[u8]) -> Result<(), Fault>
    ensures { WritesOrFails W.contents writer.old writer.new result bytes.now }
{
    let mut rest = bytes;
    while !rest.is_empty() {
        let Some(n) = writer.write(rest) else {
            return Err(Fault::Write);
        };
        let (_, after) = rest.split_at(n);
        rest = after;
    }
    Ok(())
}

/// A piece of a text: bytes as they are, or the digits of a number.
#[derive(Clone, Copy)]
pub(crate) enum Piece<'a> {
    Text(&'a [u8]),
    Number(u64),
}

impl Default for Piece<'_> {
    fn default() -> Self {
        Piece::Number(0)
    }
}

fn put_piece<W: Write>(writer: &mut Watched<W>, piece: &Piece) -> Result<(), Fault>
    ensures { WritesOrFails W.contents writer.old writer.new result (piece_text piece.now) }
{
    let mut digits = Buffer::new();
    match piece {
        Piece::Text(text) => put(writer, text),
        Piece::Number(number) => put(writer, digits.format(*number).as_bytes()),
    }
}

/// Writes a word behind a space.
fn put_word<W: Write>(writer: &mut Watched<W>, word: &Piece) -> Result<(), Fault>
    ensures { WritesOrFails W.contents writer.old writer.new result (codes " " ++ piece_text word.now) }
{
    put(writer, b" ")?;
    put_piece(writer, word)
}

/// Writes a line: words with a space between each two.
pub(crate) fn put_line<W: Write>(
    writer: &mut Watched<W>,
    first: Piece,
    words: &[Piece],
) -> Result<(), Fault>
    ensures { WritesOrFails W.contents writer.old writer.new result (line_text (piece_text first.entry) (map piece_text words.now)) }
{
    put_piece(writer, &first)?;
    for word in words {
        put_word(writer, word)?;
    }
    put(writer, b"\n")
}
