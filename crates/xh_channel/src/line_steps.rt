// Single steps of a seat at its line, and what it does to the line that it holds.
ghost use Rattle.std.specs.Prelude.{◌≡◌, ◌<◌, ◌≤◌, true, false, [], ◌∷◌, Some};
ghost use Rattle.xh_channel.specs.declared.line_rule.LineAccount.{LineAccount};
ghost use Rattle.xh_channel.specs.inner.LineRule.{Found, IsLocked, IsSettled, holding, settled_part};
ghost use Rattle.xh_channel.specs.Lines.{Lined};

use crate::line::Line;
use crate::line_rule::{Keeping, LinePart, Locks, Settles};
use atomic_table::{Seat, Shared};
use std::hint;
use std::sync::Wait;

/// The table, as both ends' threads share it.
pub(crate) type LineBoard = Shared<Option<Line>, LinePart, (), Keeping>;

/// What an end has at the table: its part, and the line while it holds it.
pub(crate) type LineToken = Seat<Option<Line>, LinePart>;

pub(crate) const HOME: u64 = 0;

const OUT: u64 = 1;

const WAITED_FOR: u64 = 2;

/// How often a seat looks at the word before it sleeps: what another does to the line that it holds takes a shorter time.
const LOOKS: u8 = 100;

// Takes the line where it is at home.
fn try_lock(board: &LineBoard, token: &mut LineToken) -> bool
    requires own { (token.old.table_id ≡ board.now.table_id) × (0 < board.now.table_id.words) }
    requires owns { token.old.me.0.owns ≡ true }
    ensures same { (token.new.table_id ≡ token.old.table_id) × (token.new.id ≡ token.old.id) }
    ensures held { result ≡ true → IsLocked token.old.me token.new.me }
    ensures missed { result ≡ false → token.new.me ≡ token.old.me }
{
    board.compare_exchange::<Locks>(token, 0, HOME, OUT) == HOME
}

// Looks for a while, as long as the line is out and no one sleeps.
fn look(board: &LineBoard)
    requires { 0 < board.now.table_id.words }
{
    for _ in 0..LOOKS {
        if board.peek(0) != OUT {
            break;
        }
        hint::spin_loop();
    }
}

// Takes the line, once no other seat holds it. Who finds it out for long sleeps on the word at 2, until it is given back.
pub(crate) fn lock<R: Wait>(rt: &R, board: &LineBoard, token: &mut LineToken)
    requires own { (token.old.table_id ≡ board.now.table_id) × (0 < board.now.table_id.words) }
    requires owns { token.old.me.0.owns ≡ true }
    ensures same { (token.new.table_id ≡ token.old.table_id) × (token.new.id ≡ token.old.id) }
    ensures held { IsLocked token.old.me token.new.me }
{
    if try_lock(board, token) {
        return;
    }
    look(board);
    if try_lock(board, token) {
        return;
    }
    for _ in rt.forever() {
        if board.swap::<Locks>(token, 0, WAITED_FOR) == HOME {
            break;
        }
        board.park(rt, 0, WAITED_FOR as u32);
    }
}

// Gives the line back as it is now, and the token has seen whether its peer is shut.
pub(crate) fn settle(board: &LineBoard, token: &mut LineToken)
    requires own { (token.old.table_id ≡ board.now.table_id) × (0 < board.now.table_id.words) }
    requires owns { (token.old.me.0.owns ≡ true) × (token.old.me.0.holds ≡ true) }
    requires line { (line : Lined) × (token.old.me.1 ≡ (0, Some line) ∷ []) × IsSettled token.old.me.0 line }
    ensures same { (token.new.table_id ≡ token.old.table_id) × (token.new.id ≡ token.old.id) }
    ensures settled { token.new.me ≡ (settled_part token.old.me.0 token.old.me.1, []) }
{
    if board.swap::<Settles>(token, 0, HOME) == WAITED_FOR {
        board.wake_one(0);
    }
}

// Takes the line, which is begun.
pub(crate) fn hold<R: Wait>(rt: &R, board: &LineBoard, token: &mut LineToken)
    requires own { (token.old.table_id ≡ board.now.table_id) × (0 < board.now.table_id.words) }
    requires owns { token.old.me.0.owns ≡ true }
    requires begun { (token.old.me.1 ≡ []) × (1 ≤ token.old.me.0.own.depth) × (token.old.me.0.side ≤ 1) }
    ensures same { (token.new.table_id ≡ token.old.table_id) × (token.new.id ≡ token.old.id) }
    ensures held { (line : Lined) × (peer : LineAccount) × (token.new.me ≡ (holding token.old.me.0 peer, (0, Some line) ∷ [])) × Found token.old.me.0 peer line }
{
    lock(rt, board, token);
}
