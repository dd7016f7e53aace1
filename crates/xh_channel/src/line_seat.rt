//! An end's seat at the line of its channel.
ghost use Rattle.std.specs.Prelude.{◌≡◌, ◌+◌, ◌<◌, ◌≤◌, IfOk};
ghost use Rattle.xh_model.specs.declared.limits.TheConstants.{MAX_DEPTH, MAX_MESSAGES};
ghost use Rattle.xh_channel.specs.Agreement.{AgreesWith};
ghost use Rattle.xh_channel.specs.Calls.{EndpointPuts, EndpointShuts, EndpointTakes};
ghost use Rattle.xh_channel.specs.Endpoint.{EndpointOf};
ghost use Rattle.xh_channel.specs.LineSeats.{AreAcross, IsBegun, IsBlank, SeatDoes, begun, on_line, told_across};
ghost use Rattle.std.specs.Arc.{arc_value};
ghost use Rattle.xh_channel.specs.inner.LineRule.{IsWholeLine, high_side, line_view, low_side};

use crate::line::Line;
use crate::line_rule::{BothSides, ComparesLines, LineTable, Sides};
use crate::line_steps::{HOME, LineToken, hold, lock, settle};
use crate::message::Message;
use crate::refused::Refused;
use crate::unsent::Unsent;
use arrayvec::ArrayVec;
use atomic_table::Table;
use std::alloc::{AllocError, Global};
use std::marker::Model;
use std::sync::{Arc, Wait};
use xh_core::Contract;
use xh_model::limits::MAX_BLOCKS;

/// The lock's word lies in a block of these: no two locks are on one cache line.
const WORDS: usize = 16;

/// The seat of one end at its channel's line. Contracts see what the end did and what it was told.
#[derive(Drop)]
pub struct LineSeat {
    table: Arc<LineTable, Global>,
    seat: LineToken,
    side: u8,
}

impl Model for LineSeat {
    ghost use Rattle.std.specs.Arc.{arc_value};
    ghost use Rattle.xh_channel.specs.LineSeats.{LineView};
    ghost use Rattle.xh_channel.specs.inner.LineRule.{IsLineSeat, line_view};

    ghost Value = { LineView };

    ghost view = { λ s. line_view s.seat.table_id s.seat.me.0 };

    ghost invariant = { λ s. IsLineSeat (arc_value s.table).shared.table_id s.seat.table_id s.seat.me s.side };
}

type OwnTable = Arc<LineTable, Global>;

// The table's seat of both sides, cut in two.
#[tactic(auto, using(crate::proofs::LineMoves::has_word, crate::proofs::LineSteps::sides))]
fn cut(low: OwnTable, high: OwnTable, mut token: LineToken) -> (LineSeat, LineSeat)
    requires { IsWholeLine (arc_value low).shared.table_id (arc_value high).shared.table_id token.table_id token.me }
    ensures { (result.0 ≡ line_view token.table_id (low_side token.me.0)) × (result.1 ≡ line_view token.table_id (high_side token.me.0)) }
{
    let seat = low.shared.split_seat::<Sides>(&mut token);
    let low = LineSeat {
        table: low,
        seat: token,
        side: 0,
    };
    let high = LineSeat {
        table: high,
        seat,
        side: 1,
    };
    (low, high)
}

// One seat of both sides, and a handle to the table for each.
fn join(low: LineSeat, high: LineSeat) -> (OwnTable, OwnTable, LineToken)
    requires { AreAcross low high }
    ensures whole { IsWholeLine (arc_value result.0).shared.table_id (arc_value result.1).shared.table_id result.2.table_id result.2.me }
    ensures sides { (low ≡ line_view result.2.table_id (low_side result.2.me.0)) × (high ≡ line_view result.2.table_id (high_side result.2.me.0)) }
{
    let LineSeat {
        table,
        seat: mut token,
        side: _,
    } = low;
    let LineSeat {
        table: also,
        seat: other,
        side: _,
    } = high;
    table.shared.join_seat::<BothSides>(&mut token, other);
    (table, also, token)
}

/// Shows, of both seats of a line, that what each took is a prefix of what the other sent, and tells each all that the other did.
pub fn compare(low: LineSeat, high: LineSeat) -> (LineSeat, LineSeat)
    requires { AreAcross low high }
    ensures told { (result.0 ≡ told_across low high) × (result.1 ≡ told_across high low) }
    ensures agree { (e f : EndpointOf) → AgreesWith (on_line e low) (on_line f high) × AgreesWith (on_line f high) (on_line e low) }
{
    let (low, high, mut token) = join(low, high);
    low.shared.load::<ComparesLines>(&mut token, 0);
    cut(low, high, token)
}

impl LineSeat {
    /// Both seats of a new table, where no line is yet.
    #[tactic(auto, using(crate::proofs::LineSteps::begins))]
    pub fn pair(alloc: Global) -> Result<(LineSeat, LineSeat), AllocError>
        ensures { IfOk result (λ s. AreAcross s.0 s.1 × IsBlank s.0 × IsBlank s.1 × (s.0.depth ≡ 0) × (s.1.depth ≡ 0)) }
    {
        let (table, token) = Table::vacant(alloc, &[HOME; WORDS], 1, &())?;
        let low = Arc::new(alloc, table)?;
        let high = Arc::try_clone(&low)?;
        Ok(cut(low, high, token))
    }

    /// Both sides go by the contract, on a new line. The depth is how many messages may wait in a direction.
    pub fn begin<R: Wait>(
        rt: &R,
        low: LineSeat,
        high: LineSeat,
        contract: Contract,
        depth: u8,
    ) -> (LineSeat, LineSeat)
        requires { AreAcross low high × IsBlank low × IsBlank high × (1 ≤ depth) × (depth ≤ MAX_DEPTH) }
        ensures { (result.0 ≡ begun contract depth low) × (result.1 ≡ begun contract depth high) }
    {
        let (low, high, mut token) = join(low, high);
        let board = &low.shared;
        lock(rt, board, &mut token);
        drop(board.exchange(&mut token, 0, Some(Line::new(contract, depth))));
        settle(board, &mut token);
        cut(low, high, token)
    }

    /// Its number. Protocol where the state doesn't allow the message, then PeerClosed where the peer is shut, then Full.
    pub fn put<R: Wait>(
        &mut self,
        rt: &R,
        tag: u16,
        blocks: ArrayVec<u16, MAX_BLOCKS>,
    ) -> Result<u64, Unsent>
        requires { IsBegun self.old }
        ensures put { SeatDoes self.old self.new (EndpointPuts tag blocks result) }
        ensures same { (self.new.side ≡ self.old.side) × (self.new.depth ≡ self.old.depth) }
        ensures last { IfOk result (λ no. no ≤ MAX_MESSAGES) }
    {
        let board = &self.table.shared;
        hold(rt, board, &mut self.seat);
        let Some(line) = self.seat.slot_mut(board, 0) else {
            unreachable!()
        };
        let put = line.put(self.side, tag, blocks);
        settle(board, &mut self.seat);
        put
    }

    /// The message that comes next. Where none waits, PeerClosed if the peer is shut, else Empty.
    pub fn take<R: Wait>(&mut self, rt: &R) -> Result<Message, Refused>
        requires { IsBegun self.old }
        ensures taken { SeatDoes self.old self.new (EndpointTakes result) }
        ensures same { (self.new.side ≡ self.old.side) × (self.new.depth ≡ self.old.depth) }
    {
        let board = &self.table.shared;
        hold(rt, board, &mut self.seat);
        let Some(line) = self.seat.slot_mut(board, 0) else {
            unreachable!()
        };
        let taken = line.take(self.side);
        settle(board, &mut self.seat);
        taken
    }

    /// No later put of its peer succeeds.
    pub fn shut<R: Wait>(&mut self, rt: &R)
        requires { IsBegun self.old }
        ensures shut { SeatDoes self.old self.new EndpointShuts }
        ensures same { (self.new.side ≡ self.old.side) × (self.new.depth ≡ self.old.depth) }
    {
        let board = &self.table.shared;
        hold(rt, board, &mut self.seat);
        let Some(line) = self.seat.slot_mut(board, 0) else {
            unreachable!()
        };
        line.shut(self.side);
        settle(board, &mut self.seat);
    }
}
