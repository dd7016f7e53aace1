// The ends of a direction's queue. An endpoint has the sending end of one, and the receiving end of the other.
ghost use Rattle.std.specs.Prelude.{◌≡◌, ◌<◌, ◌≤◌, ◌+◌, suc, true, false, List, [], length, MatchOption, MatchResult, IfOk};
ghost use Rattle.xh_channel.specs.Queues.{IsNewDirection, sending, getting};
ghost use Rattle.xh_channel.specs.Directions.{WaitsAfter, role, message_number};
ghost use Rattle.xh_model.specs.Direction.{AreNumberedFrom};

use crate::message::Message;
use crate::queue_rule::{Gets, Halves, Port, Queue, Sends, Together, Total};
use std::alloc::{AllocError, Global};
use std::marker::Model;
use std::sync::{Arc, Wait};

/// What pushes or pops: contracts see the depth, what was pushed or popped, and what it was told.
#[derive(Drop)]
pub struct QueueEnd {
    queue: Arc<Queue, Global>,
    pass: Port,
}

impl Model for QueueEnd {
    ghost use Rattle.std.specs.Prelude.{◌≡◌, true};
    ghost use Rattle.xh_channel.specs.Queues.{IsRole, QueueView};

    ghost Value = { QueueView };

    ghost use Rattle.std.specs.Arc.{arc_value};
    ghost use Rattle.crossbeam_queue.specs.Passes.{IsPassOf, ruled_capacity};

    ghost view = { λ e. record { queue = e.pass.table_id; depth = ruled_capacity (arc_value e.queue); role = e.pass.me.0.client } };

    ghost invariant = { λ e. IsPassOf (arc_value e.queue) e.pass × IsRole e.pass.me.0.client };
}

/// Both ends of a new direction, the sending end first.
#[tactic(auto, using(crate::proofs::Moves::begins, crate::proofs::Moves::forks))]
pub fn direction(alloc: Global, depth: usize) -> Result<(QueueEnd, QueueEnd), AllocError>
    requires { 0 < depth }
    ensures { IfOk result (λ ends. IsNewDirection depth ends.0 ends.1) }
{
    let (queue, mut sending) = Queue::ruled(alloc, depth)?;
    let receiving = queue.another::<Halves>(&mut sending);
    let queue = Arc::new(alloc, queue)?;
    let sender = QueueEnd {
        queue: Arc::try_clone(&queue)?,
        pass: sending,
    };
    let receiver = QueueEnd {
        queue,
        pass: receiving,
    };
    Ok((sender, receiver))
}

/// Shows, of both ends of a direction, that what was popped is a prefix of what was pushed, and tells each all that the other did.
#[tactic(auto, using(crate::proofs::Moves::merges, crate::proofs::Moves::forks))]
pub fn compare(sender: QueueEnd, receiver: QueueEnd) -> (QueueEnd, QueueEnd)
    requires queue { receiver.queue ≡ sender.queue }
    requires roles { (sender.role.pushes ≡ true) × (receiver.role.pops ≡ true) }
    ensures sender { result.0 ≡ record sender { role = role true false sender.role.sent [] 0 (length receiver.role.got) } }
    ensures receiver { result.1 ≡ record receiver { role = role false true [] receiver.role.got (length sender.role.sent) 0 } }
    ensures grows { (sender.role.told_taken ≤ length receiver.role.got) × (receiver.role.told_put ≤ length sender.role.sent) }
    ensures prefix { (items : List Message) × WaitsAfter sender.role.sent receiver.role.got items }
{
    let QueueEnd { queue, mut pass } = sender;
    let QueueEnd {
        queue: theirs,
        pass: receiving,
    } = receiver;
    let line: &Queue = &queue;
    line.absorb::<Together>(&mut pass, receiving);
    line.learn_as::<Total>(&mut pass);
    let receiving = line.another::<Halves>(&mut pass);
    let sender = QueueEnd { queue, pass };
    let receiver = QueueEnd {
        queue: theirs,
        pass: receiving,
    };
    (sender, receiver)
}

impl QueueEnd {
    pub fn depth(&self) -> usize
        ensures { result ≡ self.now.depth }
    {
        self.queue.capacity()
    }

    pub fn push<R: Wait>(&mut self, rt: &R, message: Message) -> Result<(), Message>
        requires { (self.old.role.pushes ≡ true) × (message.no ≡ suc (length self.old.role.sent)) }
        ensures { MatchResult result (λ _. (self.new ≡ sending self.old message) × AreNumberedFrom message_number 0 self.new.role.sent)
            (λ back. (back ≡ message) × (self.new ≡ self.old) × (self.old.role.told_taken + self.old.depth ≤ length self.old.role.sent)) }
    {
        let queue = &self.queue;
        queue.push_as::<Sends, R>(rt, &mut self.pass, message)
    }

    pub fn pop<R: Wait>(&mut self, rt: &R) -> Option<Message>
        requires { self.old.role.pops ≡ true }
        ensures { MatchOption result ((self.new ≡ self.old) × (self.old.role.told_put ≤ length self.old.role.got))
            (λ x. (self.new ≡ getting self.old x) × (x.no ≡ suc (length self.old.role.got)) × AreNumberedFrom message_number 0 self.new.role.got) }
    {
        let queue = &self.queue;
        queue.pop_as::<Gets, R>(rt, &mut self.pass)
    }
}
