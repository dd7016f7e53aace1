//! What the log's events are to the core.
ghost use Rattle.std.specs.Prelude.{ℕ, List};
ghost use Rattle.xh_model.specs.declared.event.Event.{Event};
ghost use Rattle.xh_model.specs.Words.{Ownership};
ghost use Rattle.xh_records.specs.After.{LeadsOnStores};
ghost use Rattle.xh_records.specs.History.{LeadsTo};

/// Events that lead from one ownership to another are so by the meaning that each has in the core: on any
/// store that has the ownership the event can be done, and then the store has the next one.
pub fn events_are_the_cores()
    ensures { (n : ℕ) (o : Ownership) (log : List Event) (after : Ownership) → LeadsTo n o log after → LeadsOnStores n o log after }
{}
