ghost use Rattle.std.specs.Prelude.{ℕ, List};
ghost use Rattle.scheduler.specs.MoveTable.{MoveTable, IsMoveTable};
ghost use Rattle.scheduler.specs.State.{AllAreSettled};
ghost use Rattle.scheduler.specs.History.{IsLegal, state_of};
ghost use Rattle.scheduler.specs.Whole.{HasEachOnce};
ghost use Rattle.scheduler.specs.declared.entry.Entry.{Entry};

/// When all regions to be filled are settled, each of them has been granted, completed and settled
/// exactly once and each pair drained exactly once, whoever called and in whatever order.
pub fn settled_histories_have_each_once()
    ensures { (m : MoveTable) (workers : ℕ) (log : List Entry) → IsMoveTable m → IsLegal m workers log → AllAreSettled m (state_of log) → HasEachOnce m log }
{}
