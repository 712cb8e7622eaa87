//! Theorems about how legal histories go on. The functions do nothing.
ghost use Rattle.std.specs.Prelude.{◌≡◌, ℕ, ◌+◌, ◌<◌, ◌≤◌, true, IsTrue, None, List, [], ◌∷◌, ◌++◌, count_by};
ghost use Rattle.std.specs.List.{range_with_len};
ghost use Rattle.scheduler.specs.MoveTable.{MoveTable, IsMoveTable, region_count, to_fill};
ghost use Rattle.scheduler.specs.State.{State, AllAreSettled, opening, readers_left, state_after};
ghost use Rattle.scheduler.specs.History.{IsLegal, calls_by, entry, state_of};
ghost use Rattle.scheduler.specs.GoingOn.{GoesOn, is_change, changes_left, is_freeing, freed, is_last_of};
ghost use Rattle.scheduler.specs.Shares.{share_is_home, region_is_home, MovesShares};
ghost use Rattle.scheduler.specs.declared.event.Event.{Event};
ghost use Rattle.scheduler.specs.declared.event.Event.TheVariants.{Claim};
ghost use Rattle.scheduler.specs.declared.reply.Reply.{Reply};
ghost use Rattle.scheduler.specs.declared.reply.Reply.TheVariants.{Yes};
ghost use Rattle.scheduler.specs.declared.entry.Entry.{Entry};

/// No legal history is stuck: while some region to be filled isn't settled, some region may be claimed by every worker, or
/// its claimant may drain a source of it, complete it or settle it.
pub fn legal_histories_go_on()
    ensures { (m : MoveTable) (workers : ℕ) (log : List Entry) → IsMoveTable m → IsLegal m workers log → ¬ (AllAreSettled m (state_of log)) → GoesOn m workers log }
{}

/// A region has no pending readers once all regions to be filled below it are filled.
pub fn lowest_unfilled_regions_are_read()
    ensures { (m : MoveTable) (workers : ℕ) (log : List Entry) (r : ℕ) → IsMoveTable m → IsLegal m workers log
        → ((q : ℕ) → q < r → IsTrue (to_fill m q) → IsTrue ((state_of log).filled q)) → readers_left m (state_of log) r ≡ 0 }
{}

/// Each call that grants, drains, completes or settles leaves one fewer of them to be made, and no other call changes how
/// many are left. So a history has no more of them than are left at the opening.
pub fn changes_are_counted()
    ensures { (m : MoveTable) (workers : ℕ) (log : List Entry) → IsMoveTable m → IsLegal m workers log
        → changes_left m opening ≡ changes_left m (state_of log) + count_by is_change log }
{}

/// The drains that free a region to be filled are as many as the regions that have been freed, and so, with those that had
/// no readers in the beginning, no more than the regions to be filled. No worker makes more of them.
pub fn freed_regions_are_counted()
    ensures all { (m : MoveTable) (workers : ℕ) (log : List Entry) → IsMoveTable m → IsLegal m workers log
        → freed m (state_of log) ≡ freed m opening + count_by (is_freeing m) log }
    ensures most { (m : MoveTable) (now : State) → freed m now ≤ count_by (to_fill m) (range_with_len 0 (region_count m)) }
    ensures own { (worker : ℕ) (m : MoveTable) (log : List Entry) → count_by (is_freeing m) (calls_by worker log) ≤ count_by (is_freeing m) log }
{}

/// A claim of the lowest region to be filled that isn't filled is granted, unless it is claimed. So one worker that fills
/// the regions in ascending order is refused none, for all calls in its history are its own.
pub fn lowest_claims_are_granted()
    ensures granted { (m : MoveTable) (workers : ℕ) (log : List Entry) (worker r : ℕ) (reply : Reply) → IsMoveTable m
        → IsLegal m workers (log ++ entry worker (Claim r) reply ∷ []) → IsTrue (to_fill m r) → (state_of log).claimed r ≡ None
        → ((q : ℕ) → q < r → IsTrue (to_fill m q) → IsTrue ((state_of log).filled q)) → reply ≡ Yes }
    ensures alone { (m : MoveTable) (log : List Entry) → IsLegal m 1 log → calls_by 0 log ≡ log }
{}

/// Where the regions and the rights to read them are follows from the state: in each legal history a grant finds its region,
/// all rights to read it and all rights to read its sources in the scheduler, and takes them; a drain puts one right
/// back, and a completion one region; no other call moves any.
pub fn shares_follow_the_state()
    ensures moves { (m : MoveTable) (workers : ℕ) (log : List Entry) (worker : ℕ) (event : Event) (reply : Reply) → IsMoveTable m
        → IsLegal m workers (log ++ entry worker event reply ∷ [])
        → MovesShares m (state_of log) (state_after (state_of log) worker event reply) event reply }
    ensures opening { (d s : ℕ) → (share_is_home opening d s ≡ true) × (region_is_home opening d ≡ true) }
{}

/// A region that has readers at the opening is freed by just one call, its last drain, once it has none left; and no call
/// frees one that has none at the opening. So a region is found ready once: at the opening, or by the worker of that call.
pub fn regions_are_freed_once()
    ensures freed { (m : MoveTable) (workers : ℕ) (log : List Entry) (s : ℕ) → IsMoveTable m → IsLegal m workers log → (readers_left m opening s ≡ 0 → ⊥)
        → (readers_left m (state_of log) s ≡ 0 → count_by (is_last_of s) log ≡ 1) × ((readers_left m (state_of log) s ≡ 0 → ⊥) → count_by (is_last_of s) log ≡ 0) }
    ensures ready { (m : MoveTable) (workers : ℕ) (log : List Entry) (s : ℕ) → IsMoveTable m → IsLegal m workers log → readers_left m opening s ≡ 0
        → count_by (is_last_of s) log ≡ 0 }
{}

/// A worker that frees a region to be filled finds room for it in its queue, if that has room for all regions to be filled,
/// and took in only such regions: some of those that had no readers at the opening, and those that the worker freed.
pub fn freed_regions_find_room()
    ensures { (m : MoveTable) (workers : ℕ) (log : List Entry) (e : Entry) (dealt : ℕ) → IsMoveTable m → IsLegal m workers (log ++ e ∷ []) → is_freeing m e ≡ true
        → dealt ≤ freed m opening
        → dealt + count_by (is_freeing m) (calls_by e.worker log) < count_by (to_fill m) (range_with_len 0 (region_count m)) }
{}
