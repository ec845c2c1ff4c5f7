//! Laws, which are theorems about the definitions alone: each contract is a theorem, and the bodies are empty.
ghost use Rattle.std.specs.Prelude.{◌≡◌, ◌≤◌, ◌⊎◌, ℕ, true, false, List, IfNone, IfSome};
ghost use Rattle.std.specs.List.Sorted.{IsPermutation};
ghost use Rattle.redo_times.specs.declared.report.Stage.TheVariants.{EndedInOtherLog, EndedInOwnLog};
ghost use Rattle.redo_times.specs.Report.{TimedLog};
ghost use Rattle.redo_times.specs.Times.{times_of};
ghost use Rattle.redo_times.specs.Laws.{BeginsAfter, BeginsInOwnLog, IsBeginning, IsEnd, IsReported, Never, NeverBegins, RanOthers};

/// The beginning of a target is the time of a `do` record of the target in its own log, and no such record has an earlier time that counts.
/// If there is none, it is the time of such a record in another log, and none there has an earlier one. It is not after the target's end.
/// It is unknown only if no log has such a record, or if it would be after the end.
pub fn beginning_is_first_report()
    ensures first { (max_bytes : ℕ) (logs : List TimedLog) (target : List ℕ) →
        IfSome (times_of max_bytes logs target).began (IsBeginning max_bytes logs target) }
    ensures before_end { (max_bytes : ℕ) (logs : List TimedLog) (target : List ℕ) → let times = times_of max_bytes logs target in
        IfSome times.began (λ began. IfSome times.ended (λ ended. began ≤ ended)) }
    ensures unknown { (max_bytes : ℕ) (logs : List TimedLog) (target : List ℕ) → let times = times_of max_bytes logs target in
        IfNone times.began (NeverBegins max_bytes logs target ⊎ BeginsAfter max_bytes logs target times.ended) }
{}

/// The end of a target is the time of its closing record, and no closing record has a later time that counts. If its own log has neither
/// such a record nor a `do` record of the target, the end is the time of a `done` record of the target in another log, and none there has
/// a later one. It is unknown only if there is no such record either. So no other log says when a target ended if its own log says when it
/// began.
pub fn end_is_last_report()
    ensures last { (max_bytes : ℕ) (logs : List TimedLog) (target : List ℕ) →
        IfSome (times_of max_bytes logs target).ended (IsEnd max_bytes logs target) }
    ensures unknown_by_own_log { (max_bytes : ℕ) (logs : List TimedLog) (target : List ℕ) →
        IfNone (times_of max_bytes logs target).ended (Never (IsReported max_bytes logs EndedInOwnLog target)) }
    ensures unknown_by_other_logs { (max_bytes : ℕ) (logs : List TimedLog) (target : List ℕ) →
        IfNone (times_of max_bytes logs target).ended
        (BeginsInOwnLog max_bytes logs target ⊎ Never (IsReported max_bytes logs EndedInOtherLog target)) }
{}

/// A target ran others exactly if its own log has a record of another target, of the kind `do`, `done`, `waiting`, `locked` or `unlocked`, at
/// a time after it began, and not after it ended. Both must be known.
pub fn ran_others_by_own_log()
    ensures ran { (max_bytes : ℕ) (logs : List TimedLog) (target : List ℕ) → let times = times_of max_bytes logs target in
        times.ran_others ≡ true → (time : ℕ) × RanOthers max_bytes logs target times time }
    ensures ran_none { (max_bytes : ℕ) (logs : List TimedLog) (target : List ℕ) → let times = times_of max_bytes logs target in
        times.ran_others ≡ false → Never (RanOthers max_bytes logs target times) }
{}

/// The times of a target don't depend on the order of the logs.
pub fn order_of_logs_is_irrelevant()
    ensures { (max_bytes : ℕ) (logs others : List TimedLog) (target : List ℕ) → IsPermutation logs others →
        times_of max_bytes logs target ≡ times_of max_bytes others target }
{}
