//! Laws over the definitions alone. Each function has no effect: its contract is the law.
//!
//! First come the laws of the handle machine, for every list of steps. Then come those of the count
//! word: the table of its steps, a law for each, and what the rule tells a reader of the word.
ghost use Rattle.std.specs.Prelude.{ℕ, ◌+◌, ◌-◌, ◌/◌, ◌%◌, ◌^◌, ◌<◌, ◌==◌, ◌≡◌, if◌then◌else◌};
ghost use Rattle.stabby_count.specs.Handles.{count_limit};
ghost use Rattle.stabby_count.specs.Runs.{WordHoldsBothCounts, ValueNeverGoesBack, ValueIsTakenOnce, BlockIsFreedOnce, EndedHandlesLeaveNothing};
ghost use Rattle.stabby_count.specs.Views.{looked, looked_sole, cloned, ended_strong, took, downgraded, upgraded, ended_weak, without_strong, with_strong, without_weak, with_weak, spent, HasStrong, HasWeak, HasShare, HasSeveral, IsOneStrong, IsOneWeak, HoldsNothing};
ghost use Rattle.stabby_count.specs.Rows.{KeepsRule, SplitKeepsRule, EndKeepsRule, OpeningMeetsRule, RefusalsAreTheMachines, SoleViewReadsOneAndOne, OneAndOneIsAlone, ValueIsHeld, ReplacingChangesTheSum};
ghost use Rattle.stabby_count.specs.declared.machine.Step.TheVariants.{Clone, Downgrade, Upgrade, EndStrong, EndWeak, Look, Take};
ghost use Rattle.stabby_count.specs.declared.machine.Reply.TheVariants.{Done, Last, Freed, Counts};

/// After every list of steps the word is `strong * 2^32 + weak`, and one more while the value is live.
/// It fits in 64 bits, and each half gives its count back.
pub fn word_holds_both_counts()
    ensures { WordHoldsBothCounts }
{}

/// The value goes from live to taken to released, and never back.
pub fn value_never_goes_back()
    ensures { ValueNeverGoesBack }
{}

/// At most one step of a list takes the value. After it no handle is ever strong.
pub fn value_is_taken_once()
    ensures { ValueIsTakenOnce }
{}

/// At most one step of a list frees the block. After it there is never a handle.
pub fn block_is_freed_once()
    ensures { BlockIsFreedOnce }
{}

/// Where no handle is left and the value is not due, exactly one step took the value and exactly one freed the block.
pub fn ended_handles_leave_nothing()
    ensures { EndedHandlesLeaveNothing }
{}

/// A new value's word and its one view meet the rule.
pub fn opening_meets_the_rule()
    ensures { OpeningMeetsRule }
{}

/// A split gives one of several strong shares to a new seat. The word and the machine stay.
pub fn strong_split_keeps_the_rule()
    ensures { SplitKeepsRule (λ v. HasStrong v × HasSeveral v) without_strong with_strong }
{}

/// A split gives one of several weak shares to a new seat. The word and the machine stay.
pub fn weak_split_keeps_the_rule()
    ensures { SplitKeepsRule (λ v. HasWeak v × HasSeveral v) without_weak with_weak }
{}

/// A seat that holds nothing ends, or joins another. The word and the machine stay.
pub fn end_of_a_seat_keeps_the_rule()
    ensures { EndKeepsRule HoldsNothing spent }
{}

/// Look: a load, or an exchange that read another word. A handle reads both counts.
pub fn look_keeps_the_rule()
    ensures { KeepsRule (λ v _. HasShare v) (λ n. n) looked Look (λ n. Counts (n / 2 ^ 32) (n % 2 ^ 32)) }
{}

/// Clone: a strong handle, below the limit of the strong count.
pub fn clone_keeps_the_rule()
    ensures { KeepsRule (λ v n. HasStrong v × (n / 2 ^ 32 < count_limit)) (λ n. n + 2 ^ 32) cloned Clone (λ _. Done) }
{}

/// End strong: a strong handle with its one share. Where it read one strong, the value is due.
pub fn end_strong_keeps_the_rule()
    ensures { KeepsRule (λ v _. IsOneStrong v) (λ n. n - 2 ^ 32) ended_strong EndStrong (λ n. if n / 2 ^ 32 == 1 then Last else Done) }
{}

/// Take: the seat to which the value is due. Where it read 1, it may free the block.
pub fn take_keeps_the_rule()
    ensures { KeepsRule (λ v _. v.due ≡ 1) (λ n. n - 1) took Take (λ n. if n == 1 then Freed else Done) }
{}

/// Downgrade: a strong handle, below the limit of the weak count.
pub fn downgrade_keeps_the_rule()
    ensures { KeepsRule (λ v n. HasStrong v × (n % 2 ^ 32 < count_limit)) (λ n. n + 1) downgraded Downgrade (λ _. Done) }
{}

/// Weak clone: a weak handle, below the limit of the weak count.
pub fn weak_clone_keeps_the_rule()
    ensures { KeepsRule (λ v n. HasWeak v × (n % 2 ^ 32 < count_limit)) (λ n. n + 1) downgraded Downgrade (λ _. Done) }
{}

/// Upgrade: a weak handle, where there is a strong one, below the limit of the strong count.
pub fn upgrade_keeps_the_rule()
    ensures { KeepsRule (λ v n. HasWeak v × (0 < n / 2 ^ 32) × (n / 2 ^ 32 < count_limit)) (λ n. n + 2 ^ 32) upgraded Upgrade (λ _. Done) }
{}

/// End weak: a weak handle with its one share. Where it read 1, it may free the block.
pub fn end_weak_keeps_the_rule()
    ensures { KeepsRule (λ v _. IsOneWeak v) (λ n. n - 1) ended_weak EndWeak (λ n. if n == 1 then Freed else Done) }
{}

/// A strong view whose look reads one strong and one weak is sole from then on.
pub fn sole_look_keeps_the_rule()
    ensures { KeepsRule (λ v n. HasStrong v × (n ≡ 2 ^ 32 + 1)) (λ n. n) looked_sole Look (λ n. Counts (n / 2 ^ 32) (n % 2 ^ 32)) }
{}

/// A count at its limit, or no strong handle to upgrade to, is what the machine refuses too.
pub fn refusals_are_the_machines()
    ensures { RefusalsAreTheMachines }
{}

/// Each read of the word by a sole view finds one strong and one weak.
pub fn sole_view_reads_one_and_one()
    ensures { SoleViewReadsOneAndOne }
{}

/// Where a strong view reads one strong and one weak, no other view has a share or a right.
pub fn one_and_one_is_alone()
    ensures { OneAndOneIsAlone }
{}

/// The value is not taken exactly where there is a strong view or one due view, and never both.
pub fn value_is_held()
    ensures { ValueIsHeld }
{}

/// Replacing one number of a list changes the sum by the difference of the two.
pub fn replacing_changes_the_sum()
    ensures { ReplacingChangesTheSum }
{}
