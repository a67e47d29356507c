//! What is known of all that came of numbers.
ghost use Rattle.std.specs.Prelude.{◌≡◌, ◌≤◌, ◌+◌, ◌++◌, ℕ, List, [], length};
ghost use Rattle.run_outcomes.specs.Counts.{tally_of};
ghost use Rattle.run_outcomes.specs.declared.tally.TheConstants.{KEPT_OUTCOMES};
ghost use Rattle.explored_counts.specs.declared.came.CameOf.{CameOf as Came};
ghost use Rattle.explored_counts.specs.Seen.{empty_explored, explored_from, gave_from, joined, total_of};

use crate::seen::Explored;
use uid_names::laws::may_cross_threads;

/// The tally is that of all numbers that gave answers: each outcome once, with how many of them gave it and the lowest.
#[tactic(auto, using(crate::proofs::Tallies::tally_of_came))]
pub fn tallies_are_of_all_that_came()
    ensures { (number : ℕ) (came : List Came) → (explored_from number came empty_explored).tally ≡ tally_of (gave_from number came []) }
{}

/// What came of numbers, joined to what came of those before them, is what came of them all, one after another.
#[tactic(auto, using(crate::proofs::Adding::joined_is_all))]
pub fn joined_is_one_after_another()
    ensures { (number : ℕ) (first second : List Came) → let more = explored_from (number + length first) second empty_explored in
        more.tally.rest ≡ 0 → joined more (explored_from number first empty_explored) ≡ explored_from number (first ++ second) empty_explored }
{}

/// Each number is counted once.
#[tactic(auto, using(crate::proofs::Adding::total_is))]
pub fn each_number_is_counted()
    ensures { (number : ℕ) (came : List Came) → total_of (explored_from number came empty_explored) ≡ length came }
{}

/// Up to 1,000 numbers have no outcome that is not kept.
#[tactic(auto, using(crate::proofs::Tallies::few_are_kept))]
pub fn few_numbers_are_all_kept()
    ensures { (number : ℕ) (came : List Came) → length came ≤ KEPT_OUTCOMES → (explored_from number came empty_explored).tally.rest ≡ 0 }
{}

/// Threads may hand each other what came of numbers.
pub fn what_came_may_cross_threads() {
    may_cross_threads::<Explored>();
}
