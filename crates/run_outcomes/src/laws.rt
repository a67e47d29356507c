//! What tallies say of all that was added.
ghost use Rattle.std.specs.Prelude.{◌≡◌, ◌≤◌, ◌↔◌, ℕ, [], ◌∷◌, List, length, true};
ghost use Rattle.run_outcomes.specs.Outcomes.{same_outcome};
ghost use Rattle.run_outcomes.specs.Tallies.{Tallied, empty_tally, rows_tallied, tallied};
ghost use Rattle.run_outcomes.specs.Counts.{Gave, tally_of};
ghost use Rattle.run_outcomes.specs.declared.outcome.OutcomeRow.{OutcomeRow};
ghost use Rattle.run_outcomes.specs.declared.tally.TheConstants.{KEPT_OUTCOMES};

/// Two outcomes are the same where they have the same processes in the same order, with the same answers, and only there.
#[tactic(auto, using(crate::proofs::Same::same_outcome_is))]
pub fn outcomes_are_the_same_where_all_answers_are()
    ensures { (a b : List OutcomeRow) → (same_outcome a b ≡ true) ↔ (a ≡ b) }
{}

/// To add numbers one after another counts them all: each outcome that was met has one row, up to 1,000 of them in the order in which they
/// were first met, with how many numbers gave it and the lowest of them; and the numbers that gave another are counted.
#[tactic(auto, using(crate::proofs::Counted::tally_of_more))]
pub fn tallies_count_all_that_was_added()
    ensures none { tally_of [] ≡ empty_tally }
    ensures one_more { (g : Gave) (past : List Gave) → tally_of (g ∷ past) ≡ tallied g.number g.outcome (tally_of past) }
{}

/// To add the rows of a tally that keeps all its outcomes is to add all numbers that it counts, one after another: with one number more in that
/// tally there is one number more in what its rows are added to.
#[tactic(auto, using(crate::proofs::Joined::rows_one_more))]
pub fn rows_are_added_as_their_numbers_are()
    ensures { (number : ℕ) (outcome : List OutcomeRow) (t more : Tallied) → (tallied number outcome more).rest ≡ 0 → rows_tallied (tallied number outcome more).rows t ≡ tallied number outcome (rows_tallied more.rows t) }
{}

/// Up to 1,000 numbers have no outcome that is not kept.
#[tactic(auto, using(crate::proofs::Joined::few_are_kept))]
pub fn few_outcomes_are_all_kept()
    ensures { (given : List Gave) → length given ≤ KEPT_OUTCOMES → (tally_of given).rest ≡ 0 }
{}
