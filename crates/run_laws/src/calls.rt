//! Laws of calls and entries. Each stands on a function without a body, so that the check proves it.
ghost use Rattle.std.specs.Prelude.{◌≡◌, Some, List, [], ◌∷◌, true};
ghost use Rattle.dom_history.specs.declared.op.Reply.TheVariants.{Made, Fine, Bytes};
ghost use Rattle.dom_history.specs.Events.{Happening};
ghost use Rattle.dom_history.specs.Follows.{Follows, IsEnded, IsPhased};
ghost use Rattle.dom_history.specs.Histories.{IsRising, entries};
ghost use Rattle.node_runs.specs.Setups.{Setup, IsSetup};
ghost use Rattle.node_runs.specs.NodesKeep.{IsTimely, InEveryRun};
ghost use Rattle.node_runs.specs.Runs.{Choice, World, world_after, world_of, IsRun, HasEnded};
ghost use Rattle.node_runs.specs.RunHistories.{history_in, history_of, all_told};
ghost use Rattle.run_laws.specs.DecidedReplies.{AreReplies};
ghost use Rattle.run_laws.specs.Placed.{AreRisingNotes, AreEndsPlaced};
ghost use Rattle.run_laws.specs.LastCalls.{AreLastCalls};
ghost use Rattle.node_runs.specs.CallsKeep.{EachOf, HasProcs};
ghost use Rattle.run_laws.specs.Acts.{IsBehindBegin};
ghost use Rattle.run_laws.specs.Heard.{AreHeard};
ghost use Rattle.run_laws.specs.Entries.{AreRepliesHeard, AreAskedHeard, entries_after, heard_after};
ghost use Rattle.run_laws.specs.FittingAnswers.{AreFittingAnswers};
ghost use Rattle.run_laws.specs.DecisionOrder.{AreDecisionsRising};
ghost use Rattle.run_laws.specs.SingleActs.{AreToldRising, AreSingleActs};
ghost use Rattle.run_laws.specs.LastActs.{IsActOfLast, HaveOpenNoAct, HasToldNoAct};
ghost use Rattle.run_laws.specs.Phases.{AreInPhase};
ghost use Rattle.run_laws.specs.Paced.{ArePaced};
ghost use Rattle.run_laws.specs.DonePrograms.{AreProgramsDone};
ghost use Rattle.node_runs.specs.FirstRun as one;
ghost use Rattle.node_runs.specs.SecondRun as two;
ghost use Rattle.run_laws.specs.PacedSample as sample;

/// In every run, whatever becomes of frames: each reply on a link carries the answer that its sender decided, of a call of a
/// process of the node that it is sent to, and each answer that a home keeps is the one that it decided.
pub fn each_reply_was_decided()
    ensures { (s : Setup) (cs : List Choice) (w : World) → world_after s cs ≡ Some w → AreReplies w }
{}

/// In every run in which no tick is above 2^40: by place, each process's entries in the history have exactly the replies
/// that its program heard, in order; and their operations are those that the program asked each time, each once and in its
/// phase.
pub fn entries_are_what_programs_heard()
    ensures replies { InEveryRun AreRepliesHeard }
    ensures asked { InEveryRun AreAskedHeard }
{}

/// So the history of every such run follows its programs: each process did what its program asks, each once and in order,
/// and what is open is what it asks next.
pub fn histories_follow_programs()
    ensures { (s : Setup) → IsSetup s → (es : List Happening) (w : World) → world_of s es ≡ Some w → IsTimely w → Follows s.asks (history_of s es) }
{}

/// What two runs heard, and their entries.
pub fn the_sample_entries()
    ensures first { entries_after one.setup 1 one.events ≡ Some (Fine ∷ Bytes one.hi ∷ Fine ∷ Fine ∷ Made one.x ∷ []) }
    ensures first_heard { heard_after one.setup 1 one.events ≡ Some (Fine ∷ Bytes one.hi ∷ Fine ∷ Fine ∷ Made one.x ∷ []) }
    ensures second { entries_after two.setup 1 two.events ≡ Some (Fine ∷ Fine ∷ []) }
    ensures second_heard { heard_after two.setup 1 two.events ≡ Some (Fine ∷ Fine ∷ []) }
    ensures none { entries_after two.setup 2 two.events ≡ Some [] }
{}

/// What this stands on, note by note: an open operation began behind all that its process was told of, its open call is the last one and
/// was not decided before it began, and since then no entry of its process was noted.
pub fn open_operations_stand_last()
    ensures { InEveryRun AreHeard }
{}

/// In every run in which no tick is above 2^40: an operation that an answer or a link fault ended began before, and where no
/// link fault ended it, its last call was decided between the Begin and the end. No decision on
/// that call stands before the Begin. So the place of its entry lies between the Begin of its operation and its end.
pub fn entries_stand_within_their_operations()
    ensures ends { InEveryRun (λ s w. AreEndsPlaced w.trace) }
    ensures rising { (s : Setup) (cs : List Choice) (w : World) → world_after s cs ≡ Some w → AreRisingNotes w.trace }
{}

/// In every run in which no tick is above 2^40: a call that settles its operation, of a lock, an unlock, a removal, a new
/// object or a list, is open, or was the last call of its operation.
pub fn each_operation_is_settled_by_its_last_call()
    ensures { InEveryRun (λ s w. AreLastCalls w) }
{}

/// In every run in which no tick is above 2^40 each act in the history stands behind the Begin of its operation.
pub fn acts_stand_behind_the_begin()
    ensures { InEveryRun (λ s w. EachOf IsBehindBegin (history_in s w).items) }
{}

/// In every run the items of the history rise: no place has two entries or acts.
pub fn items_rise()
    ensures { (s : Setup) (cs : List Choice) (w : World) → world_after s cs ≡ Some w → IsRising (history_in s w).items }
{}

/// In every run, whatever becomes of frames: what a home decides on a call, what it keeps as its last answer, and what a
/// frame tells, is an answer that the call can have: a page or no object to a page-in, stored, stale, no grant or no object
/// to a page or a length, and so on.
pub fn each_answer_is_one_that_its_call_can_have()
    ensures { (s : Setup) → HasProcs s → (cs : List Choice) (w : World) → world_after s cs ≡ Some w → AreFittingAnswers w }
{}

/// In every run, whatever becomes of frames, a home decides the calls of a process by rising numbers.
pub fn a_home_decides_by_rising_numbers()
    ensures { (s : Setup) → HasProcs s → (cs : List Choice) (w : World) → world_after s cs ≡ Some w → AreDecisionsRising w.trace }
{}

/// In every run in which no tick is above 2^40 a process is told of the ends of its operations in the order in which they
/// began, and the numbers of their last calls rise.
pub fn operations_end_in_order()
    ensures { InEveryRun (λ s w. AreToldRising (all_told w.trace)) }
{}

/// In every run in which no tick is above 2^40 no operation has two acts in the history.
pub fn an_operation_acts_once()
    ensures { InEveryRun (λ s w. AreSingleActs (history_in s w).items) }
{}

/// And each act is of a decision on the last call of its operation, one that settles it. So while an operation awaits a page, or the answer
/// to a page or a length that it sent, no act of it stands; nor does one where it ended then.
pub fn an_act_is_of_a_call_that_settles()
    ensures acts { InEveryRun (λ s w. EachOf (IsActOfLast w) (history_in s w).items) }
    ensures open_ops { InEveryRun HaveOpenNoAct }
    ensures ended { InEveryRun (λ s w. EachOf (HasToldNoAct s w) (all_told w.trace)) }
{}

/// In every run in which no tick is above 2^40 marks keep the phases apart: an operation of a phase began above the marks of
/// all nodes for all phases before, and ended below its own node's mark of its phase.
pub fn marks_keep_phases_apart()
    ensures { InEveryRun AreInPhase }
{}

/// So in the history of every such run no entry stands before one of a smaller phase, over all processes.
pub fn phases_never_overlap()
    ensures { (s : Setup) → IsSetup s → (es : List Happening) (w : World) → world_of s es ≡ Some w → IsTimely w → IsPhased (entries (history_of s es).items) }
{}

/// Where all nodes have ended, the history has: nothing is open, and each program has come to its end. The programs want no
/// phase behind the last one.
pub fn ended_runs_have_ended_histories()
    ensures { (s : Setup) → IsSetup s → ArePaced s → (es : List Happening) (w : World) → world_of s es ≡ Some w → IsTimely w → HasEnded s w → IsEnded s.asks (history_of s es) }
{}

/// And each program is done: it asks for nothing more.
pub fn programs_of_ended_runs_are_done()
    ensures { (s : Setup) → IsSetup s → ArePaced s → (es : List Happening) (w : World) → world_of s es ≡ Some w → IsTimely w → HasEnded s w →
        AreProgramsDone s w }
{}

/// A run of paced programs that ends.
pub fn a_paced_run_ends()
    ensures paced { ArePaced sample.setup }
    ensures run { IsRun sample.setup one.events }
    ensures ends { sample.has_ended_after 1 one.events ≡ Some true }
{}
