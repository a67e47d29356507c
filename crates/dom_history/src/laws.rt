//! Laws of histories. Each stands on a function without a body, so that the check proves it.
ghost use Rattle.std.specs.Prelude.{◌≡◌, ◌≢◌, ◌+◌, ℕ, List, [], ◌∷◌, ◌++◌, length, All, AllPairs, IsTrue, find, Option, None, Some, ◌↔◌};
ghost use Rattle.uid_names.specs.Names.{ProcName, ObjectName};
ghost use Rattle.uid_names.specs.Openings.{Start};
ghost use Rattle.dom_history.specs.declared.op.Want.{Want};
ghost use Rattle.dom_history.specs.declared.op.Want.TheVariants.{Phase, Done};
ghost use Rattle.dom_history.specs.declared.op.Op.{Op};
ghost use Rattle.dom_history.specs.declared.op.Op.TheVariants.{Length, Map};
ghost use Rattle.dom_history.specs.declared.op.Reply.{Reply};
ghost use Rattle.dom_history.specs.declared.op.Entry.{Entry};
ghost use Rattle.dom_history.specs.declared.deed.Deed.{Deed};
ghost use Rattle.dom_history.specs.StoreEffects.{StoreEffect};
ghost use Rattle.uid_names.specs.InOrder.{AreInOrder};
ghost use Rattle.uid_names.specs.Rows.{same_row, row_lt};
ghost use Rattle.dom_history.specs.Locks.{state, state_by_last, holds, mode_in, rows};
ghost use Rattle.dom_history.specs.Histories.{Item, Acted, Act, History, deed_of, before, place_of, place_lt, IsRising};
ghost use Rattle.dom_history.specs.Legal.{IsLegal, StandsBefore, IsAtHomeOf, BeganEarlier, MayEnd, IsIdle, with_entry};
ghost use Rattle.dom_history.specs.Follows.{Heard, IsEnded, IsPhased};
ghost use Rattle.dom_history.specs.Fitting.{Fits};
ghost use Rattle.dom_history.specs.Replies.{Before, before_of, reply_of};
ghost use Rattle.dom_history.specs.Runs.{AreAnswered, IsAnsweredPast, history_at, IsFaultless};
ghost use Rattle.uid_names.specs.declared.mode.Mode.TheVariants.{Read, Write};
ghost use Rattle.dom_history.specs.declared.op.Reply.TheVariants.{AlreadyHeld, Bytes, Conflict, Fine, LinkFault, NoSpace, PastEnd};
ghost use Rattle.dom_history.specs.FaultSamples.{p2, z, kept_in, locks_what_is_kept, acts_after, locked_by_other, unlocked_by_other, acts_on_both, lock_acts, unlock_acts, makes_behind_act, asks_readers};
ghost use Rattle.dom_history.specs.Samples.{one_node, two_nodes, p, at, first_run, in_doubt, acted_in_doubt, closed, loads, locks_too, locks_first, deletes_under, makes_again, makes_nowhere, locked_in, opens, unlocks_from, loads_another_byte, loads_past_the_end, locked_twice, conflicts_with_nobody, acts_twice, deletes_under_read, makes_one_name_twice, makes_at_no_node, phases_fall, opens_meet, answered_behind_open};

/// Two small histories of one store.
pub fn small_histories_are_legal()
    ensures first_run { IsLegal one_node (history_at 1 first_run) }
    ensures in_doubt { IsLegal two_nodes in_doubt }
{}

/// Those that no store has, each with its one fault mended, are of one store.
pub fn mended_histories_are_legal()
    ensures loads_what_was_stored { IsLegal two_nodes (loads 2 (Bytes (104 ∷ 105 ∷ []))) }
    ensures load_past_the_end_is_refused { IsLegal two_nodes (loads 3 PastEnd) }
    ensures second_lock_conflicts { IsLegal two_nodes (locks_too (Conflict p Write)) }
    ensures first_lock_conflicts_with_nobody { IsLegal two_nodes (locks_first Fine) }
    ensures acts_once { IsLegal two_nodes (closed acted_in_doubt) }
    ensures deletes_under_write { IsLegal two_nodes (deletes_under Write) }
    ensures makes_another_name { IsLegal two_nodes (makes_again (record { counter = 3; home = 1 })) }
    ensures makes_nothing_at_no_node { IsLegal two_nodes (makes_nowhere NoSpace) }
    ensures phases_rise { IsPhased (locked_in 2 (at 4 1) ∷ locked_in 1 (at 2 1) ∷ []) }
    ensures opens_are_apart { IsLegal two_nodes (opens (at 4 1)) }
    ensures open_is_the_last { IsLegal two_nodes (unlocks_from (at 11 1)) }
{}

/// Histories that no store has.
pub fn wrong_histories_are_refuted()
    ensures loads_another_byte { IsLegal two_nodes loads_another_byte → ⊥ }
    ensures loads_past_the_end { IsLegal two_nodes loads_past_the_end → ⊥ }
    ensures locked_twice { IsLegal two_nodes locked_twice → ⊥ }
    ensures conflicts_with_nobody { IsLegal two_nodes conflicts_with_nobody → ⊥ }
    ensures acts_twice { IsLegal two_nodes acts_twice → ⊥ }
    ensures deletes_under_read { IsLegal two_nodes deletes_under_read → ⊥ }
    ensures makes_one_name_twice { IsLegal two_nodes makes_one_name_twice → ⊥ }
    ensures makes_at_no_node { IsLegal two_nodes makes_at_no_node → ⊥ }
    ensures phases_fall { IsPhased phases_fall → ⊥ }
    ensures opens_meet { IsLegal two_nodes opens_meet → ⊥ }
    ensures answered_behind_open { IsLegal two_nodes answered_behind_open → ⊥ }
{}

/// Small histories with link faults and acts, and of several holders, are of one store.
pub fn histories_with_faults_are_legal()
    ensures kept_where_it_was_to_write { IsLegal two_nodes (closed (kept_in Write)) }
    ensures what_is_kept_is_held { IsLegal two_nodes (locks_what_is_kept AlreadyHeld) }
    ensures load_by_a_link_fault { IsLegal two_nodes (loads 2 LinkFault) }
    ensures late_act { IsLegal two_nodes (acts_after unlocked_by_other) }
    ensures acts_in_order { IsLegal two_nodes (acts_on_both (lock_acts (at 5 2)) (unlock_acts (at 6 2))) }
    ensures next_counter_behind_an_act { IsLegal two_nodes (makes_behind_act (record { counter = 4; home = 2 })) }
    ensures first_row_of_a_conflict { IsLegal two_nodes (asks_readers (Conflict p Read)) }
{}

/// Their neighbours are not.
pub fn wrong_histories_with_faults_are_refuted()
    ensures kept_where_it_was_to_read { IsLegal two_nodes (closed (kept_in Read)) → ⊥ }
    ensures kept_and_free { IsLegal two_nodes (locks_what_is_kept Fine) → ⊥ }
    ensures refusal_by_a_link_fault { IsLegal two_nodes (loads 3 LinkFault) → ⊥ }
    ensures acts_under_a_lock { IsLegal two_nodes (acts_after locked_by_other) → ⊥ }
    ensures acts_out_of_order { IsLegal two_nodes (acts_on_both (unlock_acts (at 5 2)) (lock_acts (at 6 2))) → ⊥ }
    ensures counter_of_an_act_again { IsLegal two_nodes (makes_behind_act z) → ⊥ }
    ensures second_row_of_a_conflict { IsLegal two_nodes (asks_readers (Conflict p2 Read)) → ⊥ }
{}

/// Programs that pass a phase and then are done have ended where nothing was done.
pub fn phases_alone_end()
    ensures { (ask : Heard → Want) → ask [] ≡ Phase → ask (None ∷ []) ≡ Done → IsEnded (λ _. ask) (closed []) }
{}

/// What one store answers, one operation after another, is a legal history.
pub fn answered_deeds_are_legal()
    ensures { (opening : Start) → (node : ℕ) → (done : List Deed) → AreAnswered opening done → IsLegal opening (history_at node done) }
{}

/// The table of locks that are held, and the table of what a process knows, say what the last deed said.
pub fn lock_tables_say_the_last()
    ensures held { (p : ProcName) → (u : ObjectName) → (past : List StoreEffect) → holds p u past ≡ mode_in (find (same_row p u) (rows u.home past)) }
    ensures known { (u : ObjectName) → (told : List Deed) → state u told ≡ state_by_last u told }
{}

/// The rows of a home stand in order of object and process, and are of its objects.
pub fn lock_rows_are_in_order()
    ensures rise { (home : ℕ) → (past : List StoreEffect) → AreInOrder row_lt (rows home past) }
    ensures of_home { (home : ℕ) → (past : List StoreEffect) → All (λ row. row.uid.home ≡ home) (rows home past) }
{}

/// What one home decides for one process stands in the order of the operations, and no operation acts twice.
pub fn homes_decide_in_order()
    ensures in_order { (opening : Start) → (h : History) → IsLegal opening h → (i j : Item) → StandsBefore h i j → IsAtHomeOf opening (deed_of i) (deed_of j) → BeganEarlier i j }
    ensures once { (opening : Start) → (h : History) → IsLegal opening h → (a b : Act) → StandsBefore h (Acted a) (Acted b) → a.begun ≡ b.begun → a.deed.proc ≡ b.deed.proc → a.deed.op ≡ b.deed.op → ⊥ }
{}

/// What stands before the place of an item is what the list has behind it.
pub fn before_is_the_rest()
    ensures { (newer older : List Item) → (i : Item) → IsRising (newer ++ i ∷ older) → before (place_of i) (newer ++ i ∷ older) ≡ older }
{}

/// When a history with one entry at its end is legal.
pub fn entry_at_the_end()
    ensures exactly { (opening : Start) → (h : History) → (e : Entry) → IsLegal opening (with_entry e h) ↔ (IsLegal opening h × MayEnd opening h e) }

    // An entry that stands behind the Begin of every open operation is of a process that has nothing open.
    ensures idle { (opening : Start) → (h : History) → (e : Entry) → All (λ o. IsTrue (place_lt o.begun e.place)) h.open_ops → MayEnd opening h e → IsIdle e.proc h.open_ops }
{}

/// No reply of one store comes from a link fault.
pub fn replies_have_no_fault()
    ensures { (b : Before) → (p : ProcName) → (op : Op) → IsFaultless (reply_of b p op) }
{}

/// The replies of one store fit their operations.
pub fn replies_fit()
    // A length and an address are as great as what was stored and mapped before; the others fit over anything.
    ensures anywhere { (b : Before) → (p : ProcName) → (op : Op) → ((u : ObjectName) → op ≢ Length u) → ((u : ObjectName) → op ≢ Map u) → Fits op (reply_of b p op) }
    ensures after_answers { (opening : Start) → (past : List Deed) → IsAnsweredPast opening past → (p : ProcName) → (op : Op) → Fits op (reply_of (before_of opening past p) p op) }
{}
