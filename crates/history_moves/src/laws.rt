//! Laws of the changes that a run makes to its history. Each stands on a function without a body, so that
//! the check proves it. Lists have the newest first: `behind ++ item ∷ before`.
ghost use Rattle.std.specs.Prelude.{◌≡◌, ℕ, List, [], ◌∷◌, ◌++◌, All, IsTrue, ◌↔◌};
ghost use Rattle.uid_names.specs.Names.{ProcName};
ghost use Rattle.uid_names.specs.Openings.{Start};
ghost use Rattle.dom_history.specs.declared.op.Want.{Want};
ghost use Rattle.dom_history.specs.declared.op.Spot.{Spot};
ghost use Rattle.dom_history.specs.declared.op.Op.TheVariants.{Load, Store};
ghost use Rattle.dom_history.specs.declared.op.Reply.{Reply};
ghost use Rattle.dom_history.specs.declared.op.Reply.TheVariants.{Bytes, Fine, NoLock, LinkFault};
ghost use Rattle.dom_history.specs.declared.op.Entry.{Entry};
ghost use Rattle.dom_history.specs.Histories.{Item, Answered, Act, Pending, History, entries};
ghost use Rattle.dom_history.specs.Replies.{Before, reply_of};
ghost use Rattle.dom_history.specs.Legal.{IsLegal, AreLegal, IsAllowed, MayEnd, Belongs, IsInOrder, IsIdle, is_of_home};
ghost use Rattle.dom_history.specs.Follows.{Heard, IsPhased};
ghost use Rattle.dom_history.specs.Samples.{two_nodes, at};
ghost use Rattle.history_moves.specs.Samples.{p_locks, q_locks, p_unlocks, q_loads, granted, in_doubt, refused, conflict, unlocks, q_unlocks, unlocked};
ghost use Rattle.history_moves.specs.Asking.{HomeSays, MayFail};
ghost use Rattle.history_moves.specs.Behind.{IsAlikeBut, StayLegal};
ghost use Rattle.history_moves.specs.Answering.{AtEachAnswer, IsByLinkFault, IsLegalIfPutIn, MightAskIfTold};
ghost use Rattle.history_moves.specs.SameToOthers.{AtEachPutIn, AtEachTelling, HasNoEffect, OthersMeetTheSame, done_in};
ghost use Rattle.history_moves.specs.SinceBegin.{BeganBefore, IsToldLast, SinceBegin};
ghost use Rattle.history_moves.specs.Standing.{AtEachOpen, IsEndOf, MayActNow, MayAnswer, MayAskNow, MayFollow};
ghost use Rattle.history_moves.specs.Hearing.{HasHeard, IsInPhase, KeepsWhatProcessesFollow, PassesItsPhase};
ghost use Rattle.history_moves.specs.HistoryMoves.{history, entry_of, told_to, with_act, MayEndAct, MayPend, IsEnd, IsNoActOf, IsChange, MayFault, MayHear, HistoryMoves, done_by};

/// Each move keeps a history one of one store.
pub fn moves_keep_a_history_legal()
    ensures { (opening : Start) → (h new : History) → HistoryMoves opening h new → IsLegal opening h → IsLegal opening new }
{}

/// A run begins with nothing.
pub fn an_empty_history_is_one()
    ensures legal { (opening : Start) → IsLegal opening (history [] []) }
    ensures heard { (ask : Heard → Want) → (p : ProcName) → HasHeard ask (history [] []) p [] 1 }
{}

/// Each move keeps what the processes follow: each has heard what it was answered.
pub fn moves_keep_what_processes_follow()
    ensures moves { (opening : Start) → (asks : ProcName → Heard → Want) → (heard : ProcName → Heard) → (phases : ProcName → ℕ) →
        KeepsWhatProcessesFollow opening asks heard phases }

    // That a process passes a phase is no move.
    ensures passes { (ask : Heard → Want) → (p : ProcName) → (heard : Heard) → (phase : ℕ) → (h : History) →
        HasHeard ask h p heard phase → PassesItsPhase ask h p heard phase }
{}

/// Each move keeps the order of phases where its entry's phase is between those before it and those behind it.
pub fn moves_keep_the_phases()
    ensures { (opening : Start) → (h new : History) → (move : HistoryMoves opening h new) → IsInPhase move → IsPhased (entries h.items) → IsPhased (entries new.items) }
{}

/// What a move at an earlier place needs, the two histories have: no condition of it is too strong.
pub fn conditions_are_needed()
    ensures faults { AtEachAnswer (λ opening others o e behind before. e.place ≡ o.begun →
        IsByLinkFault e.reply → MayFault opening behind before o e.phase e.reply) }
    ensures is_told { (opening : Start) → (left right : List Pending) → (o : Pending) → MightAskIfTold opening left right o }
    ensures hears { AtEachAnswer (λ opening others o e behind before. BeganBefore o e.place → HasNoEffect e →
        IsTrue (is_of_home opening o.op e.reply) → MayHear opening behind before others o e) }
{}

/// An operation may begin at the end, where its process has nothing open.
pub fn operations_begin_at_the_end()
    ensures { (items : List Item) → (others : List Pending) → (o : Pending) → IsIdle o.proc others → IsEnd o.begun items others → MayPend items others o }
{}

/// An entry may end the history where its process has nothing open and all else stands before it.
pub fn entries_end_a_history()
    ensures idle { (opening : Start) → (h : History) → (e : Entry) → IsEndOf h e.place → IsIdle e.proc h.open_ops →
        MayFollow opening h.items e → MayEnd opening h e }

    // An operation that is no change has no act, so it may finish.
    ensures no_acts { (opening : Start) → (pending : List Pending) → (o : Pending) → (IsChange o.op → ⊥) → (items : List Item) → AreLegal opening pending items → All (IsNoActOf o) items }
{}

/// A home acts, for an open operation or for one that was left open.
pub fn acts_end_a_history()
    ensures exactly { (opening : Start) → (h : History) → (a : Act) → IsLegal opening (with_act a h) ↔ (IsLegal opening h × MayEndAct opening h a) }
    ensures late { (opening : Start) → (h : History) → (a : Act) → IsEndOf h a.place →
        MayActNow opening h.items a → Belongs h.open_ops h.items a → IsInOrder opening h.items a → MayEndAct opening h a }

    // For an open operation its order follows: no act of it stands yet.
    ensures open { AtEachOpen (λ opening h o a. IsEndOf h a.place → MayActNow opening h.items a →
        All (IsNoActOf o) h.items → MayEndAct opening h a) }
{}

/// What a home says to a process that may ask it is the reply of one store.
pub fn homes_say_what_one_store_does()
    ensures { (opening : Start) → (before : List Item) → (o : Pending) → (reply : Reply) → MayAskNow before o →
        HomeSays opening (done_in before) o.proc o.op reply → MayAnswer opening before o reply }
{}

/// A link fault may answer a process that may ask its home, whatever the home would have said, and an access that
/// one store would do.
pub fn link_faults_are_allowed()
    ensures asked { (opening : Start) → (before : List Item) → (o : Pending) → (reply : Reply) → MayAskNow before o →
        MayFail (told_to o before) o.op reply → MayAnswer opening before o reply }
    ensures load { (b : Before) → (p : ProcName) → (spot : Spot) → (n : ℕ) → (bytes : List ℕ) → reply_of b p (Load spot n) ≡ Bytes bytes → IsAllowed b p (Load spot n) LinkFault }
    ensures store { (b : Before) → (p : ProcName) → (spot : Spot) → (bytes : List ℕ) → reply_of b p (Store spot bytes) ≡ Fine → IsAllowed b p (Store spot bytes) LinkFault }
{}

/// An entry without effects answers an open operation at an earlier place: link faults and refusals do so.
pub fn entries_without_effects_are_put_in()
    ensures { (opening : Start) → (left right : List Pending) → (o : Pending) → IsLegalIfPutIn opening left right o }
{}

/// What stands behind a place stays legal when the past changes for one process that does nothing there.
pub fn what_stands_behind_stays_legal()
    ensures { (p : ProcName) → (old new : List Item) → IsAlikeBut p old new → (opening : Start) → (pending open_now : List Pending) →
        StayLegal opening p pending open_now old new }
{}

/// What was done, and so all bytes, objects and locks, stays as it was but at the end, and others meet the same,
/// before any place.
pub fn others_meet_the_same()
    ensures moves { (opening : Start) → (h new : History) → (move : HistoryMoves opening h new) → done_in new.items ≡ done_by move ++ done_in h.items }
    ensures done_put_in { (opening : Start) → AtEachPutIn (λ e old new. done_in new ≡ done_in old) }
    ensures put_in { (opening : Start) → AtEachPutIn (λ e old new. OthersMeetTheSame opening e.proc old new) }
    ensures done_told { (opening : Start) → AtEachTelling (λ o old new. done_in new ≡ done_in old) }
    ensures told { (opening : Start) → AtEachTelling (λ o old new. OthersMeetTheSame opening o.proc old new) }
{}

/// While an operation is open its process is told nothing, and then the one reply: what it knows of its locks
/// is at the end of the history what it was at the Begin.
pub fn an_open_operation_is_the_last_of_its_process()
    ensures before { SinceBegin (λ o behind old. told_to o (behind ++ old) ≡ told_to o old) }
    ensures after { SinceBegin IsToldLast }
{}

/// A history to which each kind of move is made.
pub fn a_history_grows_by_moves()
    ensures begins { HistoryMoves two_nodes (history [] []) (history [] (p_locks ∷ [])) }
    ensures acts { HistoryMoves two_nodes (history [] (p_locks ∷ (q_locks ∷ []))) (history granted (p_locks ∷ (q_locks ∷ []))) }
    ensures faults { HistoryMoves two_nodes (history granted (p_locks ∷ (q_locks ∷ []))) (history in_doubt (q_locks ∷ [])) }
    ensures does { HistoryMoves two_nodes (history in_doubt (q_locks ∷ [])) (history refused (q_locks ∷ [])) }
    ensures hears { HistoryMoves two_nodes (history refused (q_locks ∷ [])) (history conflict []) }
    ensures is_told { HistoryMoves two_nodes (history (q_unlocks ∷ unlocks) (p_unlocks ∷ (q_loads ∷ []))) (history unlocked (q_loads ∷ [])) }
    ensures finishes { HistoryMoves two_nodes (history unlocked (q_loads ∷ [])) (history (Answered (entry_of q_loads (at 10 2) 1 NoLock) ∷ unlocked) []) }
{}
