//! Laws of a desk. Each stands on a function without a body, so that the check proves it.
ghost use Rattle.std.specs.Prelude.{◌≡◌, ◌≢◌, ℕ, true, None, Some, IsSome, [], ◌∷◌};
ghost use Rattle.uid_names.specs.Names.{ObjectName};
ghost use Rattle.dom_history.specs.declared.op.Op.{Op};
ghost use Rattle.dom_history.specs.Events.{ArePagesRising};
ghost use Rattle.page_cache.specs.Caches.{page_at, free_count};
ghost use Rattle.fault_handler.specs.declared.tasks.Task.{Task};
ghost use Rattle.fault_handler.specs.Lengths.{known_of, is_changed};
ghost use Rattle.fault_handler.specs.Transits.{going};
ghost use Rattle.fault_handler.specs.Desks.{DeskState, any_writes, moving_of, is_in_transit_there};
ghost use Rattle.fault_handler.specs.Victims.{Victim, is_idle_page, MayMakeRoom, named_victim};
ghost use Rattle.fault_handler.specs.Invariant.{IsProc, is_dirty, AreApart, IsDesk};
ghost use Rattle.fault_handler.specs.Conditions.{IsIdle};
ghost use Rattle.fault_handler.specs.Ready.{IsReady};
ghost use Rattle.fault_handler.specs.Next.{FitsTurn, IsAsked, IsNext};
ghost use Rattle.fault_handler.specs.Drops.{DropsOnly};
ghost use Rattle.fault_handler.specs.Accesses.{Always, room_made};
ghost use Rattle.lock_validate.specs.Bounded.{IsBounded, IsToldWithin, StaysWithin};
ghost use Rattle.lock_validate.specs.Causes.{Cause, comes_of, MayCome, AfterEach, IsOf};
ghost use Rattle.lock_validate.specs.Settled.{GivesUpSettled};
ghost use Rattle.lock_validate.specs.Dropped.{MayDropPages};
ghost use Rattle.lock_validate.specs.Room.{FindsRoom};
ghost use Rattle.lock_validate.specs.Turns.{IsMade};
ghost use Rattle.lock_validate.specs.Untouched.{IsUntouched, IsSameDesk};
ghost use Rattle.lock_validate.specs.Waiting.{WaitsForAnother, WaitsForFetch};

use fault_handler::Desk;
use uid_names::laws::may_cross_threads;

/// Each call is a few of the changes that a desk knows, one after another, and its outcome tells what they made.
pub fn each_call_is_moves()
    ensures { AfterEach (λ d p c m. IsMade c p d m) }
{}

/// Each call keeps what each desk keeps; and the desk stays that of its node, with its frames.
pub fn a_call_leaves_a_desk()
    ensures desk { AfterEach (λ d p c m. IsDesk m.desk) }
    ensures same { AfterEach (λ d p c m. IsSameDesk d m.desk) }
{}

/// After a call its process is ready again: it may go on, or its open call stands. What is asked is what a frame to that home
/// can carry, and the home a node; a reply is one that the operation can have; and where a home is asked the open call is one
/// of the operation, and the request that of the call.
pub fn a_call_leaves_its_process_ready()
    ensures ready { AfterEach (λ d p c m. IsReady m.desk p) }
    ensures asks { AfterEach (λ d p c m. IsAsked m.desk.nodes m.turn) }
    ensures fits { AfterEach (λ d p c m. (op : Op) → IsOf d p c op → FitsTurn op m.turn) }
    ensures next { AfterEach (λ d p c m. (op : Op) → IsOf d p c op → IsNext m.desk p op m.turn) }
{}

/// A call of one process leaves what the desk keeps for another: its locks, its mappings, its open call, its
/// load or store, and the page that it moves.
pub fn a_process_leaves_the_others()
    ensures { AfterEach (λ d p c m. (q : ℕ) → IsProc q → q ≢ p → IsUntouched d m.desk q) }
{}

/// So the other's call stands as before, or it may go on as before.
pub fn what_is_untouched_stands()
    ensures ready { (d e : DeskState) (q : ℕ) → IsUntouched d e q → IsReady d q → IsReady e q }
    ensures idle { (d e : DeskState) (q : ℕ) → IsUntouched d e q → IsIdle d q → IsIdle e q }
{}

/// The pages that a call drops are told, and nothing else goes.
pub fn what_is_dropped_is_told()
    ensures { AfterEach (λ d p c m. DropsOnly d.cache.pages m.desk.cache.pages m.dropped) }
{}

/// A load or store drops one page at most, and only to make room, where no frame is free: one that is clean and not in
/// transit. Else pages are dropped only at an answer: at a grant whose stamp is not the seen one, or where the object is
/// known to be gone, and in either case only where no process of the node keeps it.
pub fn pages_are_dropped_only_where_they_may_be()
    ensures { AfterEach (λ d p c m. MayDropPages d p c m.dropped) }
{}

/// Which page makes room is free: any clean page that is not in transit may, and it alone is dropped then.
pub fn any_clean_page_may_make_room()
    ensures may { (d : DeskState) (u : ObjectName) (k : ℕ) → is_idle_page d u k ≡ true →
        MayMakeRoom d (Victim.Drops u k) }
    ensures dropped { (d : DeskState) (p : ℕ) (task : Task) (u : ObjectName) (k : ℕ) →
        (room_made d p task (Victim.Drops u k)).dropped ≡ (u, k) ∷ [] }
{}

/// The pages that a call drops rise strictly, by object and then by number, as those of an event do.
pub fn dropped_pages_rise()
    ensures { AfterEach (λ d p c m. ArePagesRising m.dropped) }
{}

/// A lock that is held in a mode that writes is given up, and an object is removed, only where no page of the object is
/// dirty or moved by another process and its length is unchanged, whatever a home answered.
pub fn what_is_given_up_is_settled()
    ensures { AfterEach (λ d p c m. GivesUpSettled m.desk p m.turn) }
{}

/// A page that is waited for is one that another process has in transit; a load or store waits for one that comes
/// from its home.
pub fn a_wait_is_for_a_page_that_another_process_moves()
    ensures moved { AfterEach (λ d p c m. WaitsForAnother m.desk p m.turn) }
    ensures fetched { AfterEach (λ d p c m. WaitsForFetch c m.desk p m.turn) }
{}

/// With five frames and four processes a page can always be chosen to make room, for a process that moves none. So wherever
/// a call needs room a page is named, and it may make it: what a call of the code comes to is among what is said here.
pub fn a_page_can_be_chosen()
    ensures there { (d : DeskState) (p : ℕ) → IsDesk d → IsProc p → moving_of d p ≡ None → free_count d.cache ≡ 0 →
        IsSome (named_victim d) }
    ensures found { (d : DeskState) (p : ℕ) (c : Cause) → IsDesk d → IsProc p → MayCome d p c → FindsRoom (comes_of d p c) }
{}

/// Where no known room or length, no resident page and no page of an open load or store lies above a room, nor what a grant
/// tells, the desk stays so, and asks nothing above it.
pub fn what_is_asked_lies_within_what_is_known()
    ensures { (room : ℕ) (d : DeskState) (p : ℕ) (c : Cause) → IsDesk d → IsProc p → MayCome d p c → IsBounded room d → IsToldWithin room c →
        Always p (StaysWithin room) (comes_of d p c) }
{}

/// A page is dirty, and a length changed, only where a process of the node keeps the object in a mode that writes.
pub fn what_is_changed_has_a_writer()
    ensures page { (d : DeskState) (u : ObjectName) (k : ℕ) → IsDesk d → is_dirty (page_at d.cache.pages u k) ≡ true →
        any_writes d.entries u ≡ true }
    ensures length { (d : DeskState) (u : ObjectName) → IsDesk d → is_changed (known_of u d.known) ≡ true →
        any_writes d.entries u ≡ true }
{}

/// A page that is resident and in transit goes home, by a process, and no two processes move one page.
pub fn a_page_in_transit_is_moved_by_one_process()
    ensures moved { (d : DeskState) (u : ObjectName) (k : ℕ) → IsDesk d → IsSome (page_at d.cache.pages u k) →
        is_in_transit_there d.moving u k ≡ true → (q : ℕ) × IsProc q × (moving_of d q ≡ going u k) }
    ensures alone { (d : DeskState) → IsDesk d → AreApart d.moving }
{}

/// Threads may hand each other desks.
pub fn desks_may_cross_threads() {
    may_cross_threads::<Desk>();
}
