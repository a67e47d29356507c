//! Laws of what a home does at a request. Each stands on a function without a body, so that the check
//! proves it.
ghost use Rattle.std.specs.Prelude.{◌≡◌, ℕ, ◌<◌, ◌≤◌, IsTrue, false, None};
ghost use Rattle.uid_names.specs.Names.{ProcName, ObjectName, same_proc};
ghost use Rattle.object_store.specs.HomeStates.{HomeState};
ghost use Rattle.object_store.specs.Kept.{IsHome};
ghost use Rattle.lock_manager.specs.Tables.{Table, IsTable};
ghost use Rattle.call_once.specs.Calls.{call_of, last_of};
ghost use Rattle.ring_messages.specs.Bodies.{Ask, Answer, body_of_ask, body_of_answer};
ghost use Rattle.ring_messages.specs.Ranges.{IsBody, LiesWithin};
ghost use Rattle.page_server.specs.Answers.{IsCarried};
ghost use Rattle.page_server.specs.Afterwards.{ChangesServed, HoldsAsBefore, IsNewNumber, IsTold, KeepsStamp};
ghost use Rattle.page_server.specs.Decisions.{decide};
ghost use Rattle.page_server.specs.NewNumbers.{GrantsNewOnes, MakesNewOnes};
ghost use Rattle.page_server.specs.Outcomes.{is_refusal, is_remove};
ghost use Rattle.page_server.specs.Serving.{HomeSide, first_side, serve_of};
ghost use Rattle.page_server.specs.ServerStates.{AreRoomsWithin, IsSide, IsSideWithin};
ghost use Rattle.page_server.specs.Taken.{TakesLengths, TakesPages, TookOnStamp};

use crate::server::PageServer;
use page_store::Pages;
use uid_names::laws::may_cross_threads;

/// A number is decided once: asked again, it gets the same answer and leaves the home side as it was.
pub fn a_number_is_decided_once()
    ensures { (side : HomeSide) (p : ProcName) (number : ℕ) (ask again : Ask) → IsNewNumber side p number →
        serve_of (serve_of side p number ask).side p number again ≡ serve_of side p number ask }
{}

/// A refused request changes nothing but the last number and answer of its process.
pub fn a_refusal_changes_nothing()
    ensures refused { (side : HomeSide) (p : ProcName) (number : ℕ) (ask : Ask) (answer : Answer) →
        IsTold side p number ask answer → IsTrue (is_refusal answer) → ChangesServed side p number ask }
    ensures others { (side : HomeSide) (p q : ProcName) (number : ℕ) (ask : Ask) → same_proc p q ≡ false →
        call_of q (serve_of side p number ask).side.served ≡ call_of q side.served }
{}

/// No request but Remove changes what another process holds.
pub fn a_process_holds_what_it_held()
    ensures { (side : HomeSide) (p q : ProcName) (number : ℕ) (ask : Ask) (u : ObjectName) →
        is_remove ask ≡ false → same_proc q p ≡ false → HoldsAsBefore q u side (serve_of side p number ask).side }
{}

/// The stamp of an object never falls.
pub fn stamps_never_fall()
    ensures { (side : HomeSide) (p : ProcName) (number : ℕ) (ask : Ask) (u : ObjectName) →
        KeepsStamp u side.home (serve_of side p number ask).side.home }
{}

/// A counter and a grant are never given twice: each is above all that were given, and at most the
/// greatest from then on, which never falls.
pub fn numbers_are_given_once()
    ensures made { (home : HomeState) (locks : Table) (p : ProcName) (ask : Ask) → MakesNewOnes home (decide home locks p ask) }
    ensures counters { (home : HomeState) (locks : Table) (p : ProcName) (ask : Ask) →
        home.greatest ≤ (decide home locks p ask).home.greatest }
    ensures granted { (home : HomeState) (locks : Table) (p : ProcName) (ask : Ask) → GrantsNewOnes locks (decide home locks p ask) }
    ensures grants { (home : HomeState) (locks : Table) (p : ProcName) (ask : Ask) →
        locks.last ≤ (decide home locks p ask).locks.last }
{}

/// Each home that a decision leaves is a home, and each lock table a table.
pub fn a_decision_leaves_a_home_and_a_table()
    ensures home { (home : HomeState) (locks : Table) (p : ProcName) (ask : Ask) →
        IsHome home → IsBody home.node (body_of_ask ask) → IsHome (decide home locks p ask).home }
    ensures table { (home : HomeState) (locks : Table) (p : ProcName) (ask : Ask) →
        IsTable locks → IsTable (decide home locks p ask).locks }
{}

/// What a home answers can be carried by a frame.
pub fn answers_can_be_carried()
    ensures decided { (home : HomeState) (locks : Table) (p : ProcName) (ask : Ask) →
        IsHome home → IsTable locks → IsCarried (decide home locks p ask).answer }
    ensures told { (side : HomeSide) (p : ProcName) (number : ℕ) (ask : Ask) (answer : Answer) →
        IsSide side → IsTold side p number ask answer → IsCarried answer }
{}

/// Whatever is asked, a home side stays one.
pub fn a_home_side_stays_one()
    ensures first { (home : HomeState) → IsHome home → IsSide (first_side home) }
    ensures served { (side : HomeSide) (p : ProcName) (number : ℕ) (ask : Ask) →
        IsSide side → IsBody side.home.node (body_of_ask ask) → IsSide (serve_of side p number ask).side }
{}

/// Where no room of a home side, and no answer that it keeps, is above a bound, nor what it is asked, it stays so, and what it
/// answers is not above the bound either.
pub fn a_home_side_stays_within_a_room()
    ensures first { (room : ℕ) (home : HomeState) → AreRoomsWithin room home.objects → IsSideWithin room (first_side home) }
    ensures served { (room : ℕ) (side : HomeSide) (p : ProcName) (number : ℕ) (ask : Ask) → IsSide side → IsSideWithin room side →
        LiesWithin room (body_of_ask ask) → IsSideWithin room (serve_of side p number ask).side }
    ensures told { (room : ℕ) (side : HomeSide) (p : ProcName) (number : ℕ) (ask : Ask) (answer : Answer) → IsSide side →
        IsSideWithin room side → IsTold side p number ask answer → LiesWithin room (body_of_answer answer) }
{}

/// An old number changes nothing, and is not answered.
pub fn an_old_number_changes_nothing()
    ensures { (side : HomeSide) (p : ProcName) (number : ℕ) (ask : Ask) → number < last_of p side.served →
        serve_of side p number ask ≡ record { side = side; answer = None } }
{}

/// A write to what is there, under a grant of its node, is taken exactly on its base, and raises the stamp
/// by one.
pub fn a_write_is_taken_on_its_base()
    ensures page { (home : HomeState) (locks : Table) (p : ProcName) → TakesPages home locks p }
    ensures length { (home : HomeState) (locks : Table) (p : ProcName) → TakesLengths home locks p }
    ensures taken { (home : HomeState) (locks : Table) (p : ProcName) (ask : Ask) → TookOnStamp home ask (decide home locks p ask) }
{}

/// Threads may hand each other page servers, where they may the pages.
pub fn page_servers_may_cross_threads<P: Pages + Send>() {
    may_cross_threads::<PageServer<P>>();
}
