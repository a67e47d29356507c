//! Laws of homes. Each stands on a function without a body, so that the check proves it.
ghost use Rattle.node_runs.specs.NodesKeep.{InEveryRun};
ghost use Rattle.run_laws.specs.HistoryHomes.{AreHomesAlways};
ghost use Rattle.run_laws.specs.HomeWords.{AreHomeWords};
ghost use Rattle.run_laws.specs.ToldRooms.{AreRoomsTold};
ghost use Rattle.run_laws.specs.LiveLocks.{AreLive};
ghost use Rattle.run_laws.specs.StandingLocks.{AreStanding};
ghost use Rattle.run_laws.specs.KnownRooms.{AreKnownRight, ArePagesRight};
ghost use Rattle.run_laws.specs.OpenDecisions.{AreOpenFound, AreOpenRight};

/// In every run in which no tick is above 2^40, at each place of its history: what homes did by what stands before is what they
/// decided up to there, in that order; the lock rows that it leaves are those of the homes, row for row, and no two of them
/// conflict; and the objects that are present are those of the homes.
pub fn homes_have_what_the_history_says()
    ensures { InEveryRun AreHomesAlways }
{}

/// So what a home decides on a lock or a list, at a place of the history, is what one store says over what stands before it.
pub fn homes_say_what_one_store_says()
    ensures { InEveryRun AreHomeWords }
{}

/// In every run in which no tick is above 2^40 a grant tells the room of its object, and a length within it, as long as the object is
/// there, however late the grant arrives; no other object comes under its name.
pub fn a_grant_tells_the_room()
    ensures { InEveryRun (λ s w. AreRoomsTold w) }
{}

/// In every run in which no tick is above 2^40: a lock that is Held, and whose release or removal was not sent, has its row at its
/// home with that grant, and no request about it that may still be decided is on its way. A grant that was decided for the last
/// call of a process has its row, also where it has not arrived. While a removal is the last call and not decided, its row is there,
/// in a mode that removes, and nothing else about the object may be decided.
pub fn locks_that_are_kept_stand_at_their_homes()
    ensures { InEveryRun (λ s w. AreLive w) }
{}

/// So the home of a lock that is kept has its object, and where the lock is one to write takes writes of its node under its grant;
/// and two processes that keep an object keep it in modes that go together.
pub fn homes_stand_for_what_is_kept()
    ensures { InEveryRun (λ s w. AreStanding w) }
{}

/// And where a home decides a call that its process still has open, it finds what the call needs: the object with its page, or with room
/// for its length, and the grant under which it is sent; the object of a removal, with a lock that may remove it. So an open page-in is
/// answered with its page, an open page-out or attr-out by Stored or Stale, and an open removal by Done: never by no object, nor by no
/// grant.
pub fn an_open_call_finds_what_it_needs()
    ensures found { InEveryRun AreOpenFound }
    ensures right { InEveryRun AreOpenRight }
{}

/// In every run in which no tick is above 2^40 the room that a desk knows of an object is the object's, as long as that is there, and the
/// length that it knows lies within it; and each resident page is one of its object's.
pub fn what_is_known_of_a_room_is_right()
    ensures known { InEveryRun AreKnownRight }
    ensures pages { InEveryRun ArePagesRight }
{}
