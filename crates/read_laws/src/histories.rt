//! Laws of reading in histories. Each stands on a function without a body, so that the check proves it.
ghost use Rattle.std.specs.Prelude.{◌≡◌, []};
ghost use Rattle.uid_names.specs.Openings.{Start};
ghost use Rattle.dom_history.specs.Histories.{History};
ghost use Rattle.dom_history.specs.Legal.{IsLegal};
ghost use Rattle.read_laws.specs.Readings.{AreReadAsStored, AreReadAtOnePlace, AreReadByLoads};
ghost use Rattle.read_laws.specs.Staying.{StaysWhileRead};

/// While a process reads an object whole, whatever others do meanwhile, each load tells it bytes of that object, as one store has them at the place of the
/// load; and what it has read in the end is what its loads told, one behind the other.
pub fn objects_are_read_as_one_store_has_them()
    ensures loads { (opening : Start) (h : History) → IsLegal opening h → AreReadAsStored opening h }
    ensures whole { (opening : Start) (h : History) → IsLegal opening h → AreReadByLoads h }
{}

/// In a history of one store where nothing is open, an object stays as it is while a process knows that it holds it in Read: nobody stores to it, whoever else has
/// items there, acts and link faults included.
pub fn what_is_read_nobody_writes_meanwhile()
    ensures { (opening : Start) (h : History) → IsLegal opening h → h.open_ops ≡ [] → StaysWhileRead opening h }
{}

/// So all loads of an object that is read whole are of one place: there is one among the items such that each of them told bytes that one store has there.
pub fn objects_are_read_at_one_place()
    ensures { (opening : Start) (h : History) → IsLegal opening h → h.open_ops ≡ [] → AreReadAtOnePlace opening h }
{}
