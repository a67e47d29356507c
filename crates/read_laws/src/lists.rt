//! Laws of what access lists say in histories. Each body names the laws below that its proof stands on.
ghost use Rattle.std.specs.Prelude.{List};
ghost use Rattle.uid_names.specs.Openings.{IsStart, Start};
ghost use Rattle.dom_history.specs.Events.{Happening};
ghost use Rattle.dom_history.specs.Histories.{History};
ghost use Rattle.dom_history.specs.Legal.{IsLegal};
ghost use Rattle.script_reader.specs.Scripts.{Content, IsContent};
ghost use Rattle.node_runs.specs.Runs.{World};
ghost use Rattle.script_runs.specs.Histories.{script_history};
ghost use Rattle.script_runs.specs.Runs.{IsEndedRunOf};
ghost use Rattle.read_laws.specs.Asked.{ChecksGoByStore};
ghost use Rattle.read_laws.specs.Readings.{AreReadAtOnePlace};

use crate::histories::{objects_are_read_as_one_store_has_them, objects_are_read_at_one_place};
use script_runs::laws::ended_runs_of_scripts_are_as_one_store;

/// In every history of one store, and so in that of every ended run of a script: where a process reads the directory of a check and then its list, the bytes on
/// which the check decides are those of the list, each load's as one store has them at the place of that load, whatever others do meanwhile.
pub fn what_decides_is_what_one_store_had()
    ensures history { (opening : Start) (h : History) → IsLegal opening h → ChecksGoByStore opening h }
    ensures run { (s : Content) → IsContent s → IsStart s.opening → (events : List Happening) (w : World) → IsEndedRunOf s events w → ChecksGoByStore s.opening (script_history s events) }
{
    objects_are_read_as_one_store_has_them();
    ended_runs_of_scripts_are_as_one_store();
}

/// In the history of every ended run of a script, all loads of an object that a process reads whole are of one place, and so the list that it reads is the one that one
/// store has there.
pub fn runs_read_at_one_place()
    ensures { (s : Content) → IsContent s → IsStart s.opening → (events : List Happening) (w : World) → IsEndedRunOf s events w → AreReadAtOnePlace s.opening (script_history s events) }
{
    objects_are_read_at_one_place();
    ended_runs_of_scripts_are_as_one_store();
}
