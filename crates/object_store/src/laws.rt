//! Laws of homes. Each stands on a function without a body, so that the check proves it.
ghost use Rattle.std.specs.Prelude.{◌≡◌, ℕ, ◌+◌, ◌==◌, if◌then◌else◌, List, Some, None};
ghost use Rattle.std.specs.Option.{option_map};
ghost use Rattle.uid_names.specs.Names.{ObjectName};
ghost use Rattle.uid_names.specs.declared.mode.ObjKind.{ObjKind};
ghost use Rattle.object_store.specs.declared.attributes.Attr.{Attr};
ghost use Rattle.object_store.specs.Objects.{changed_if, fresh, stamped, resized};
ghost use Rattle.object_store.specs.HomeStates.{HomeState, attr_in, attr_of, after_make, after_remove, after_page, after_length};
ghost use Rattle.object_store.specs.Kept.{IsAttr, IsHome};

use crate::homes::Home;
use page_store::Pages;
use uid_names::laws::may_cross_threads;

/// A change of a home changes the attributes of the object that it names, and of no other.
pub fn changes_are_local()
    ensures make { (home : HomeState) (kind : ObjKind) (room q : ℕ) → IsHome home →
        attr_in (after_make home kind room) q
        ≡ (if q == home.greatest + 1 then Some (fresh kind room) else attr_in home q) }
    ensures remove { (home : HomeState) (counter q : ℕ) →
        attr_in (after_remove home counter) q ≡ (if q == counter then None else attr_in home q) }
    ensures page { (home : HomeState) (counter page q : ℕ) (bytes : List ℕ) →
        attr_in (after_page home counter page bytes) q
        ≡ option_map (changed_if (q == counter) stamped) (attr_in home q) }
    ensures length { (home : HomeState) (counter length q : ℕ) →
        attr_in (after_length home counter length) q
        ≡ option_map (changed_if (q == counter) (resized length)) (attr_in home q) }
{}

/// The attributes of an object that is there are in their ranges.
pub fn attributes_are_in_range()
    ensures { (home : HomeState) (uid : ObjectName) (attr : Attr) → IsHome home → attr_of home uid ≡ Some attr → IsAttr attr }
{}

/// Threads may hand each other homes, where they may the pages.
pub fn homes_may_cross_threads<P: Pages + Send>() {
    may_cross_threads::<Home<P>>();
}
