//! Laws of names. Each stands on a function without a body, so that the check proves it.
ghost use Rattle.std.specs.Prelude.{◌≡◌, ℕ, Bool, Some, Option, List};
ghost use Rattle.uid_names.specs.Names.{ObjectName};
ghost use Rattle.uid_names.specs.declared.mode.ObjKind.{ObjKind};
ghost use Rattle.naming_tree.specs.declared.addition.Addition.{Addition};
ghost use Rattle.naming_tree.specs.declared.changing.Change.TheVariants.{Add, Remove};
ghost use Rattle.naming_tree.specs.declared.purpose.Purpose.{Purpose};
ghost use Rattle.naming_tree.specs.declared.site.Site.{Site};
ghost use Rattle.naming_tree.specs.declared.step.Walked.{Walked};
ghost use Rattle.naming_tree.specs.declared.step.NameResult.TheVariants.{LinkLoop};
ghost use Rattle.naming_tree.specs.Dialogues.{Dialogue, Ends};
ghost use Rattle.naming_tree.specs.Sayings.{SaysAs, WalkSays, ListSays, ListAtSays, ParentSays, AddSays, DropSays};
ghost use Rattle.dir_records.specs.Paths.{route_of};
ghost use Rattle.naming_tree.specs.Walks.{walk, follow};
ghost use Rattle.naming_tree.specs.Bounds.{IsBounded, names_along};
ghost use Rattle.naming_tree.specs.Additions.{add_at, IsAddition};
ghost use Rattle.naming_tree.specs.Removals.{drop_at};
ghost use Rattle.naming_tree.specs.Changing.{changing_of, changing_asks, changing_after};

/// A walk says what its dialogue says after all that it heard.
#[tactic(auto, using(crate::proofs::WalksLive::walk_says))]
pub fn walks_go_by_all_they_heard()
    ensures { (site : Site) (path : List ℕ) (working : ObjectName) (last : Bool) → WalkSays site path working last }
{}

/// A walk follows at most eight links, and looks up at most as many names as its path and the texts of those links have.
/// A ninth link is a link loop.
pub fn walks_go_no_further()
    ensures bounded { (site : Site) (path : List ℕ) (working : ObjectName) (last : Bool) → IsBounded 8 (names_along (route_of path)) (walk site path working last) }
    ensures ninth { (site : Site) (last : Bool) (found : Walked → Dialogue) (link dir : ObjectName) (names : List (List ℕ)) → follow site last found 0 link dir names ≡ Ends LinkLoop }
{}

/// So does an addition to a directory, and a removal from one.
#[tactic(auto, using(crate::proofs::ChangingsLeft::addition_says, crate::proofs::ChangingsLeft::removal_says))]
pub fn changes_of_directories_go_by_all_they_heard()
    ensures additions { (parent : ObjectName) (what : Addition) → IsAddition what → SaysAs changing_asks changing_after (Some (changing_of parent (Add what))) (add_at parent what) }
    ensures removals { (parent : ObjectName) (name : List ℕ) → SaysAs changing_asks changing_after (Some (changing_of parent (Remove name))) (drop_at parent name) }
{}

/// So does a walk to the directory of a path's last name, and a directory that is listed by its object.
#[tactic(auto, using(crate::proofs::ByPathsLeft::parent_heard, crate::proofs::ListsLeft::list_at_heard))]
pub fn parents_go_by_all_they_heard()
    ensures parents { (site : Site) (path : List ℕ) (working : ObjectName) (purpose : Purpose) → ParentSays site path working purpose }
    ensures listed { (dir : ObjectName) → ListAtSays dir }
{}

/// So does a directory that is listed by its path, a name that is added by its path, and one that is removed.
#[tactic(auto, using(crate::proofs::ByPathsLeft::list_heard, crate::proofs::ByPathsLeft::add_heard, crate::proofs::ByPathsLeft::drop_heard))]
pub fn paths_go_by_all_they_heard()
    ensures listed { (site : Site) (path : List ℕ) (working : ObjectName) → ListSays site path working }
    ensures added { (site : Site) (path : List ℕ) (working : ObjectName) (kind : ObjKind) (room : ℕ) (text : Option (List ℕ)) → AddSays site path working kind room text }
    ensures removed { (site : Site) (path : List ℕ) (working : ObjectName) → DropSays site path working }
{}
