//! Laws of access lists. Each stands on a function without a body, so that the check proves it.
ghost use Rattle.std.specs.Prelude.{◌≡◌, ◌≤◌, ℕ, ◌*◌, Some, List, length};
ghost use Rattle.acl_rules.specs.Decisions.{AreForOthers, IsDecidedBy, IsFirstFor, decided};
ghost use Rattle.acl_rules.specs.Lists.{IsList, list_of, list_text};
ghost use Rattle.acl_rules.specs.declared.deciding.Decision.TheVariants.{Denied};
ghost use Rattle.acl_rules.specs.declared.entry.Entry.{Entry};
ghost use Rattle.acl_rules.specs.declared.rights.Rights.{Rights};

/// A list that is written is read again. Its text has at most 71 bytes for each entry.
#[tactic(auto, using(crate::proofs::ReadAgain::list_read, crate::proofs::ReadAgain::text_short))]
pub fn lists_are_read_as_they_are_written()
    ensures read { (entries : List Entry) → IsList entries → list_of (list_text entries) ≡ Some entries }
    ensures short { (entries : List Entry) → IsList entries → length (list_text entries) ≤ 71 * length entries }
{}

/// Each list has one text: a text of a list is the one that is written of it, and the list can be written.
#[tactic(auto, using(crate::proofs::OneText::is_list, crate::proofs::OneText::one_text))]
pub fn each_list_has_one_text()
    ensures list { (text : List ℕ) (entries : List Entry) → list_of text ≡ Some entries → IsList entries }
    ensures text { (text : List ℕ) (entries : List Entry) → list_of text ≡ Some entries → list_text entries ≡ text }
{}

/// What a list decides depends on its first entry for the subject alone; where there is none, all is denied.
#[tactic(auto, using(crate::proofs::FirstEntries::first_decides, crate::proofs::FirstEntries::none_denies))]
pub fn the_first_entry_decides()
    ensures first { (person project : List ℕ) (front behind : List Entry) (e : Entry) → IsFirstFor person project front e → IsDecidedBy person project front e behind }
    ensures none { (person project : List ℕ) (entries : List Entry) (need : Rights) → AreForOthers person project entries → decided entries person project need ≡ Denied 0 }
{}
