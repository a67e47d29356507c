//! Laws of directories. Each stands on a function without a body, so that the check proves it.
ghost use Rattle.std.specs.Prelude.{◌≡◌, ◌≢◌, ℕ, true, false, Some, None, List, bytes_eq};
ghost use Rattle.dir_records.specs.declared.row.DirRow.{DirRow};
ghost use Rattle.dir_records.specs.Records.{Slot, row_bytes, slot_of, IsRow};
ghost use Rattle.dir_records.specs.Directories.{directory_of, are_apart, row_named, StandsAt, first_free, with_slot, freed, IsDirectory};

/// What is written of a row is read again.
#[tactic(auto, using(crate::proofs::RecordsRead::record_read))]
pub fn rows_are_read_as_they_are_written()
    ensures { (row : DirRow) → IsRow row → slot_of (row_bytes row) ≡ Some (Some row) }
{}

/// A name that is new to a directory is found where it was put, and each other name still stands for what it stood for.
#[tactic(auto, using(crate::proofs::SlotsPut::added_found, crate::proofs::SlotsPut::others_stay))]
pub fn added_names_are_found()
    ensures found { (row : DirRow) (slots : List Slot) → row_named row.name slots ≡ None → row_named row.name (with_slot (first_free slots) (Some row) slots) ≡ Some row }
    ensures others { (row : DirRow) (other : List ℕ) (slots : List Slot) → bytes_eq row.name other ≡ false → row_named other (with_slot (first_free slots) (Some row) slots) ≡ row_named other slots }
{}

/// Once the record of a name is free the name is not found, and each other name still stands for what it stood for.
#[tactic(auto, using(crate::proofs::SlotsPut::gone, crate::proofs::SlotsPut::kept))]
pub fn dropped_names_are_gone()
    ensures gone { (name : List ℕ) (slots : List Slot) (place : ℕ) (row : DirRow) → are_apart slots ≡ true → StandsAt name place row slots → row_named name (freed place slots) ≡ None }
    ensures others { (name other : List ℕ) (slots : List Slot) (place : ℕ) (row : DirRow) → name ≢ other → StandsAt name place row slots → row_named other (freed place slots) ≡ row_named other slots }
{}

/// A directory that is read has at most 128 records, and no two of them have one name.
#[tactic(auto, using(crate::proofs::DirectoriesRead::directory_read))]
pub fn names_of_a_directory_differ()
    ensures { (bytes : List ℕ) (slots : List Slot) → directory_of bytes ≡ Some slots → IsDirectory slots }
{}
