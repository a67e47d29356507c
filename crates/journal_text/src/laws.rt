//! Laws of journals. Each stands on a function without a body, so that the check proves it.
ghost use Rattle.std.specs.Prelude.{◌≡◌, ◌++◌, ℕ, List, All};
ghost use Rattle.dom_history.specs.Events.{Happening};
ghost use Rattle.dom_history.specs.NodeTexts.{AreNodeNames};
ghost use Rattle.journal_text.specs.Lines.{line, journal};
ghost use Rattle.journal_text.specs.Written.{IsWritten, IsJournal, IsBadLine};

/// Two lists of events with one journal are equal.
pub fn journals_are_one_to_one()
    ensures line { (names : List (List ℕ)) (d e : Happening) (x y : List ℕ) → AreNodeNames names → IsWritten names d → IsWritten names e →
        line names d ++ x ≡ line names e ++ y → (d ≡ e) × (x ≡ y) }
    ensures journal { (names : List (List ℕ)) (d e : List Happening) → AreNodeNames names → All (IsWritten names) d → All (IsWritten names) e →
        journal names d ≡ journal names e → d ≡ e }
{}

/// Bytes are the journal of one list of events, or have one first bad line, and never both.
pub fn journals_have_one_reading()
    ensures events { (names : List (List ℕ)) (bytes : List ℕ) (d e : List Happening) → AreNodeNames names →
        IsJournal names bytes d → IsJournal names bytes e → d ≡ e }
    ensures fault { (names : List (List ℕ)) (bytes : List ℕ) (m n : ℕ) → AreNodeNames names →
        IsBadLine names bytes m → IsBadLine names bytes n → m ≡ n }
    ensures never_both { (names : List (List ℕ)) (bytes : List ℕ) (e : List Happening) (n : ℕ) → AreNodeNames names →
        IsJournal names bytes e → IsBadLine names bytes n → ⊥ }
{}
