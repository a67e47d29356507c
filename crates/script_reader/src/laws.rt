//! Laws of scripts. Each stands on a function without a body, so that the check proves it.
ghost use Rattle.std.specs.Prelude.{◌≡◌, ◌⊎◌, ℕ, List};
ghost use Rattle.script_reader.specs.Grammar.{IsBad, IsScript};
ghost use Rattle.script_reader.specs.Scripts.{Content};
ghost use Rattle.script_reader.specs.declared.cause.Cause.{Cause};

/// Bytes are a script of one content, or they have one first bad line and cause, and never both.
pub fn scripts_have_one_reading()
    ensures content { (bytes : List ℕ) (s t : Content) → IsScript bytes s → IsScript bytes t → s ≡ t }
    ensures fault { (bytes : List ℕ) (m n : ℕ) (c d : Cause) → IsBad bytes m c → IsBad bytes n d → (m ≡ n) × (c ≡ d) }
    ensures either { (bytes : List ℕ) → ((s : Content) × IsScript bytes s) ⊎ ((n : ℕ) × (c : Cause) × IsBad bytes n c) }
    ensures never_both { (bytes : List ℕ) (s : Content) (n : ℕ) (c : Cause) → IsScript bytes s → IsBad bytes n c → ⊥ }
{}
