//! Laws of volumes. Each stands on a function without a body, so that the check proves it.
ghost use Rattle.std.specs.Prelude.{◌≡◌, ◌==◌, ◌&&◌, ℕ, List, if◌then◌else◌};
ghost use Rattle.page_store.specs.Volumes.{Volume, no_pages, page_of, with_page, without_object, zeros};

/// A change of a volume changes the pages that it names, and no other.
pub fn changes_are_local()
    ensures empty { (c k : ℕ) → page_of no_pages c k ≡ zeros }
    ensures put { (volume : Volume) (counter page : ℕ) (bytes : List ℕ) (c k : ℕ) →
        page_of (with_page volume counter page bytes) c k
        ≡ (if c == counter && k == page then bytes else page_of volume c k) }
    ensures dropped { (volume : Volume) (counter c k : ℕ) →
        page_of (without_object volume counter) c k
        ≡ (if c == counter then zeros else page_of volume c k) }
{}
