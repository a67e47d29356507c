//! Laws of links. Each stands on a function that does nothing, so that the check proves it.
ghost use Rattle.std.specs.Prelude.{◌≡◌, ℕ, ◌∷◌, List, drop};
ghost use Rattle.dom_history.specs.declared.plan.Fate.{Fate};
ghost use Rattle.world_runs.specs.Links as links;
ghost use Rattle.ring_links.specs.Carried.{Carrying, frame_sent, mark_sent, plain_link, CarriesFrames};

/// What entries carry changes nothing of what waits.
pub fn links_go_by_what_waits<T>()
    ensures frame { (fate : Fate) (x : T) (l : Carrying T) → plain_link (frame_sent fate x l) ≡ links.frame_sent fate (plain_link l) }
    ensures mark { (phase : ℕ) (x : T) (l : Carrying T) → plain_link (mark_sent phase x l) ≡ links.mark_sent phase (plain_link l) }
    ensures less { (n : ℕ) (l : Carrying T) → plain_link (record l { queue = drop n l.queue }) ≡ links.link_less n (plain_link l) }
{}

/// Each copy carries the frame of its number.
pub fn copies_carry_their_frames<T>()
    ensures frame { (fate : Fate) (x : T) (sent : List T) (l : Carrying T) → CarriesFrames sent l → CarriesFrames (x ∷ sent) (frame_sent fate x l) }
    ensures mark { (phase : ℕ) (x : T) (sent : List T) (l : Carrying T) → CarriesFrames sent l → CarriesFrames sent (mark_sent phase x l) }
    ensures less { (n : ℕ) (sent : List T) (l : Carrying T) → CarriesFrames sent l → CarriesFrames sent (record l { queue = drop n l.queue }) }
{}
