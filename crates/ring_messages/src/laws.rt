//! Laws of frames. Each stands on a function without a body, so that the check proves it.
ghost use Rattle.std.specs.Prelude.{◌≡◌, ◌+◌, ◌≤◌, ◌++◌, List, ℕ, [], length, take, true, false, Some, None};
ghost use Rattle.ring_messages.specs.declared.body.Body.{Body};
ghost use Rattle.ring_messages.specs.Bodies.{Ask, Answer, body_of_ask, body_of_answer, ask_of, answer_of, is_request};
ghost use Rattle.ring_messages.specs.Frames.{Message};
ghost use Rattle.uid_names.specs.declared.limits.TheConstants.{PAGE_BYTES};
ghost use Rattle.ring_messages.specs.Sizes.{body_size};
ghost use Rattle.ring_messages.specs.Spelled.{IsFrame, IsHead, Spells};
ghost use Rattle.ring_messages.specs.Spelling.{header, head_of, spelling};

use crate::body::Body;
use crate::frame::Frame;
use uid_names::laws::may_cross_threads;

/// Each frame has one spelling, no two frames have one, and none is the beginning of another.
pub fn frames_have_one_spelling()
    ensures one { (m n : Message) (bytes : List ℕ) → Spells m bytes → Spells n bytes → m ≡ n }
    ensures prefix { (m n : Message) (rest : List ℕ) → IsFrame m → IsFrame n → spelling n ≡ spelling m ++ rest → rest ≡ [] }
{}

/// A spelling begins with its header, and the longest is that of a page-out, which has a form in version 2.
pub fn spellings_have_their_parts()
    ensures head { (m : Message) → IsFrame m → IsHead (head_of m) }
    ensures begins { (m : Message) → take 24 (spelling m) ≡ header (head_of m) }
    ensures length { (m : Message) → IsFrame m → length (spelling m) ≡ 24 + body_size m.version m.body }
    ensures longest { (m : Message) → IsFrame m → length (spelling m) ≤ 24 + (29 + PAGE_BYTES) }
    ensures first { (m : Message) → IsFrame m → m.version ≡ 1 → length (spelling m) ≤ 24 + (28 + PAGE_BYTES) }
{}

/// A body asks one thing of a home or answers one thing.
pub fn bodies_ask_or_answer()
    ensures asks { (ask : Ask) → (ask_of (body_of_ask ask) ≡ Some ask) × (answer_of (body_of_ask ask) ≡ None) }
    ensures answers { (answer : Answer) → (answer_of (body_of_answer answer) ≡ Some answer) × (ask_of (body_of_answer answer) ≡ None) }
    ensures asked { (b : Body) (ask : Ask) → ask_of b ≡ Some ask → (b ≡ body_of_ask ask) × (is_request b ≡ true) }
    ensures answered { (b : Body) (answer : Answer) → answer_of b ≡ Some answer → (b ≡ body_of_answer answer) × (is_request b ≡ false) }
{}

/// Threads may hand each other frames and bodies.
pub fn frames_may_cross_threads() {
    may_cross_threads::<Frame>();
    may_cross_threads::<Body>();
}
