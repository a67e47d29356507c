//! Whether two events are one. No function takes memory.
ghost use Rattle.std.specs.Prelude.{◌≡◌, IsTrue, ◌↔◌};

use dom_history::{Effects, Event};
use uid_names::Uid;

/// Whether the same pages were dropped.
fn are_same_pages(a: &[(Uid, u32)], b: &[(Uid, u32)]) -> bool
    ensures { IsTrue result ↔ (a.now ≡ b.now) }
{
    a == b
}

/// Whether the same was done: no field is left out.
fn are_same_effects(a: &Effects, b: &Effects) -> bool
    ensures { IsTrue result ↔ (a.now ≡ b.now) }
{
    a.sent == b.sent && a.ended == b.ended && are_same_pages(a.dropped.items(), b.dropped.items())
}

/// Whether two events are one: at one place, and with the same effects.
pub(crate) fn is_same_event(a: &Event, b: &Event) -> bool
    ensures { IsTrue result ↔ (a.now ≡ b.now) }
{
    a.place() == b.place() && a.what() == b.what() && are_same_effects(a.effects(), b.effects())
}
