//! What a node receives with a notice.
ghost use Rattle.std.specs.Prelude.{◌≡◌};
ghost use Rattle.node_core.specs.Receivings.{seen};
ghost use Rattle.ring_links.specs.Notices.{notice_incoming};

use node_core::Incoming;
use ring_links::Notice;

/// What the event of a notice receives. Takes no memory.
pub(crate) fn incoming_of(notice: &Notice) -> Incoming
    ensures { seen result ≡ notice_incoming notice.now }
{
    Incoming::Gone {
        number: notice.number,
        tick: notice.tick,
    }
}
