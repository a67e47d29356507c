//! The choice of events. No function takes memory.
ghost use Rattle.std.specs.Prelude.{◌≡◌, None};
ghost use Rattle.std.specs.List.{list_any};
ghost use Rattle.event_views.specs.Commands.{same_command};
ghost use Rattle.event_views.specs.Chosen.{is_from as not_below, is_to as not_above, is_object as is_of_object, is_page as is_of_page, says_so as says_of, drops_so as drops_of, is_about as concerns, names_command as names, sent_for as is_for, is_of as is_of_name, is_of_command as is_of_chosen, is_sent_about as is_frame_about, is_sent_for as is_frame_for, is_sent_chosen as is_frame_chosen, is_chosen as is_chosen_by};

use crate::command::CommandName;
use crate::run::{EventView, FrameView};
use uid_names::Uid;

/// Which events are shown: those from a tick on, up to one, of an object, of a page, and of a command, each where it is said.
#[derive(Clone, Copy, Debug, PartialEq, Eq)]
pub struct Choice {
    pub from: Option<u64>,
    pub to: Option<u64>,
    pub object: Option<Uid>,
    pub page: Option<u32>,
    pub command: Option<CommandName>,
}

fn is_from(first: Option<u64>, tick: u64) -> bool
    ensures { result ≡ not_below first tick }
{
    match first {
        None => true,
        Some(first) => first <= tick,
    }
}

fn is_to(last: Option<u64>, tick: u64) -> bool
    ensures { result ≡ not_above last tick }
{
    match last {
        None => true,
        Some(last) => tick <= last,
    }
}

fn is_object(object: Option<Uid>, named: Option<Uid>) -> bool
    ensures { result ≡ is_of_object object named }
{
    let Some(object) = object else {
        return true;
    };
    match named {
        None => false,
        Some(named) => object.is(named),
    }
}

fn is_page(page: Option<u32>, named: Option<u32>) -> bool
    ensures { result ≡ is_of_page page named }
{
    let Some(page) = page else {
        return true;
    };
    match named {
        None => false,
        Some(named) => page == named,
    }
}

fn names_command(command: &CommandName, named: &Option<CommandName>) -> bool
    ensures { result ≡ names command.now named.now }
{
    match named {
        None => false,
        Some(named) => command.is(named),
    }
}

fn sent_for(command: &CommandName, frame: &Option<FrameView>) -> bool
    ensures { result ≡ is_for command.now frame.now }
{
    match frame {
        None => false,
        Some(frame) => names_command(command, &frame.command),
    }
}

/// Whether a command is one of these.
fn is_named_in(command: &CommandName, named: &[CommandName]) -> bool
    ensures { result ≡ list_any (same_command command.now) named.now }
{
    for other in named {
        if command.is(other) {
            return true;
        }
    }
    false
}

/// Whether a command begins or is answered with an event, or that sent or met a frame that was sent for it.
pub fn is_of(command: &CommandName, view: &EventView) -> bool
    ensures { result ≡ is_of_name command.now view.now }
{
    names_command(command, &view.begun)
        || is_named_in(command, view.answered.items())
        || sent_for(command, &view.sent)
        || sent_for(command, &view.met)
}

impl Choice {
    /// The choice of all events.
    pub fn all() -> Choice
        ensures { result ≡ record { from = None; to = None; object = None; page = None; command = None } }
    {
        Choice {
            from: None,
            to: None,
            object: None,
            page: None,
            command: None,
        }
    }

    fn says_so(&self, frame: &Option<FrameView>) -> bool
        ensures { result ≡ says_of self.now frame.now }
    {
        match frame {
            None => false,
            Some(frame) => {
                is_object(self.object, frame.said.uid) && is_page(self.page, frame.said.page)
            }
        }
    }

    fn drops_so(&self, uid: Uid, page: u32) -> bool
        ensures { result ≡ drops_of self.now (uid, page) }
    {
        is_object(self.object, Some(uid)) && is_page(self.page, Some(page))
    }

    fn drops_any(&self, pages: &[(Uid, u32)]) -> bool
        ensures { result ≡ list_any (drops_of self.now) pages.now }
    {
        for (uid, page) in pages {
            if self.drops_so(*uid, *page) {
                return true;
            }
        }
        false
    }

    fn is_about(&self, view: &EventView) -> bool
        ensures { result ≡ concerns self.now view.now }
    {
        (self.object.is_none() && self.page.is_none())
            || self.says_so(&view.sent)
            || self.says_so(&view.met)
            || self.drops_any(view.event.effects().dropped.items())
    }

    fn is_of_command(&self, view: &EventView) -> bool
        ensures { result ≡ is_of_chosen self.now.command view.now }
    {
        match &self.command {
            None => true,
            Some(command) => is_of(command, view),
        }
    }

    fn is_sent_about(&self, view: &EventView) -> bool
        ensures { result ≡ is_frame_about self.now view.now }
    {
        (self.object.is_none() && self.page.is_none()) || self.says_so(&view.sent)
    }

    fn is_sent_for(&self, frame: &Option<FrameView>) -> bool
        ensures { result ≡ is_frame_for self.now.command frame.now }
    {
        match &self.command {
            None => true,
            Some(command) => sent_for(command, frame),
        }
    }

    /// Whether the frame that an event sent is itself chosen: one of the object, of the page and for the command, each where it is said.
    pub fn is_sent_chosen(&self, view: &EventView) -> bool
        ensures { result ≡ is_frame_chosen self.now view.now }
    {
        self.is_sent_about(view) && self.is_sent_for(&view.sent)
    }

    /// Whether an event is chosen.
    pub fn is_chosen(&self, view: &EventView) -> bool
        ensures { result ≡ is_chosen_by self.now view.now }
    {
        let tick = view.event.place().tick;
        is_from(self.from, tick)
            && is_to(self.to, tick)
            && self.is_about(view)
            && self.is_of_command(view)
    }
}
