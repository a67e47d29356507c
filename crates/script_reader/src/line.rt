//! What a line says that has its form, and the tests of it that ask for nothing else.
ghost use Rattle.std.specs.Prelude.{◌≡◌};
ghost use Rattle.script_reader.specs.Numbers.{is_fate as is_fate_said, is_no_number as is_no_number_in};
ghost use Rattle.script_reader.specs.NamesAsked.{is_no_name as is_no_name_in};
ghost use Rattle.script_reader.specs.Walk.Seen.{seen, seen_fate};

use crate::arguments::has_room;
use dom_text::is_name;

/// A fate, with its number where its word spells one.
#[derive(Clone, Copy)]
pub(crate) enum LineFate {
    Lose,
    Twice(Option<u32>),
    Late(Option<u32>),
}

/// A line that is no command: its names, and a number of the right range where a word spells one.
#[derive(Clone, Copy)]
pub(crate) enum Line<'a> {
    Wire {
        version: Option<u32>,
    },
    Node {
        name: &'a [u8],
        frames: Option<u32>,
    },
    Object {
        var: &'a [u8],
        room: Option<u32>,
        home: &'a [u8],
    },
    Fault {
        from: &'a [u8],
        to: &'a [u8],
        index: Option<u32>,
        fate: LineFate,
    },
    Phase,
    Access,
    Subject {
        node: &'a [u8],
        number: Option<u32>,
        person: &'a [u8],
        project: &'a [u8],
    },
}

impl LineFate {
    /// Whether it has its number, where it has such.
    fn has_number(self) -> bool
        ensures { result ≡ is_fate_said (seen_fate self) }
    {
        match self {
            LineFate::Lose => true,
            LineFate::Twice(late) | LineFate::Late(late) => late.is_some(),
        }
    }
}

impl Line<'_> {
    /// Whether a number, an address or the length of a text is out of its range, in a script of this version.
    pub(crate) fn is_no_number(self, wire: u8) -> bool
        ensures { result ≡ is_no_number_in wire (seen self.entry) }
    {
        match self {
            Line::Wire { version } => version.is_none(),
            Line::Node { frames, .. } => frames.is_none(),
            Line::Object { room, .. } => !has_room(wire, room),
            Line::Fault { index, fate, .. } => !(index.is_some() && fate.has_number()),
            Line::Phase | Line::Access => false,
            Line::Subject { number, .. } => number.is_none(),
        }
    }

    /// Whether a word is no name or no path where one is asked.
    pub(crate) fn is_no_name(self) -> bool
        ensures { result ≡ is_no_name_in (seen self.entry) }
    {
        match self {
            Line::Node { name, .. } => !is_name(name),
            Line::Object { var, home, .. } => !(is_name(var) && is_name(home)),
            Line::Fault { from, to, .. } => !(is_name(from) && is_name(to)),
            Line::Wire { .. } | Line::Phase | Line::Access => false,
            Line::Subject {
                node,
                person,
                project,
                ..
            } => !(is_name(node) && (is_name(person) && is_name(project))),
        }
    }
}
