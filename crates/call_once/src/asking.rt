//! A call that waits for its answer.
ghost use Rattle.std.specs.Prelude.{◌≡◌, ◌+◌, ◌<◌, ◌↔◌, IsTrue};
ghost use Rattle.call_once.specs.Notices.{noticed};

use std::marker::Model;

/// The notice of a call at which it is given up.
pub const MOST_NOTICES: u8 = 8;

/// What a notice means for its call.
#[derive(Clone, Copy, Debug, PartialEq, Eq)]
pub enum Noticed {
    /// The request is to be sent again.
    Resend,
    /// The call is given up.
    GiveUp,
}

/// A call that waits for its answer: its number, and how many of its frames were noticed as lost or late.
#[derive(Clone, Copy, Debug, PartialEq, Eq)]
pub struct Asking {
    number: u64,
    notices: u8,
}

impl Model for Asking {
    ghost use Rattle.std.specs.Prelude.{◌≤◌};
    ghost use Rattle.call_once.specs.Notices.{Waiting};
    ghost use Rattle.call_once.specs.declared.asking.TheConstants.{MOST_NOTICES};

    ghost Value = { Waiting };

    ghost view = { λ a. record { number = a.number; notices = a.notices } };

    ghost invariant = { λ a. a.notices ≤ MOST_NOTICES };

    ghost inverse = { λ w. record { number = w.number; notices = w.notices } };
}

impl Asking {
    /// A call of this number, of which nothing was noticed yet. Takes no memory.
    pub fn new(number: u64) -> Asking
        ensures { result ≡ record { number = number; notices = 0 } }
    {
        Asking { number, notices: 0 }
    }

    /// The number of the call. Takes no memory.
    pub fn number(&self) -> u64
        ensures { result ≡ self.now.number }
    {
        self.number
    }

    /// Whether an answer of this number is one to this call. Takes no memory.
    pub fn fits(&self, number: u64) -> bool
        ensures { IsTrue result ↔ (number ≡ self.now.number) }
    {
        number == self.number
    }

    /// One notice more, at which the request is sent again or the call is given up. Takes no memory.
    pub fn notice(&mut self) -> Noticed
        requires { self.old.notices < MOST_NOTICES }
        ensures counted { self.new ≡ record self.old { notices = self.old.notices + 1 } }
        ensures answer { result ≡ noticed self.new.notices }
    {
        self.notices += 1;
        if self.notices == MOST_NOTICES {
            Noticed::GiveUp
        } else {
            Noticed::Resend
        }
    }
}
