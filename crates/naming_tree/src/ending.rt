//! How machines that have opened a directory come to their end.
ghost use Rattle.std.specs.Prelude.{◌≡◌, IfOk, OnOk, IfNone, IsSome, Some, None};
ghost use Rattle.dom_history.specs.Ranges.{IsOp};
ghost use Rattle.naming_tree.specs.Entering.{op_of_closing};
ghost use Rattle.naming_tree.specs.Endings.{no_ending, refused_with, decided as decided_on, completed as completed_with, ending_after, result_of, IsEnding};

use crate::session::{Closing, Held, Opened};
use crate::step::NameResult;
use dom_history::{Op, Reply};
use std::alloc::Global;
use uid_names::NoMemory;

/// What is closed, and the result, unless a refusal counted.
#[derive(Drop)]
pub struct Ending {
    pub closing: Closing,
    pub result: Option<NameResult>,
}

impl Ending {
    /// Nothing is closed yet.
    pub fn none() -> Ending
        ensures { result ≡ no_ending }
    {
        Ending {
            closing: Closing::none(),
            result: None,
        }
    }

    /// What is held is closed behind a refusal.
    pub fn refused(alloc: Global, held: Option<Held>, reply: &Reply) -> Result<Ending, NoMemory>
        ensures { IfOk result (λ ending. ending ≡ refused_with held reply.now) }
    {
        let refused = Some(reply.copy(alloc)?);
        Ok(Ending {
            closing: Closing {
                held,
                counts: false,
                refused,
            },
            result: None,
        })
    }

    /// What is open is closed, and the result stays.
    pub fn decided(opened: &Opened, come: NameResult) -> Ending
        ensures { result ≡ decided_on opened.now come }
    {
        Ending {
            closing: Closing {
                held: Some(opened.held()),
                counts: false,
                refused: None,
            },
            result: Some(come),
        }
    }

    /// What is open is closed, and the result stays unless that is refused.
    pub fn completed(opened: &Opened, come: NameResult) -> Ending
        ensures { result ≡ completed_with opened.now come }
    {
        Ending {
            closing: Closing {
                held: Some(opened.held()),
                counts: true,
                refused: None,
            },
            result: Some(come),
        }
    }

    /// Takes in the reply to its operation.
    pub fn hear(&mut self, alloc: Global, reply: &Reply) -> Result<(), NoMemory>
        ensures { OnOk result (self.new ≡ ending_after self.old reply.now) }
    {
        self.closing.hear(alloc, reply)
    }

    /// The result, once all is closed.
    pub fn take_result(&mut self) -> Option<NameResult>
        ensures value { result ≡ result_of self.old }
        ensures kept { IfNone result (self.new ≡ self.old) }
    {
        if self.closing.held.is_some() {
            return None;
        }
        match self.closing.refused.take() {
            Some(reply) => Some(NameResult::Store(reply)),
            None => self.result.take(),
        }
    }
}
