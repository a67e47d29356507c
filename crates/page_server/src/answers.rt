//! Answers of a home.
ghost use Rattle.std.specs.Prelude.{◌≡◌, ℕ, IfOk, OnErr, IsTrue};
ghost use Rattle.ring_messages.specs.Bodies.{body_of_answer, copy_wants};
ghost use Rattle.ring_messages.specs.Ranges.{IsBody};
ghost use Rattle.page_server.specs.Answers.{answer_in, IsAnswer};

use ring_messages::Body;
use std::alloc::Global;
use std::marker::Model;
use uid_names::NoMemory;

/// An answer of a home: a body that answers, in its ranges.
#[derive(Drop, Debug)]
pub(crate) struct HomeAnswer {
    body: Body,
}

impl Model for HomeAnswer {
    ghost use Rattle.ring_messages.specs.Bodies.{Answer};
    ghost use Rattle.page_server.specs.Answers.{answer_code, answer_in, IsAnswer};

    ghost Value = { Answer };

    ghost coded = { answer_code };

    ghost view = { λ a. answer_in a.body };

    ghost invariant = { λ a. IsAnswer a.body };
}

impl HomeAnswer {
    /// What this body answers.
    pub(crate) fn new(body: Body) -> HomeAnswer
        requires { IsAnswer body }
        ensures { result ≡ answer_in body }
    {
        HomeAnswer { body }
    }

    /// A copy. Only that of a page or of a list of locks takes memory.
    pub(crate) fn copy(&self, alloc: Global) -> Result<HomeAnswer, NoMemory>
        ensures copy { IfOk result (λ copy. copy ≡ self.now) }
        ensures memory { OnErr result (IsTrue (copy_wants (body_of_answer self.now))) }
    {
        let body = self.body.copy(alloc)?;
        Ok(HomeAnswer { body })
    }

    /// The body that answers.
    pub(crate) fn into_body(self) -> Body
        ensures value { result ≡ body_of_answer self }
        ensures ranges { (to : ℕ) → IsBody to result }
    {
        self.body
    }
}
