//! Laws of mailboxes. Each stands on a function without a body, so that the check proves it.
ghost use Rattle.std.specs.Prelude.{◌≡◌, ◌<◌, ◌+◌, ◌-◌, ◌^◌, ℕ, false, Option, Some, None, List, [], ◌∷◌, length, take, ◌↔◌, nat_le, ◌&&◌};
ghost use Rattle.std.specs.Int.{w16, from_be_bytes};
ghost use Rattle.uid_names.specs.Names.{ObjectName};
ghost use Rattle.uid_names.specs.Openings.{Start};
ghost use Rattle.dom_history.specs.declared.op.Op.{Op};
ghost use Rattle.dom_history.specs.declared.op.Reply.{Reply};
ghost use Rattle.dom_history.specs.Bytes.{length_of};
ghost use Rattle.dom_history.specs.Fitting.{Fits};
ghost use Rattle.dom_history.specs.StoreEffects.{StoreEffect};
ghost use Rattle.naming_tree.specs.declared.step.Step.TheVariants.{Do};
ghost use Rattle.mail_box.specs.Boxes.{first_head, head_bytes, head_of, is_bad_head, message_bytes, text_in, IsText};
ghost use Rattle.mail_box.specs.Contents.{Holds};
ghost use Rattle.mail_box.specs.Dialogues.{Dialogue, after, left_after, machine_says, said_to, says, FitsHeard, MayHear};
ghost use Rattle.mail_box.specs.Queues.{IsGood, PutsLast, TakesFirst};
ghost use Rattle.mail_box.specs.declared.boxes.Head.{Head};

/// A machine says what its dialogue says after all that it heard.
#[tactic(auto, using(naming_tree::proofs::Standing::machine_heard))]
pub fn machines_go_by_all_they_heard()
    ensures { (d : Dialogue) (heard : List Reply) → FitsHeard d heard → machine_says d heard ≡ Some (says (after d heard)) }
{}

/// One that said an operation may be told each reply that fits it.
pub fn machines_take_each_reply_that_fits()
    ensures { (m : Option Dialogue) (last : Option Reply) (op : Op) (reply : Reply) → Some (Do op) ≡ said_to m last → Fits op reply → MayHear (left_after m last) (Some reply) }
{}

/// Numbers and texts that are written are read again.
#[tactic(auto, using(crate::proofs::Bytes::numbers_read, crate::proofs::Bytes::text_read))]
pub fn what_is_written_is_read_again()
    ensures numbers { (h : Head) → h.put < 2 ^ 64 → h.taken < 2 ^ 64 → head_of (head_bytes h) ≡ h }
    ensures text { (text : List ℕ) → IsText text → text_in (message_bytes text) ≡ Some text }
{}

/// Which bytes are bad: numbers of which more are taken than put, of which no more can be put, or with more between than have a place; and a
/// message whose length is no text's.
pub fn bad_bytes_are_these()
    ensures numbers { (h : Head) → (is_bad_head h ≡ false) ↔ IsGood h }
    ensures message { (bytes : List ℕ) → (text_in bytes ≡ None) ↔ ((nat_le 1 (from_be_bytes w16 (take 2 bytes)) && nat_le (from_be_bytes w16 (take 2 bytes)) 120) ≡ false) }
{}

/// An object without a byte holds nothing. A text for which there is a place is put behind those that a mailbox holds, and the first is taken, once:
/// then it holds those behind it.
pub fn what_is_put_first_is_taken_first()
    ensures nothing { (opening : Start) (past : List StoreEffect) (u : ObjectName) → length_of opening past u ≡ 0 → Holds opening past u first_head [] }
    ensures put { (opening : Start) (past : List StoreEffect) (u : ObjectName) → PutsLast opening past u }
    ensures taken { (opening : Start) (past : List StoreEffect) (u : ObjectName) → TakesFirst opening past u }
{}
