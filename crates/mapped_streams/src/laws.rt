//! Laws of streams. Each stands on a function without a body, so that the check proves it.
ghost use Rattle.std.specs.Prelude.{◌≡◌, ◌++◌, ℕ, length, List, Option, Some};
ghost use Rattle.uid_names.specs.Names.{ObjectName};
ghost use Rattle.dom_history.specs.declared.op.Op.{Op};
ghost use Rattle.dom_history.specs.declared.op.Reply.{Reply};
ghost use Rattle.dom_history.specs.Fitting.{Fits};
ghost use Rattle.dom_history.specs.Mappings.{Mapping};
ghost use Rattle.naming_tree.specs.declared.step.Step.TheVariants.{Do};
ghost use Rattle.mapped_streams.specs.declared.step.StreamResult.TheVariants.{Bytes, Count};
ghost use Rattle.mapped_streams.specs.Dialogues.{Dialogue, says, after, FitsHeard, MayHear, said_to, left_after, machine_says};
ghost use Rattle.mapped_streams.specs.Gathering.{lines};
ghost use Rattle.mapped_streams.specs.Streams.{read_all, count_lines, append, copy};
ghost use Rattle.mapped_streams.specs.Served.{Asker, holds, source, ComesTo, Leaves, HasRoomFor, IsCopied};

/// A machine says what its dialogue says after all that it heard.
#[tactic(auto, using(naming_tree::proofs::Standing::machine_heard))]
pub fn machines_go_by_all_they_heard()
    ensures { (d : Dialogue) (heard : List Reply) → FitsHeard d heard → machine_says d heard ≡ Some (says (after d heard)) }
{}

/// One that said an operation may be told each reply that fits it.
pub fn machines_take_each_reply_that_fits()
    ensures { (m : Option Dialogue) (last : Option Reply) (op : Op) (reply : Reply) → Some (Do op) ≡ said_to m last → Fits op reply → MayHear (left_after m last) (Some reply) }
{}

/// Where one store refuses nothing, an object is read whole.
pub fn objects_are_read_whole()
    ensures { (a : Asker) (u : ObjectName) → ComesTo a (read_all u) (Bytes (holds a u)) }
{}

/// And all its lines are counted.
pub fn all_lines_are_counted()
    ensures { (a : Asker) (u : ObjectName) → ComesTo a (count_lines u) (Count (lines (holds a u))) }
{}

/// A text for which there is room is put behind what an object held.
pub fn texts_are_put_behind()
    ensures { (a : Asker) (u : ObjectName) (text : List ℕ) → HasRoomFor a u (length text) → Leaves a (append u text) u (holds a u ++ text) }
{}

/// An object that was empty, and has room for it, holds what the source of a copy holds, which its process has mapped.
pub fn copies_hold_what_their_sources_hold()
    ensures { (a : Asker) (from to : ObjectName) (m : Mapping) → IsCopied a from to m → Leaves a (copy (source a m) to) to (holds a from) }
{}
