//! How nodes and processes are written, by the names of the nodes.
#![tactic(auto)]

ghost use Rattle.std.specs.Prelude.{◌≡◌, ◌≤◌, ◌+◌, ◌++◌, length, OnOk, OnErr};
ghost use Rattle.node_texts.specs.Texts.{node_text as text_of_node, process_text};

use arrayvec::ArrayVec;
use dom_history::NodeNames;
use uid_names::{ByteList, NoMemory, NodeId, ProcId};

/// How a node is written: its name, and nothing where it has none. Takes no memory.
pub fn node_text(names: &NodeNames, node: NodeId) -> &[u8]
    ensures { result.now ≡ text_of_node names.now node }
{
    match names.name(node) {
        Some(name) => name,
        None => b"",
    }
}

/// The most bytes that a process is written with: a name, a point and a digit.
const LONGEST: usize = 34;

/// Puts bytes behind those of a piece that has room for them.
fn put(piece: &mut ArrayVec<u8, LONGEST>, bytes: &[u8])
    requires { length piece.old.items + length bytes.now ≤ LONGEST }
    ensures items { piece.new.items ≡ piece.old.items ++ bytes.now }
    ensures len { length piece.new.items ≡ length piece.old.items + length bytes.now }
{
    if piece.try_extend_from_slice(bytes).is_err() {
        unreachable!()
    }
}

/// Puts a process behind a text: its node, a point and its number. Without memory the text stays as it was.
#[tactic(auto, using(crate::proofs::Short::name_short))]
pub fn put_process(text: &mut ByteList, names: &NodeNames, proc: ProcId) -> Result<(), NoMemory>
    ensures ok { OnOk result (text.new ≡ text.old ++ process_text names.now proc) }
    ensures err { OnErr result (text.new ≡ text.old) }
{
    let mut piece = ArrayVec::<u8, LONGEST>::new();
    let name = node_text(names, proc.node());
    let _texts = names.len();
    put(&mut piece, name);
    put(&mut piece, &[b'.', b'0' + proc.number()]);
    text.extend(piece.as_slice())
}
