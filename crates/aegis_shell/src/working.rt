//! The working directory of a process.
ghost use Rattle.std.specs.Prelude.{◌≡◌, ◌++◌, codes, IfOk};
ghost use Rattle.node_texts.specs.Texts.{node_text as text_of_node};
ghost use Rattle.aegis_shell.specs.Standing.{path_text};

use crate::work::Work;
use dom_history::NodeNames;
use node_texts::node_text;
use std::alloc::Global;
use uid_names::{ByteList, NoMemory, NodeId, Uid};

/// The counter of an entry directory.
const ENTRY_COUNTER: u64 = 1;

/// The working directory, and how it is written.
#[derive(Drop)]
pub struct Working {
    pub dir: Uid,
    pub text: ByteList,
}

/// The path of a node.
pub fn node_path(alloc: Global, names: &NodeNames, node: NodeId) -> Result<ByteList, NoMemory>
    ensures { IfOk result (λ text. text ≡ codes "//" ++ text_of_node names.now node) }
{
    let mut text = ByteList::from_slice(alloc, b"//")?;
    text.extend(node_text(names, node))?;
    Ok(text)
}

/// Two texts, one behind the other.
fn joined(alloc: Global, front: &[u8], back: &[u8]) -> Result<ByteList, NoMemory>
    ensures { IfOk result (λ text. text ≡ front.now ++ back.now) }
{
    let mut text = ByteList::from_slice(alloc, front)?;
    text.extend(back)?;
    Ok(text)
}

/// Two texts with a slash between them.
fn under(alloc: Global, front: &[u8], back: &[u8]) -> Result<ByteList, NoMemory>
    ensures { IfOk result (λ text. text ≡ front.now ++ codes "/" ++ back.now) }
{
    let mut text = joined(alloc, front, b"/")?;
    text.extend(back)?;
    Ok(text)
}

/// The text of the directory to which a path leads from a working directory; `own` is the path of the process's node.
fn text_behind(alloc: Global, own: &[u8], old: &[u8], path: &[u8]) -> Result<ByteList, NoMemory>
    ensures { IfOk result (λ text. text ≡ path_text own.now old.now path.now) }
{
    match path {
        [b'/'] => ByteList::from_slice(alloc, own),
        [b'/', b'/', ..] => ByteList::from_slice(alloc, path),
        [b'/', ..] => joined(alloc, own, path),
        _ => under(alloc, old, path),
    }
}

impl Working {
    ghost use Rattle.aegis_shell.specs.Standing.{first_working, text_at};

    /// The entry directory of a process's node.
    pub fn first(alloc: Global, work: &Work) -> Result<Working, NoMemory>
        ensures { IfOk result (λ working. working ≡ first_working work.now) }
    {
        Ok(Working {
            dir: Uid::from_parts(ENTRY_COUNTER, work.node()),
            text: node_path(alloc, work.names(), work.node())?,
        })
    }

    /// The text of the directory to which a path leads from this one.
    #[inline(never)]
    pub fn text_at(&self, alloc: Global, work: &Work, path: &[u8]) -> Result<ByteList, NoMemory>
        ensures { IfOk result (λ text. text ≡ text_at work.now self.now path.now) }
    {
        let own = node_path(alloc, work.names(), work.node())?;
        text_behind(alloc, own.bytes(), self.text.bytes(), path)
    }
}
