//! Fields of a line. No function takes memory.
ghost use Rattle.std.specs.Prelude.{◌≡◌, ◌<◌, ◌^◌, ◌++◌, ◌∷◌, ℕ, decimal, IfSome};
ghost use Rattle.uid_names.specs.FrameKinds.{kind_name};
ghost use Rattle.uid_names.specs.Names.{IsName};
ghost use Rattle.uid_names.specs.Texts.{text_of};
ghost use Rattle.dom_history.specs.EndWords.{word_text};
ghost use Rattle.dom_history.specs.Ranges.{IsProcNumber};
ghost use Rattle.dom_text.specs.Numbers.{number_spelled};
ghost use Rattle.node_texts.specs.Texts.{node_text};
ghost use Rattle.journal_text.specs.Lines.{numbered_text};
ghost use Rattle.journal_text.specs.Walk.Fields.{number32_of, proc_of, node_of, uid_of, kind_of, end_of, numbered_of};
ghost use Rattle.journal_text.specs.Written.{IsCount, IsNode};

use dom_history::{EndWord, NodeNames};
use dom_text::{cut, decimal};
use uid_names::{FrameKind, NODE_PROCESSES, NodeId, Uid};

/// A number below 2^64.
pub(super) fn number(word: &[u8]) -> Option<u64>
    ensures value { result ≡ number_spelled word.now }
    ensures text { IfSome result (λ n. word.now ≡ decimal n) }
    ensures range { IfSome result IsCount }
{
    match decimal(word) {
        Ok(number) => Some(number),
        Err(_) => None,
    }
}

/// A number below 2^32.
#[tactic(auto, unfolding(crate::specs::Walk::Fields::number32_of))]
pub(super) fn number32(word: &[u8]) -> Option<u32>
    ensures value { result ≡ number32_of word.now }
    ensures text { IfSome result (λ n. word.now ≡ decimal n) }
    ensures range { IfSome result (λ n. n < 2 ^ 32) }
{
    let number = number(word)?;
    if number < 4_294_967_296 {
        Some(number as u32)
    } else {
        None
    }
}

/// The number of a process at its node.
#[tactic(auto, unfolding(crate::specs::Walk::Fields::proc_of))]
pub(super) fn proc(word: &[u8]) -> Option<u8>
    ensures value { result ≡ proc_of word.now }
    ensures text { IfSome result (λ p. word.now ≡ decimal p) }
    ensures range { IfSome result IsProcNumber }
{
    let number = number(word)?;
    if 1 <= number && number <= NODE_PROCESSES as u64 {
        Some(number as u8)
    } else {
        None
    }
}

/// The node of this name.
pub(super) fn node(names: &NodeNames, word: &[u8]) -> Option<NodeId>
    ensures value { result ≡ node_of names.now word.now }
    ensures text { IfSome result (λ node. word.now ≡ node_text names.now node) }
    ensures range { IfSome result (IsNode names.now) }
{
    // The names are those of nodes, each once.
    let _count = names.len();
    let node = names.number_of(word)?;
    let _number = node.number();
    Some(node)
}

/// The object of this name.
pub(super) fn uid(word: &[u8]) -> Option<Uid>
    ensures value { result ≡ uid_of word.now }
    ensures text { IfSome result (λ u. word.now ≡ text_of u) }
    ensures range { IfSome result IsName }
{
    match Uid::read(word) {
        Ok(uid) => {
            let _number = uid.number();
            Some(uid)
        }
        Err(_) => None,
    }
}

/// The kind of frame of this name.
#[tactic(auto, unfolding(crate::specs::Walk::Fields::kind_of))]
pub(super) fn kind(word: &[u8]) -> Option<FrameKind>
    ensures value { result ≡ kind_of word.now }
    ensures text { IfSome result (λ kind. word.now ≡ kind_name kind) }
{
    FrameKind::from_name(word)
}

/// How an operation ended, by its word.
#[tactic(auto, unfolding(crate::specs::Walk::Fields::end_of))]
pub(super) fn end_word(word: &[u8]) -> Option<EndWord>
    ensures value { result ≡ end_of word.now }
    ensures text { IfSome result (λ end. word.now ≡ word_text end) }
{
    EndWord::from_word(word)
}

/// A node, and a number behind it.
#[tactic(auto, unfolding(crate::specs::Walk::Fields::numbered_of))]
pub(super) fn numbered(names: &NodeNames, text: &[u8]) -> Option<(NodeId, u64)>
    ensures value { result ≡ numbered_of names.now text.now }
    ensures text { IfSome result (λ found. text.now ≡ numbered_text names.now found.0 found.1) }
    ensures node { IfSome result (λ found. IsNode names.now found.0) }
    ensures range { IfSome result (λ found. IsCount found.1) }
{
    let (name, digits) = cut(text, b' ')?;
    let node = node(names, name)?;
    let number = number(digits)?;
    Some((node, number))
}
