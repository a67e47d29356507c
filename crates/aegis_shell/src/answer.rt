//! How replies are written as answers.
ghost use Rattle.std.specs.Prelude.{◌≡◌, ◌++◌, ◌∷◌, [], codes, decimal, None, Some, IfOk};
ghost use Rattle.uid_names.specs.Modes.{mode_letter};
ghost use Rattle.uid_names.specs.Texts.{text_of as uid_text};
ghost use Rattle.dom_text.specs.Texts.{quoted_text};
ghost use Rattle.node_texts.specs.Texts.{process_text};
ghost use Rattle.aegis_shell.specs.AnswerTexts.{is_done as is_done_reply, together as reply_together, address_text, answer_text as text_of_answer};

use dom_history::{NodeNames, Reply};
use dom_text::{put_decimal, put_quoted};
use node_texts::put_process;
use std::alloc::Global;
use uid_names::{ByteList, Mode, NoMemory, ProcId, Uid};

/// Whether an operation with this reply was done.
pub fn is_done(reply: &Reply) -> bool
    ensures { result ≡ is_done_reply reply.now }
{
    match reply {
        Reply::Made(_)
        | Reply::Fine
        | Reply::Bytes(_)
        | Reply::Size(_)
        | Reply::At { .. }
        | Reply::Locks { .. } => true,
        _ => false,
    }
}

fn made(alloc: Global, uid: Uid) -> Result<ByteList, NoMemory>
    ensures { IfOk result (λ text. text ≡ codes "ok " ++ uid_text uid) }
{
    let mut text = ByteList::from_slice(alloc, b"ok ")?;
    text.extend(uid.text().as_slice())?;
    Ok(text)
}

/// `ok`, and bytes.
pub fn loaded(alloc: Global, bytes: &[u8]) -> Result<ByteList, NoMemory>
    ensures { IfOk result (λ text. text ≡ codes "ok " ++ quoted_text bytes.now) }
{
    let mut text = ByteList::from_slice(alloc, b"ok ")?;
    put_quoted(alloc, &mut text, bytes)?;
    Ok(text)
}

/// `ok`, and a number.
pub fn counted(alloc: Global, n: u64) -> Result<ByteList, NoMemory>
    ensures { IfOk result (λ text. text ≡ codes "ok " ++ decimal n) }
{
    let mut text = ByteList::from_slice(alloc, b"ok ")?;
    put_decimal(&mut text, n)?;
    Ok(text)
}

fn mapped(alloc: Global, address: u32) -> Result<ByteList, NoMemory>
    ensures { IfOk result (λ text. text ≡ codes "ok " ++ address_text address) }
{
    let mut digits = [0; 8];
    let Ok(()) = hex::encode_to_slice(address.to_be_bytes(), &mut digits) else {
        unreachable!()
    };
    let mut text = ByteList::from_slice(alloc, b"ok ")?;
    text.extend(digits.as_slice())?;
    Ok(text)
}

fn conflict(
    alloc: Global,
    names: &NodeNames,
    proc: ProcId,
    mode: Mode,
) -> Result<ByteList, NoMemory>
    ensures { IfOk result (λ text. text ≡ codes "conflict " ++ process_text names.now proc ++ codes " " ++ mode_letter mode ∷ []) }
{
    let mut text = ByteList::from_slice(alloc, b"conflict ")?;
    put_process(&mut text, names, proc)?;
    text.extend(b" ")?;
    text.push(mode.letter())?;
    Ok(text)
}

/// The answer that a reply is written as.
pub fn answer_text(alloc: Global, names: &NodeNames, reply: &Reply) -> Result<ByteList, NoMemory>
    ensures { IfOk result (λ text. text ≡ text_of_answer names.now reply.now) }
{
    let text: &[u8] = match reply {
        Reply::Made(uid) => return made(alloc, *uid),
        Reply::Bytes(bytes) => return loaded(alloc, bytes.bytes()),
        Reply::Size(n) => return counted(alloc, u64::from(*n)),
        Reply::At { address, fresh: _ } => return mapped(alloc, *address),
        Reply::Conflict(proc, mode) => return conflict(alloc, names, *proc, *mode),
        Reply::Fine | Reply::Locks { rows: _, more: _ } => b"ok",
        Reply::NoObject => b"no object",
        Reply::AlreadyHeld => b"already held",
        Reply::NotHeld => b"not held",
        Reply::Unsettled => b"unsettled",
        Reply::TooMany => b"too many locks",
        Reply::NoLock => b"no lock",
        Reply::WrongMode => b"wrong mode",
        Reply::PastRoom => b"past room",
        Reply::PastEnd => b"past end",
        Reply::NoSpace => b"no space",
        Reply::Kept => b"link fault, lock kept",
        Reply::Doubt => b"doubt",
        Reply::LinkFault => b"link fault",
        Reply::TooManyMaps => b"too many mappings",
        Reply::NoSegment => b"no segment",
        Reply::NotMapped => b"not mapped",
    };
    ByteList::from_slice(alloc, text)
}

/// What two operations of a command answer together.
pub fn together(alloc: Global, mut first: Reply, second: &Reply) -> Result<Reply, NoMemory>
    ensures { IfOk result (λ reply. reply ≡ reply_together first second.now) }
{
    if let Reply::Bytes(back) = second {
        if let Reply::Bytes(front) = &mut first {
            front.extend(back.bytes())?;
            return Ok(first);
        }
    }
    second.copy(alloc)
}
