//! The words of commands in the source of a script.
ghost use Rattle.std.specs.Prelude.{◌≡◌, ◌<◌, ◌++◌, ◌∷◌, length, Option, Some, None, IfOk, OnOk, option_copied, map};
ghost use Rattle.std.specs.Option.{option_map};
ghost use Rattle.std.specs.List.{flat_map};
ghost use Rattle.dom_text.specs.Lent.{owned, owned_token};
ghost use Rattle.dom_text.specs.Spelled.{spelling, line_of};
ghost use Rattle.dom_text.specs.Tokens.{tokens_of};
ghost use Rattle.script_reader.specs.Grammar.{raw_lines, without_cr as without_cr_of};
ghost use Rattle.event_views.specs.CommandWords.{behind_word, words_on as words_on_line, words_of as words_of_process};

use dom_text::{TextFault, TokenRef, cut, lend_tokens, put_quoted};
use std::alloc::Global;
use uid_names::{ByteList, ItemList, NoMemory};

/// The first line, without its LF, and the bytes behind it.
fn cut_line(bytes: &[u8]) -> (&[u8], &[u8])
    requires { 0 < length bytes.now }
    ensures lines { raw_lines bytes.now ≡ result.0.now ∷ raw_lines result.1.now }
    ensures shorter { length result.1.now < length bytes.now }
{
    match cut(bytes, b'\n') {
        Some((line, rest)) => (line, rest),
        None => (bytes, &bytes[bytes.len()..]),
    }
}

/// A line without a CR at its end.
fn without_cr(line: &[u8]) -> &[u8]
    ensures { result.now ≡ without_cr_of line.now }
{
    match line.strip_suffix(b"\r") {
        Some(before) => before,
        None => line,
    }
}

/// The tokens behind the first one, if that is this word.
fn behind<'a, 'b>(word: &[u8], tokens: &'a [TokenRef<'b>]) -> Option<&'a [TokenRef<'b>]>
    ensures { option_map (λ rest. owned rest.now) result ≡ behind_word word.now (owned tokens.now) }
{
    let Some((first, rest)) = tokens.split_first() else {
        return None;
    };
    match first {
        TokenRef::Word(first) if *first == word => Some(rest),
        _ => None,
    }
}

/// Puts a token as it is written.
fn put_token(alloc: Global, to: &mut ByteList, token: &TokenRef<'_>) -> Result<(), NoMemory>
    ensures { OnOk result (to.new ≡ to.old ++ spelling (owned_token token.now)) }
{
    match token {
        TokenRef::Word(word) => to.extend(word),
        TokenRef::Plain(text) => put_quoted(alloc, to, text),
        TokenRef::Text(text) => put_quoted(alloc, to, text.bytes()),
    }
}

/// Puts tokens as they are written, each behind a space.
fn put_behind(alloc: Global, to: &mut ByteList, tokens: &[TokenRef<'_>]) -> Result<(), NoMemory>
    ensures { OnOk result (to.new ≡ to.old ++ flat_map (λ token. 32 ∷ spelling (owned_token token)) tokens.now) }
{
    for token in tokens {
        to.extend(b" ")?;
        put_token(alloc, to, token)?;
    }
    Ok(())
}

/// Tokens as they are written, one space apart.
fn spelled(alloc: Global, tokens: &[TokenRef<'_>]) -> Result<ByteList, NoMemory>
    ensures { IfOk result (λ text. text ≡ line_of (owned tokens.now)) }
{
    let mut text = ByteList::new(alloc);
    let Some((first, rest)) = tokens.split_first() else {
        return Ok(text);
    };
    put_token(alloc, &mut text, first)?;
    put_behind(alloc, &mut text, rest)?;
    Ok(text)
}

/// What a line says behind the name of a process, if it begins with that. The list is any, whose memory is used again for the line's tokens.
fn words_on<'a>(
    tokens: &mut Vec<TokenRef<'a>>,
    alloc: Global,
    process: &[u8],
    line: &'a [u8],
) -> Result<Option<ByteList>, NoMemory>
    ensures { IfOk result (λ words. words ≡ words_on_line process.now line.now) }
{
    match lend_tokens(tokens, alloc, without_cr(line)) {
        Ok(()) => {}
        Err(TextFault::NoMemory) => return Err(NoMemory),
        Err(TextFault::Byte | TextFault::Quote) => return Ok(None),
    }
    match behind(process, tokens.as_slice()) {
        Some(rest) => Ok(Some(spelled(alloc, rest)?)),
        None => Ok(None),
    }
}

/// The words of the commands of a process, which is named as a script names it: of each line of the source that begins with that name, what
/// stands behind it, without its comment, its tokens one space apart and each text in its shortest form.
pub fn words_of(
    alloc: Global,
    source: &[u8],
    process: &[u8],
) -> Result<ItemList<ByteList>, NoMemory>
    ensures { IfOk result (λ words. words ≡ words_of_process process.now source.now) }
{
    let mut words = ItemList::new(alloc);
    let mut tokens = Vec::new(alloc);
    let mut rest = source;
    while !rest.is_empty() {
        let (line, behind) = cut_line(rest);
        if let Some(said) = words_on(&mut tokens, alloc, process, line)? {
            words.push(said)?;
        }
        rest = behind;
    }
    Ok(words)
}
