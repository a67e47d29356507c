use dom_text::{
    BadNumber, TextFault, Token, TokenRef, decimal, hex8, lend_tokens, put_decimal, put_quoted,
    tokens,
};
use std::alloc::Global;
use std::process::Abort;
use std::test::Fail;
use uid_names::{ByteList, NoMemory};

/// A line, and what is shown of it: its words in angle brackets and its texts in square ones, or the fault's name.
type Row = (&'static [u8], &'static [u8]);

/// The tokens of a line as a row shows them.
fn shown(alloc: Global, line: &[u8]) -> Result<ByteList, NoMemory> {
    match tokens(alloc, line) {
        Ok(found) => shown_tokens(alloc, found.items()),
        Err(fault) => name_of(alloc, fault),
    }
}

fn shown_tokens(alloc: Global, list: &[Token]) -> Result<ByteList, NoMemory> {
    let mut text = ByteList::new(alloc);
    for token in list {
        put_token(&mut text, token)?;
    }
    Ok(text)
}

fn put_token(to: &mut ByteList, token: &Token) -> Result<(), NoMemory> {
    match token {
        Token::Word(word) => put_between(to, b"<", word.bytes(), b">"),
        Token::Text(bytes) => put_between(to, b"[", bytes.bytes(), b"]"),
    }
}

/// The tokens of a line as a row shows them, put into a list whose words are lent.
fn shown_lent<'a>(
    alloc: Global,
    list: &mut Vec<TokenRef<'a>>,
    line: &'a [u8],
) -> Result<ByteList, NoMemory> {
    match lend_tokens(list, alloc, line) {
        Ok(()) => shown_refs(alloc, list.as_slice()),
        Err(fault) => name_of(alloc, fault),
    }
}

fn shown_refs(alloc: Global, list: &[TokenRef<'_>]) -> Result<ByteList, NoMemory> {
    let mut text = ByteList::new(alloc);
    for token in list {
        put_ref(&mut text, token)?;
    }
    Ok(text)
}

fn put_ref(to: &mut ByteList, token: &TokenRef<'_>) -> Result<(), NoMemory> {
    match token {
        TokenRef::Word(word) => put_between(to, b"<", *word, b">"),
        TokenRef::Plain(bytes) => put_between(to, b"[", *bytes, b"]"),
        TokenRef::Text(bytes) => put_between(to, b"[", bytes.bytes(), b"]"),
    }
}

fn put_between(
    to: &mut ByteList,
    before: &[u8],
    bytes: &[u8],
    behind: &[u8],
) -> Result<(), NoMemory> {
    to.extend(before)?;
    to.extend(bytes)?;
    to.extend(behind)
}

fn name_of(alloc: Global, fault: TextFault) -> Result<ByteList, NoMemory> {
    let name = match fault {
        TextFault::Byte => "byte",
        TextFault::Quote => "quote",
        TextFault::NoMemory => "no memory",
    };
    ByteList::from_slice(alloc, name.as_bytes())
}

/// What is shown of a line is what a row says.
fn compare(rt: &impl Abort, line: &[u8], text: &ByteList, expected: &[u8]) {
    assert!(rt; text.bytes() == expected, "{line:?}");
}

/// Lines that are cut into tokens.
const LINES: [Row; 14] = [
    (b"", b""),
    (b" \t ", b""),
    (b"node a", b"<node><a>"),
    (b"\ta.1  store x\t0 \"hi\" ", b"<a.1><store><x><0>[hi]"),
    (b"# all of it \x01 \"", b""),
    (b"a #b c", b"<a>"),
    (b"a#b c", b"<a#b><c>"),
    (b"\"#\" a", b"[#]<a>"),
    (b"\"\"", b"[]"),
    (b"\"a b\" \"c\"", b"[a b][c]"),
    (b"\"\\\"\\\\\\n\"", b"[\"\\\n]"),
    (b"\"\\x41\\x00\\xff\\x22\"", b"[A\x00\xff\"]"),
    (b"\\x41 ~!", b"<\\x41><~!>"),
    (b"\"hi\"\t#x", b"[hi]"),
];

#[test]
fn lines_are_cut_into_tokens(rt: HostRuntime) -> Result<(), Fail> {
    for (line, expected) in LINES {
        let text = shown(rt.alloc(), line)?;
        compare(&rt, line, &text, expected);
    }
    Ok(())
}

/// Lines that are put into one list in turn.
const IN_TURN: [Row; 4] = [
    (b"a.1 store x 0 \"h\\n\"", b"<a.1><store><x><0>[h\n]"),
    (b"phase # b", b"<phase>"),
    (b"a b\x01", b"byte"),
    (b"", b""),
];

#[test]
fn one_list_is_filled_by_line_after_line(rt: HostRuntime) -> Result<(), Fail> {
    let mut list = Vec::new(rt.alloc());
    for (line, expected) in IN_TURN {
        let text = shown_lent(rt.alloc(), &mut list, line)?;
        compare(&rt, line, &text, expected);
    }
    Ok(())
}

/// Lines that have no tokens.
const FAULTS: [Row; 24] = [
    (b"a\x7f", b"byte"),
    (b"\x80", b"byte"),
    (b"a \x00", b"byte"),
    (b"a\"b\"", b"quote"),
    (b"a\" \x01", b"quote"),
    (b"a\x01 \"", b"byte"),
    (b"\"ab", b"quote"),
    (b"\"", b"quote"),
    (b"\"a\tb\"", b"quote"),
    (b"\"a\x01", b"byte"),
    (b"\"a\nb\"", b"byte"),
    (b"\"\\", b"quote"),
    (b"\"\\t\"", b"quote"),
    (b"\"\\\t\"", b"quote"),
    (b"\"\\\x01\"", b"byte"),
    (b"\"\\x0A\"", b"quote"),
    (b"\"\\X0a\"", b"quote"),
    (b"\"\\x0", b"quote"),
    (b"\"\\x", b"quote"),
    (b"\"\\x\x02\"", b"byte"),
    (b"\"\\x0\x02\"", b"byte"),
    (b"\"hi\"x", b"quote"),
    (b"\"hi\"\"x\"", b"quote"),
    (b"\"hi\"\x02", b"byte"),
];

#[test]
fn the_first_fault_from_the_left_decides(rt: HostRuntime) -> Result<(), Fail> {
    for (line, expected) in FAULTS {
        let text = shown(rt.alloc(), line)?;
        compare(&rt, line, &text, expected);
    }
    Ok(())
}

/// Words, and the numbers that they spell.
const NUMBERS: [(&[u8], Result<u64, BadNumber>); 12] = [
    (b"0", Ok(0)),
    (b"7", Ok(7)),
    (b"10", Ok(10)),
    (b"18446744073709551615", Ok(u64::MAX)),
    (b"18446744073709551616", Err(BadNumber)),
    (b"99999999999999999999999", Err(BadNumber)),
    (b"", Err(BadNumber)),
    (b"00", Err(BadNumber)),
    (b"07", Err(BadNumber)),
    (b"+7", Err(BadNumber)),
    (b"-0", Err(BadNumber)),
    (b"7 ", Err(BadNumber)),
];

#[test]
fn numbers_are_read_by_their_grammar(rt: HostRuntime) {
    for (word, expected) in NUMBERS {
        assert!(rt; decimal(word) == expected, "{word:?}");
    }
}

/// Words, and the addresses that they spell.
const ADDRESSES: [(&[u8], Result<u32, BadNumber>); 8] = [
    (b"00000000", Ok(0)),
    (b"0000800a", Ok(0x800a)),
    (b"ffffffff", Ok(u32::MAX)),
    (b"0000800A", Err(BadNumber)),
    (b"000800a", Err(BadNumber)),
    (b"00000800a", Err(BadNumber)),
    (b"0x00800a", Err(BadNumber)),
    (b"0000800g", Err(BadNumber)),
];

#[test]
fn addresses_are_read_by_their_grammar(rt: HostRuntime) {
    for (word, expected) in ADDRESSES {
        assert!(rt; hex8(word) == expected, "{word:?}");
    }
}

#[test]
fn numbers_are_printed(rt: HostRuntime) -> Result<(), Fail> {
    let mut text = ByteList::from_slice(rt.alloc(), b"ok ")?;
    put_decimal(&mut text, u64::MAX)?;
    assert!(rt; text.bytes() == b"ok 18446744073709551615".as_slice());
    Ok(())
}

/// A text printed behind other bytes.
fn quoted(alloc: Global, before: &[u8], bytes: &[u8]) -> Result<ByteList, NoMemory> {
    let mut text = ByteList::from_slice(alloc, before)?;
    put_quoted(alloc, &mut text, bytes)?;
    Ok(text)
}

#[test]
fn texts_are_printed(rt: HostRuntime) -> Result<(), Fail> {
    let text = quoted(rt.alloc(), b"ok ", b"\x00z")?;
    assert!(rt; text.bytes() == b"ok \"\\x00z\"".as_slice());
    Ok(())
}

#[test]
fn bytes_that_are_not_plain_are_printed_by_their_numbers(rt: HostRuntime) -> Result<(), Fail> {
    let text = quoted(rt.alloc(), b"", b"a\"\\\n\t ~\x7f\xff")?;
    assert!(rt; text.bytes() == b"\"a\\\"\\\\\\n\\x09 ~\\x7f\\xff\"".as_slice());
    Ok(())
}
