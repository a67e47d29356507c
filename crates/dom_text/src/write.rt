//! Writes numbers and quoted texts behind a list of bytes.
ghost use Rattle.std.specs.Prelude.{◌≡◌, ◌<◌, ◌++◌, decimal, IfOk, OnOk, OnErr};
ghost use Rattle.dom_text.specs.Texts.{escaped, hex_digit as hex_digit_of, quoted_text};

use itoa::Buffer;
use std::alloc::Global;
use uid_names::{ByteList, NoMemory};

/// Puts a number last, in decimal digits. Without memory the list stays as it was.
pub fn put_decimal(to: &mut ByteList, n: u64) -> Result<(), NoMemory>
    ensures ok { OnOk result (to.new ≡ to.old ++ decimal n) }
    ensures err { OnErr result (to.new ≡ to.old) }
{
    let mut buffer = Buffer::new();
    to.extend(buffer.format(n).as_bytes())
}

/// Puts bytes last, as a quoted text. Without memory the list stays as it was.
pub fn put_quoted(alloc: Global, to: &mut ByteList, bytes: &[u8]) -> Result<(), NoMemory>
    ensures ok { OnOk result (to.new ≡ to.old ++ quoted_text bytes.now) }
    ensures err { OnErr result (to.new ≡ to.old) }
{
    let text = quoted(alloc, bytes)?;
    to.extend(text.bytes())
}

/// Bytes as a quoted text.
fn quoted(alloc: Global, bytes: &[u8]) -> Result<ByteList, NoMemory>
    ensures { IfOk result (λ text. text ≡ quoted_text bytes.now) }
{
    let mut text = ByteList::from_slice(alloc, b"\"")?;
    for &b in bytes {
        put_escaped(&mut text, b)?;
    }
    text.extend(b"\"")?;
    Ok(text)
}

fn put_escaped(to: &mut ByteList, b: u8) -> Result<(), NoMemory>
    ensures { OnOk result (to.new ≡ to.old ++ escaped b) }
{
    match b {
        b'"' => to.extend(b"\\\""),
        b'\\' => to.extend(b"\\\\"),
        b'\n' => to.extend(b"\\n"),
        32..=126 => to.extend(&[b]),
        _ => to.extend(&[b'\\', b'x', hex_digit(b / 16), hex_digit(b % 16)]),
    }
}

fn hex_digit(d: u8) -> u8
    requires { d < 16 }
    ensures { result ≡ hex_digit_of d }
{
    if d < 10 { b'0' + d } else { b'a' - 10 + d }
}
