//! How texts are written in pictures. It stands here alone.
ghost use Rattle.std.specs.Prelude.{◌≡◌, ◌++◌, false, IfOk, OnOk};
ghost use Rattle.lane_charts.specs.Escapes.{escape, escaped_text, unnamed};

use dom_text::put_decimal;
use std::alloc::Global;
use uid_names::{ByteList, NoMemory};

/// A text as SVG wants it: `&`, `<`, `>`, `"` and `'` by their names, and each byte that is no printed ASCII by the sign U+2400
/// and so many above it, which for control bytes are their pictures.
pub fn escaped(alloc: Global, text: &[u8]) -> Result<ByteList, NoMemory>
    ensures { IfOk result (λ written. written ≡ escaped_text text.now) }
{
    let mut written = ByteList::new(alloc);
    put_escaped(&mut written, text)?;
    Ok(written)
}

/// Puts a text last, as SVG wants it.
pub(crate) fn put_escaped(to: &mut ByteList, text: &[u8]) -> Result<(), NoMemory>
    ensures { OnOk result (to.new ≡ to.old ++ escaped_text text.now) }
{
    for byte in text {
        put_byte(to, *byte)?;
    }
    Ok(())
}

fn put_byte(to: &mut ByteList, byte: u8) -> Result<(), NoMemory>
    ensures { OnOk result (to.new ≡ to.old ++ escape byte) }
{
    match byte {
        b'&' => to.extend(b"&amp;"),
        b'<' => to.extend(b"&lt;"),
        b'>' => to.extend(b"&gt;"),
        b'"' => to.extend(b"&quot;"),
        b'\'' => to.extend(b"&apos;"),
        b' '..=b'~' => to.push(byte),
        _ => put_sign(to, byte),
    }
}

/// The sign of a byte that is not seen.
fn put_sign(to: &mut ByteList, byte: u8) -> Result<(), NoMemory>
    ensures { OnOk result (to.new ≡ to.old ++ unnamed false byte) }
{
    to.extend(b"&#")?;
    put_decimal(to, 0x2400 + byte as u64)?;
    to.extend(b";")
}
