//! Where the source of `check` is parted.
ghost use Rattle.std.specs.Prelude.{◌≡◌, ◌≤◌, length, IfSome, MatchOption};
ghost use Rattle.script_reader.specs.Grammar.{raw_lines};
ghost use Rattle.script_runner.specs.Parted.{bytes_before as before_of, IsParted, LacksParting};

use dom_text::cut;

/// The line between a script and its journal.
const PARTING: &[u8; 11] = b"--- journal";

/// How many bytes stand in front of the first line that parts; None where none does.
fn bytes_before(bytes: &[u8]) -> Option<usize>
    ensures place { result ≡ before_of (raw_lines bytes.now) }
    ensures within { IfSome result (λ at. at ≤ length bytes.now) }
{
    let mut at = 0;
    let mut rest = bytes;
    while let Some((line, behind)) = cut(rest, b'\n') {
        if line == PARTING.as_slice() {
            return Some(at);
        }
        at += line.len() + 1;
        rest = behind;
    }
    if rest == PARTING.as_slice() {
        return Some(at);
    }
    None
}

/// The bytes in front of the first line `--- journal`, and those behind it; None where no line is that. Takes no memory.
pub fn parted(bytes: &[u8]) -> Option<(&[u8], &[u8])>
    ensures { MatchOption result (LacksParting bytes.now) (λ parts. IsParted bytes.now parts.0.now parts.1.now) }
{
    let at = bytes_before(bytes)?;
    let behind = at + PARTING.len() + 1;
    Some((&bytes[..at], &bytes[behind.min(bytes.len())..]))
}
