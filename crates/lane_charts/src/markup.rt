//! What the markup of a picture is made of.
ghost use Rattle.std.specs.Prelude.{◌≡◌, ◌++◌, OnOk};
ghost use Rattle.lane_charts.specs.Markup.{attribute, point_at, titled, words};

use crate::escape::put_escaped;
use dom_text::put_decimal;
use uid_names::{ByteList, NoMemory};

/// Puts a number last as an attribute of this name.
#[tactic(auto, unfolding(crate::specs::Markup::attribute))]
pub(crate) fn put_attribute(to: &mut ByteList, name: &[u8], n: u64) -> Result<(), NoMemory>
    ensures { OnOk result (to.new ≡ to.old ++ attribute name.now n) }
{
    to.extend(b" ")?;
    to.extend(name)?;
    to.extend(b"=\"")?;
    put_decimal(to, n)?;
    to.extend(b"\"")
}

/// Puts a place last.
#[tactic(auto, unfolding(crate::specs::Markup::point_at))]
pub(crate) fn put_point(to: &mut ByteList, x: u64, y: u64) -> Result<(), NoMemory>
    ensures { OnOk result (to.new ≡ to.old ++ point_at x y) }
{
    put_decimal(to, x)?;
    to.extend(b" ")?;
    put_decimal(to, y)
}

/// Puts a title last, which is shown where its group is pointed at.
#[tactic(auto, unfolding(crate::specs::Markup::titled))]
pub(crate) fn put_title(to: &mut ByteList, text: &[u8]) -> Result<(), NoMemory>
    ensures { OnOk result (to.new ≡ to.old ++ titled text.now) }
{
    to.extend(b"<title>")?;
    put_escaped(to, text)?;
    to.extend(b"</title>")
}

/// Puts a text of a class last.
#[tactic(auto, unfolding(crate::specs::Markup::words))]
pub(crate) fn put_words(
    to: &mut ByteList,
    class: &[u8],
    x: u64,
    y: u64,
    text: &[u8],
) -> Result<(), NoMemory>
    ensures { OnOk result (to.new ≡ to.old ++ words class.now x y text.now) }
{
    to.extend(b"<text class=\"")?;
    to.extend(class)?;
    to.extend(b"\"")?;
    put_attribute(to, b"x", x)?;
    put_attribute(to, b"y", y)?;
    to.extend(b">")?;
    put_escaped(to, text)?;
    to.extend(b"</text>")
}
