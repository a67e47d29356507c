//! Laws of charts. Each stands on a function without a body, so that the check proves it.
ghost use Rattle.std.specs.Prelude.{◌≡◌, ◌+◌, ◌*◌, ◌<◌, ◌≤◌, ℕ, true, List, All, IsTrue, length};
ghost use Rattle.lane_charts.specs.Escapes.{escaped_text};
ghost use Rattle.lane_charts.specs.Heads.{is_headed};
ghost use Rattle.lane_charts.specs.Layout.{fitting, line_of, sent_at};
ghost use Rattle.lane_charts.specs.Readings.{is_plain, read_again};
ghost use Rattle.lane_charts.specs.declared.chart.Arrow.{Arrow};

/// No byte of markup is left in a text that was written for a picture, and read again it is the same.
pub fn texts_in_pictures_are_read_again()
    ensures plain { (text : List ℕ) → All (λ b. b < 256) text → All (λ b. IsTrue (is_plain b)) (escaped_text text) }
    ensures again { (text : List ℕ) → All (λ b. b < 256) text → read_again (escaped_text text) ≡ text }
{}

/// The labels of rows and of their arrows stand in lines apart: behind the line of a row come those of the arrows that it sends, all above
/// the next row, and above the names of the lanes where these stand once more; and no text that is cut goes past its right end, at 7.3 px
/// for a letter.
pub fn texts_in_pictures_do_not_meet()
    ensures rows { (arrows : List Arrow) (at : ℕ) → line_of arrows at + sent_at at arrows < line_of arrows (at + 1) }
    ensures names { (arrows : List Arrow) (at : ℕ) → is_headed (at + 1) ≡ true → line_of arrows at + sent_at at arrows + 1 < line_of arrows (at + 1) }
    ensures width { (left right : ℕ) (text : List ℕ) → left ≤ right → 10 * left + 73 * length (fitting left right text) ≤ 10 * right }
{}
