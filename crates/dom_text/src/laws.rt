//! Laws of texts: what is written is read again. Each stands on a function without a body, so that the
//! check proves it.
ghost use Rattle.std.specs.Prelude.{◌≡◌, ◌<◌, ◌^◌, ℕ, List, [], ◌∷◌, All, Ok, Some, decimal};
ghost use Rattle.dom_text.specs.Numbers.{number_spelled};
ghost use Rattle.dom_text.specs.Spelled.{AreWritable, line_of};
ghost use Rattle.dom_text.specs.Texts.{quoted_text};
ghost use Rattle.dom_text.specs.Tokens.{tokens_of};
ghost use Rattle.dom_text.specs.declared.token.Token.{Token};
ghost use Rattle.dom_text.specs.declared.token.Token.TheVariants.{Text};

/// A printed number is read as that number, and no other word is.
pub fn numbers_are_read_again()
    ensures again { (n : ℕ) → n < 2 ^ 64 → number_spelled (decimal n) ≡ Some n }
    ensures only { (word : List ℕ) (n : ℕ) → number_spelled word ≡ Some n → word ≡ decimal n }
{}

/// A printed quoted text is read as that text, and a line of words and texts one space apart as these.
pub fn lines_are_read_again()
    ensures text { (bytes : List ℕ) → All (λ b. b < 256) bytes → tokens_of (quoted_text bytes) ≡ Ok (Text bytes ∷ []) }
    ensures line { (tokens : List Token) → AreWritable tokens → tokens_of (line_of tokens) ≡ Ok tokens }
{}
