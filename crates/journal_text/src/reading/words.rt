//! The words of events and effects. No function takes memory.
ghost use Rattle.std.specs.Prelude.{◌≡◌, ◌≢◌, IfSome, MatchOption};
ghost use Rattle.journal_text.specs.Walk.LineStarts.{what_word_text, what_word_of};
ghost use Rattle.journal_text.specs.Walk.LineEffects.{effect_word_text, effect_word_of};
ghost use Rattle.journal_text.specs.declared.reading.words.WhatWord.{WhatWord};
ghost use Rattle.journal_text.specs.declared.reading.words.EffectWord.{EffectWord};

/// The word of an event.
#[derive(Clone, Copy)]
pub(crate) enum WhatWord {
    Begin,
    Go,
    Take,
    Notice,
    Ready,
    Mark,
}

/// The word of an effect.
#[derive(Clone, Copy)]
pub(crate) enum EffectWord {
    Drop,
    Send,
    End,
}

impl WhatWord {
    /// The one that is written so; None exactly where none is.
    fn from_word(word: &[u8]) -> Option<WhatWord>
        ensures { MatchOption result ((w : WhatWord) → word.now ≢ what_word_text w) (λ w. word.now ≡ what_word_text w) }
    {
        match word {
            b"begin" => Some(WhatWord::Begin),
            b"go" => Some(WhatWord::Go),
            b"take" => Some(WhatWord::Take),
            b"notice" => Some(WhatWord::Notice),
            b"ready" => Some(WhatWord::Ready),
            b"mark" => Some(WhatWord::Mark),
            _ => None,
        }
    }
}

impl EffectWord {
    /// The one that is written so; None exactly where none is.
    fn from_word(word: &[u8]) -> Option<EffectWord>
        ensures { MatchOption result ((w : EffectWord) → word.now ≢ effect_word_text w) (λ w. word.now ≡ effect_word_text w) }
    {
        match word {
            b"drop" => Some(EffectWord::Drop),
            b"send" => Some(EffectWord::Send),
            b"end" => Some(EffectWord::End),
            _ => None,
        }
    }
}

/// The word of an event that a word is.
pub(super) fn what_word(word: &[u8]) -> Option<WhatWord>
    ensures value { result ≡ what_word_of word.now }
    ensures text { IfSome result (λ w. word.now ≡ what_word_text w) }
{
    WhatWord::from_word(word)
}

/// The word of an effect that a word is.
pub(super) fn effect_word(word: &[u8]) -> Option<EffectWord>
    ensures value { result ≡ effect_word_of word.now }
    ensures text { IfSome result (λ w. word.now ≡ effect_word_text w) }
{
    EffectWord::from_word(word)
}
