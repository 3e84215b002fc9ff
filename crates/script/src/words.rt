// How a line falls into words.
ghost use Rattle.std.specs.Prelude.{◌≡◌, ◌↔◌, ℕ, List, IsTrue};
ghost use Rattle.std.specs.Option.{option_map};
ghost use Rattle.script.specs.Finds.{Finds};
ghost use Rattle.script.specs.Words.{Alone, Begins, Blanks, blank, past_blanks, front_word, past_word};

pub(crate) fn is_blank(b: u8) -> bool
    ensures { result ≡ blank b }
{
    matches!(b, b' ' | b'\t' | b'\r')
}

// The text from its first byte on that is no blank.
pub(crate) fn past_blanks(text: &[u8]) -> &[u8]
    ensures { result.now ≡ past_blanks text.now }
{
    let start = text
        .iter()
        .position(|b| !is_blank(*b))
        .unwrap_or(text.len());
    &text[start..]
}

// The bytes before the first blank, and the text from there on. It differs from the above in the test, and in what it cuts.
pub(crate) fn split_word(text: &[u8]) -> (&[u8], &[u8])
    ensures word { result.0.now ≡ front_word text.now }
    ensures rest { result.1.now ≡ past_word text.now }
{
    let end = text.iter().position(|b| is_blank(*b)).unwrap_or(text.len());
    text.split_at(end)
}

pub(crate) fn only_blanks(text: &[u8]) -> bool
    ensures { IsTrue result ↔ Blanks text.now }
{
    text.iter().all(|b| is_blank(*b))
}

// The first word of a text, and the text after it.
pub(crate) fn first_word(text: &[u8]) -> Option<(&[u8], &[u8])>
    ensures { Finds (λ (p : List ℕ × List ℕ). Begins text.now p.0 p.1) (option_map (λ p. (p.0.now, p.1.now)) result) }
{
    let (word, rest) = split_word(past_blanks(text));
    if word.is_empty() {
        None
    } else {
        Some((word, rest))
    }
}

// The word of a text that has one word only.
pub(crate) fn lone_word(text: &[u8]) -> Option<&[u8]>
    ensures { Finds (Alone text.now) (option_map (λ x. x.now) result) }
{
    let (word, rest) = first_word(text)?;
    only_blanks(rest).then_some(word)
}
