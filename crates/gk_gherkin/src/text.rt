//! Texts: trimming, prefixes and substrings.
ghost use Rattle.std.specs.Prelude.{◌≡◌, ◌≤◌, ◌&&◌, length, slice_index};
ghost use Rattle.std.specs.List.{prefix_len, position_or_len, before_first, after_first};
ghost use Rattle.std.specs.Str.{bytes_eq};
ghost use Rattle.gk_gherkin.specs.Text as spec;
ghost use Rattle.gk_gherkin.specs.Text.{is_blank};

/// Returns whether a byte is a space or a tab.
pub fn is_blank(byte: u8) -> bool
    ensures { result ≡ spec.is_blank byte }
{
    byte == b' ' || byte == b'\t'
}

/// Returns the number of spaces and tabs that a text begins with.
pub(crate) fn leading_blanks(text: &[u8]) -> usize
    ensures value { result ≡ prefix_len is_blank text.now }
    ensures within { result ≤ length text.now }
{
    for (i, byte) in text.iter().enumerate() {
        if !is_blank(*byte) {
            return i;
        }
    }
    text.len()
}

/// Returns a text without its leading spaces and tabs.
#[tactic(auto, using(std::proofs::lemmas::Grind::common_steps, crate::proofs::LineCuts::boundary_at))]
pub(crate) fn trim_front(text: &str) -> &str
    ensures { result.now ≡ spec.trim_front text.now }
{
    let blanks = leading_blanks(text.as_bytes());
    &text[blanks..]
}

/// Returns a text without its trailing spaces and tabs. Other whitespace stays. (this project's
/// profile)
pub fn trim_back(text: &str) -> &str
    ensures { result.now ≡ spec.trim_back text.now }
{
    let bytes = text.as_bytes();
    let mut end = bytes.len();
    while end > 0 && is_blank(bytes[end - 1]) {
        end -= 1;
    }
    &text[..end]
}

/// Returns a text without its leading and trailing spaces and tabs.
pub fn trim(text: &str) -> &str
    ensures { result.now ≡ spec.trim text.now }
{
    trim_back(trim_front(text))
}

/// Returns the number of bytes before the first space or tab.
pub(crate) fn first_blank(text: &[u8]) -> usize
    ensures value { result ≡ position_or_len is_blank text.now }
    ensures within { result ≤ length text.now }
{
    for (i, byte) in text.iter().enumerate() {
        if is_blank(*byte) {
            return i;
        }
    }
    text.len()
}

/// Splits a text at its first space or tab: returns the word before it, and the rest after it.
#[tactic(auto, using(std::proofs::lemmas::Grind::common_steps, crate::proofs::LineCuts::before_first_blank, crate::proofs::LineCuts::after_first_blank))]
pub fn split_word(text: &str) -> (&str, &str)
    ensures word { result.0.now ≡ before_first is_blank text.now }
    ensures rest { result.1.now ≡ after_first is_blank text.now }
{
    let end = first_blank(text.as_bytes());
    if end < text.len() {
        (&text[..end], &text[end + 1..])
    } else {
        (text, "")
    }
}

/// Returns whether a text begins with a word. Compares the first byte before the others.
#[tactic(auto, using(crate::proofs::ClassWords::first_differs))]
pub fn begins(text: &str, word: &str) -> bool
    ensures { result ≡ spec.begins text.now word.now }
{
    let text = text.as_bytes();
    let word = word.as_bytes();
    if !text.is_empty() && !word.is_empty() && text[0] != word[0] {
        false
    } else {
        text.starts_with(word)
    }
}

/// Returns whether a text equals a word.
pub(crate) fn is_word(text: &str, word: &str) -> bool
    ensures { result ≡ bytes_eq text.now word.now }
{
    text == word
}

/// Returns whether a text begins with a word followed by a space or a tab.
pub fn begins_word(text: &str, word: &str) -> bool
    ensures { result
        ≡ (spec.begins text.now word.now && is_blank (slice_index text.now (length word.now))) }
{
    let bytes = text.as_bytes();
    word.len() < bytes.len() && is_blank(bytes[word.len()]) && begins(text, word)
}

/// Returns whether a text contains another. Every text contains the empty text.
#[tactic(auto, using(std::proofs::lemmas::Grind::common_steps, std::proofs::lemmas::Bool::Decides::same_from_decides, std::proofs::lemmas::Str::Pattern::contains_text, crate::proofs::Containing::contains_from, crate::proofs::Containing::contains_to))]
pub fn contains(whole: &str, text: &str) -> bool
    ensures { result ≡ spec.contains whole.now text.now }
{
    whole.contains(text)
}
