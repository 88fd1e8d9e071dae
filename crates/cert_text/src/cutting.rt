//! Cuts a text at given bytes and behind given words.

ghost use Rattle.std.specs.Prelude.{◌≡◌, ◌≤◌, ◌++◌, List, ℕ, length, take, drop};
ghost use Rattle.exact_texts.proofs.Cuts.{Stops};
ghost use Rattle.exact_texts.specs.Texts.{Only};
ghost use Rattle.cert_text.specs.Reading.{outside, IsField};

// The bytes in front of the first that is among the stops, and the bytes from there on.
pub(crate) fn until<'a>(text: &'a [u8], stops: &[u8]) -> (&'a [u8], &'a [u8])
    ensures cut { (front back : List ℕ) → Only (outside stops.now) front → Stops (outside stops.now) back → text.now ≡ front ++ back
        → (result.0.now ≡ front) × (result.1.now ≡ back) }
{
    text.split_at(length_until(text, stops))
}

// How many bytes stand in front of the first that is among the stops.
fn length_until(text: &[u8], stops: &[u8]) -> usize
    ensures within { result ≤ length text.now }
    ensures front { Only (outside stops.now) (take result text.now) }
    ensures back { Stops (outside stops.now) (drop result text.now) }
{
    for (index, byte) in text.iter().enumerate() {
        if stops.contains(byte) {
            return index;
        }
    }
    text.len()
}

// What stands behind a word up to the first of the stops, and the text from there on. Where the word isn't there, nothing is taken.
pub(crate) fn field<'a>(text: &'a [u8], word: &[u8], stops: &[u8]) -> (&'a [u8], &'a [u8])
    ensures cut { IsField text.now word.now stops.now result.0.now result.1.now }
{
    match text.strip_prefix(word) {
        Some(rest) => until(rest, stops),
        None => text.split_at(0),
    }
}
