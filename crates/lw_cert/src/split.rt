ghost use Rattle.std.specs.Prelude.{◌≡◌, ◌≢◌, ℕ, ◌+◌, ◌<◌, ◌≤◌, ◌∷◌, ◌==◌, not, [], List, length, take_while, MatchOption};
ghost use Rattle.lw_cert.specs.Lines.{Piece, Whole, pieces};
ghost use Rattle.lw_cert.specs.Private.RowReading.{IsWord};
ghost use Rattle.lw_cert.specs.Private.StageViews.{last_piece};

/// The first line, without its line feed, and what stands behind it; `None` where there is no line feed.
pub fn first_line(text: &[u8]) -> Option<(&[u8], &[u8])>
    ensures { MatchOption result (pieces text.now ≡ last_piece text.now ∷ [])
        (λ found. (length found.1.now < length text.now) × (pieces text.now ≡ Whole found.0.now ∷ pieces found.1.now)) }
{
    let end = length_before(text, b'\n');
    if end < text.len() {
        Some((&text[..end], &text[end + 1..]))
    } else {
        None
    }
}

/// The word behind the space that the bytes begin with, and what stands behind the word; `None` where they begin with
/// no space.
pub fn next_word(bytes: &[u8]) -> Option<(&[u8], &[u8])>
    ensures { MatchOption result ((tail : List ℕ) → bytes.now ≢ 32 ∷ tail)
        (λ found. IsWord bytes.now found.0.now found.1.now) }
{
    match bytes {
        [b' ', tail @ ..] => Some(word_at(tail)),
        _ => None,
    }
}

// The bytes before the first space, and the others.
fn word_at(bytes: &[u8]) -> (&[u8], &[u8])
    ensures { IsWord (32 ∷ bytes.now) result.0.now result.1.now }
{
    bytes.split_at(length_before(bytes, b' '))
}

// How many bytes stand before the first one of this kind.
fn length_before(bytes: &[u8], mark: u8) -> usize
    ensures count { result ≡ length (take_while (λ byte. not (byte == mark)) bytes.now) }
    ensures within { result ≤ length bytes.now }
{
    bytes.iter().take_while(|byte| **byte != mark).count()
}
