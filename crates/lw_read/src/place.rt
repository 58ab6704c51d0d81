ghost use Rattle.std.specs.Prelude.{◌≡◌, ◌≤◌, ◌==◌, not, length, count_by, reverse, take};
ghost use Rattle.std.specs.List.{take_while};
ghost use Rattle.lw_read.specs.LinesAndColumns.{line_at, column_at};

/// A place in a text: its line, and its column in bytes, both from 1.
#[derive(Clone, Copy, Debug, PartialEq, Eq)]
pub struct Place {
    pub line: usize,
    pub column: usize,
}

/// The place of a byte of the text, given from 0, or of the text's end.
pub fn place_of(text: &[u8], at: usize) -> Place
    ensures line { result.line ≡ line_at text.now at }
    ensures column { result.column ≡ column_at text.now at }
{
    let before = &text[..at.min(text.len())];
    Place {
        line: feed_count(before) + 1,
        column: last_line_length(before) + 1,
    }
}

// How many line feeds there are.
fn feed_count(text: &[u8]) -> usize
    ensures count { result ≡ count_by (λ byte. byte == 10) text.now }
    ensures small { result ≤ length text.now }
{
    text.iter().filter(|byte| **byte == b'\n').count()
}

// How many bytes there are behind the last line feed.
fn last_line_length(text: &[u8]) -> usize
    ensures count { result ≡ length (take_while (λ byte. not (byte == 10)) (reverse text.now)) }
    ensures small { result ≤ length text.now }
{
    text.iter().rev().take_while(|byte| **byte != b'\n').count()
}
