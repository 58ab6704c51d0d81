// Rows in a vector of words, whose last row is its last words.
ghost use Rattle.std.specs.Prelude.{◌≡◌, ◌+◌, ◌-◌, ◌<◌, ◌≤◌, ◌++◌, length, drop, replicate, vec_capacity};

// Appends so many words without a bit, for which there is memory.
pub(crate) fn push_zeros(words: &mut Vec<u64>, width: usize)
    requires { length words.old.items + width ≤ vec_capacity words.old }
    ensures added { words.new.items ≡ words.old.items ++ replicate width 0 }
    ensures room { vec_capacity words.old ≤ vec_capacity words.new }
{
    if words.resize(words.len() + width, 0).is_err() {
        unreachable!();
    }
}

// Appends a copy of the last words, for which there is memory.
pub(crate) fn push_again(words: &mut Vec<u64>, width: usize)
    requires there { width ≤ length words.old.items }
    requires fits { length words.old.items + width ≤ vec_capacity words.old }
    ensures added { words.new.items ≡ words.old.items ++ drop (length words.old.items - width) words.old.items }
    ensures room { vec_capacity words.old ≤ vec_capacity words.new }
{
    let start = words.len() - width;
    if words.extend_from_within(start..).is_err() {
        unreachable!();
    }
}
