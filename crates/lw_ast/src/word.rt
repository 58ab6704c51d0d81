ghost use Rattle.std.specs.Prelude.{◌≡◌, ℕ, ◌^◌, true, false, nat_lt, ◌&&◌, length, slice_index, IfSome, IfNone};
ghost use Rattle.std.specs.List.{list_all};
ghost use Rattle.lw_formula.specs.Name.{is_upper, is_word_byte};
ghost use Rattle.lw_read.specs.Lexemes.{is_variable};
ghost use Rattle.lw_read.specs.Tokens.{decimal};
ghost use Rattle.lw_ast.specs.ScriptLexemes.{quoted};

/// The most bytes of a variable.
const LONGEST_NAME: usize = 64;

/// Whether the word begins with an upper-case letter.
pub fn is_upper(word: &[u8]) -> bool
    ensures { result ≡ is_upper (slice_index word.now 0) }
{
    match word {
        [first, ..] => first.is_ascii_uppercase(),
        [] => false,
    }
}

/// Whether a variable of this word is too long.
pub fn is_long(word: &[u8]) -> bool
    ensures { result ≡ nat_lt 64 (length word.now) }
{
    word.len() > LONGEST_NAME
}

/// Whether the word is a propositional variable that is too long.
#[tactic(auto, using(crate::proofs::LongNames::long_variable_is))]
pub fn is_long_variable(word: &[u8]) -> bool
    ensures { result ≡ (is_variable word.now && nat_lt 64 (length word.now)) }
{
    word.len() > LONGEST_NAME && word[0].is_ascii_lowercase() && is_word(word)
}

fn is_word(bytes: &[u8]) -> bool
    ensures { result ≡ list_all is_word_byte bytes.now }
{
    bytes
        .iter()
        .all(|byte| byte.is_ascii_alphanumeric() || *byte == b'_')
}

/// The number that the digits write, if it is below 2^64.
pub fn decimal(digits: &[u8]) -> Option<u64>
    ensures some { IfSome result (λ number. (number ≡ decimal digits.now) × (nat_lt (decimal digits.now) (2 ^ 64) ≡ true)) }
    ensures none { IfNone result (nat_lt (decimal digits.now) (2 ^ 64) ≡ false) }
{
    let mut value: u64 = 0;
    for byte in digits {
        let digit = u64::from(byte.saturating_sub(b'0'));
        if value > (u64::MAX - digit) / 10 {
            return None;
        }
        value = value * 10 + digit;
    }
    Some(value)
}

/// The bytes between the quotes of a text.
pub fn quoted(bytes: &[u8]) -> &[u8]
    ensures { result.now ≡ quoted bytes.now }
{
    match bytes {
        [_, inner @ .., _] => inner,
        _ => &[],
    }
}
