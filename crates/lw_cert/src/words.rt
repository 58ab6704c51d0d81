ghost use Rattle.std.specs.Prelude.{◌≡◌, ◌≢◌, ℕ, ◌++◌, ◌^◌, ◌<◌, List, MatchOption, IfOk, codes};
ghost use Rattle.std.specs.Fmt.{decimal};
ghost use Rattle.lw_formula.specs.declared.sign.Sign.{Sign};
ghost use Rattle.lw_proof.specs.declared.rule.Rule.{Rule};
ghost use Rattle.lw_cert.specs.Lines.{rule_word, sign_word};

use lw_formula::Sign;
use lw_proof::Rule;
use std::alloc::{AllocError, Global};
use std::str::from_utf8;

/// What stands behind the word, where the line begins with it.
pub fn after<'a>(line: &'a [u8], word: &[u8]) -> Option<&'a [u8]>
    ensures { MatchOption result ((rest : List ℕ) → line.now ≢ word.now ++ rest) (λ rest. line.now ≡ word.now ++ rest.now) }
{
    line.strip_prefix(word)
}

/// The rule whose word with its space the line begins with, and what stands behind it.
pub fn rule_of(line: &[u8]) -> Option<(Rule, &[u8])>
    ensures { MatchOption result ((rule : Rule) (rest : List ℕ) → line.now ≢ rule_word rule ++ rest)
        (λ found. line.now ≡ rule_word found.0 ++ found.1.now) }
{
    if let Some(rest) = after(line, b"close ") {
        Some((Rule::Close, rest))
    } else if let Some(rest) = after(line, b"absurd ") {
        Some((Rule::Absurd, rest))
    } else if let Some(rest) = after(line, b"one ") {
        Some((Rule::One, rest))
    } else if let Some(rest) = after(line, b"two ") {
        Some((Rule::Two, rest))
    } else if let Some(rest) = after(line, b"refl ") {
        Some((Rule::Refl, rest))
    } else if let Some(rest) = after(line, b"step ") {
        Some((Rule::Step, rest))
    } else if let Some(rest) = after(line, b"serial ") {
        Some((Rule::Serial, rest))
    } else if let Some(rest) = after(line, b"cut ") {
        Some((Rule::Cut, rest))
    } else {
        None
    }
}

/// The rule's word with its space.
pub fn rule_word(rule: Rule) -> &'static str
    ensures { result.now ≡ rule_word rule }
{
    match rule {
        Rule::Close => "close ",
        Rule::Absurd => "absurd ",
        Rule::One => "one ",
        Rule::Two => "two ",
        Rule::Refl => "refl ",
        Rule::Step => "step ",
        Rule::Serial => "serial ",
        Rule::Cut => "cut ",
    }
}

/// The sign with its space that the text begins with, and what stands behind it.
pub fn sign_of(text: &[u8]) -> Option<(Sign, &[u8])>
    ensures { MatchOption result ((sign : Sign) (rest : List ℕ) → text.now ≢ sign_word sign ++ rest)
        (λ found. text.now ≡ sign_word found.0 ++ found.1.now) }
{
    if let Some(rest) = after(text, b"T ") {
        Some((Sign::T, rest))
    } else if let Some(rest) = after(text, b"F ") {
        Some((Sign::F, rest))
    } else {
        None
    }
}

/// The sign with its space.
pub fn sign_word(sign: Sign) -> &'static str
    ensures { result.now ≡ sign_word sign }
{
    match sign {
        Sign::T => "T ",
        Sign::F => "F ",
    }
}

/// The number that the word writes in decimal without leading zeros. It fails for want of memory alone.
pub fn number(alloc: Global, word: &[u8]) -> Result<Option<usize>, AllocError>
    ensures { IfOk result (λ found. MatchOption found ((n : ℕ) → n < 2 ^ 64 → word.now ≢ decimal n) (λ n. word.now ≡ decimal n)) }
{
    let Ok(text) = from_utf8(word) else {
        return Ok(None);
    };
    let Ok(number) = text.parse::<usize>() else {
        return Ok(None);
    };
    let printed = format!(in alloc; "{number}")?;
    if printed.as_bytes() == word {
        Ok(Some(number))
    } else {
        Ok(None)
    }
}
