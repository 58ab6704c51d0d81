ghost use Rattle.std.specs.Prelude.{◌≡◌, ◌≢◌, ℕ, ◌≤◌, List, length, IfOk, IfErr, IfSome, IfNone, ⊤};
ghost use Rattle.lw_read.specs.Tokens.{tokens_of};
ghost use Rattle.lw_read.specs.Places.{nesting_limit};
ghost use Rattle.lw_read.specs.Language.{Language, ReadsIn, IsFaultIn};
ghost use Rattle.lw_read.specs.Machine.{Machine, IsReaderOf, IsTaken, Refuses};

use crate::lexer::{Token, tokens};
use crate::text_fault::TextFault;
use std::alloc::Global;

/// How many constructs may be unfinished at once.
const NESTING_LIMIT: usize = 400;

/// How a text of a language is read token by token, with a machine that goes astray exactly where no text goes on.
pub trait TextReader: Drop {
    /// What is made of a text.
    type Tree;

    // what the grammar sees in a token, the tree as the grammar sees it, and the states of the machine
    ghost Lexeme: { Type 0 };

    ghost Parsed: { Type 0 };

    ghost State: { Type 0 };

    ghost language: { Language Lexeme Parsed };

    ghost machine: { Machine Lexeme Parsed State };

    // the machine's state, and the tree that was made
    ghost state: { Self → State };

    ghost parsed: { Self.Tree → Parsed };

    // what the reader knows of the text up to a byte, as the line there
    ghost knows: { Self → List ℕ → ℕ → Type 0 } = { λ _ _ _. ⊤ };

    /// Takes a token of the text, or says what is wrong with it. That too many constructs are unfinished need not be
    /// said: `read_text` tests the height behind each token.
    fn take(self, alloc: Global, text: &[u8], token: Token) -> Result<Self, TextFault>
        requires start { token.start ≤ token.end }
        requires within { token.end ≤ length text.now }
        requires low { machine.height (state self) ≤ nesting_limit }
        requires known { (at : ℕ) × (at ≤ token.start) × knows self text.now at }
        ensures known { IfOk result (λ next. knows next text.now token.end) }
        ensures ok { IfOk result (λ next.
            let t = language.lexeme_of text.now token in
            let s = machine.step t (state self) in
            (state next ≡ s) × IsTaken language machine t s) }
        ensures fault { IfErr result (λ fault.
            let t = language.lexeme_of text.now token in
            Refuses language machine t (machine.step t (state self)) token fault) };

    /// How many constructs are unfinished.
    fn height(&self) -> usize
        ensures { result ≡ machine.height (state self.now) };

    /// The tree, where the text is over.
    fn finish(self) -> Option<Self::Tree>
        ensures over { IfSome result (λ tree. state self ≡ machine.over (parsed tree)) }
        ensures none { IfNone result ((a : Parsed) → state self ≢ machine.over a) };
}

// Takes a token.
fn taken<R: TextReader>(alloc: Global, text: &[u8], token: Token, reader: R) -> Result<R, TextFault>
    requires start { token.start ≤ token.end }
    requires within { token.end ≤ length text.now }
    requires low { R.machine.height (R.state reader) ≤ nesting_limit }
    requires known { (at : ℕ) × (at ≤ token.start) × R.knows reader text.now at }
    ensures known { IfOk result (λ next. R.knows next text.now token.end) }
    ensures ok { IfOk result (λ next.
        let t = R.language.lexeme_of text.now token in
        let s = R.machine.step t (R.state reader) in
        (R.state next ≡ s) × IsTaken R.language R.machine t s × (R.machine.height s ≤ nesting_limit)) }
    ensures fault { IfErr result (λ fault.
        let t = R.language.lexeme_of text.now token in
        Refuses R.language R.machine t (R.machine.step t (R.state reader)) token fault) }
{
    let next = reader.take(alloc, text, token)?;
    if next.height() > NESTING_LIMIT {
        return Err(TextFault::Nested { token });
    }
    Ok(next)
}

fn read_tokens<R: TextReader>(
    alloc: Global,
    text: &[u8],
    tokens: &[Token],
    mut reader: R,
) -> Result<R::Tree, TextFault>
    requires tokens { tokens.now ≡ tokens_of text.now }
    requires start { R.state reader ≡ R.machine.start }
    requires known { R.knows reader text.now 0 }
    requires reads { IsReaderOf R.language R.machine }
    ensures tree { IfOk result (λ tree. ReadsIn R.language text.now (R.parsed tree)) }
    ensures fault { IfErr result (λ fault. IsFaultIn R.language text.now fault) }
{
    for token in tokens {
        reader = taken(alloc, text, *token, reader)?;
    }
    match reader.finish() {
        Some(tree) => Ok(tree),
        None => unreachable!(),
    }
}

/// The tree of a text in a language. Where it has none, the fault of the first token that has one, with that token:
/// within one token `Unexpected` comes before `TooLong`, and `TooLong` before `Nested`. The reader is at its start.
pub fn read_text<R: TextReader>(alloc: Global, text: &[u8], reader: R) -> Result<R::Tree, TextFault>
    requires start { R.state reader ≡ R.machine.start }
    requires known { R.knows reader text.now 0 }
    requires reads { IsReaderOf R.language R.machine }
    ensures tree { IfOk result (λ tree. ReadsIn R.language text.now (R.parsed tree)) }
    ensures fault { IfErr result (λ fault. IsFaultIn R.language text.now fault) }
{
    let tokens = tokens(alloc, text)?;
    read_tokens(alloc, text, tokens.as_slice(), reader)
}
