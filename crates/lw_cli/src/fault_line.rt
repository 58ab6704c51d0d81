ghost use Rattle.std.specs.Prelude.{◌≡◌, ◌++◌, IfOk};
ghost use Rattle.std.specs.Fmt.{decimal};
ghost use Rattle.lw_cli.specs.FaultLines as fault;

use lw_ast::SyntaxWhy;
use lw_eval::Trouble;
use lw_trans::Connective;
use std::alloc::{AllocError, Global};

/// The line of a file that is too long, with its line feed.
pub const FILE_LIMIT_LINE: &str = "fault: file limit\n";

/// The line of a text whose first fault is at this line and column, with its line feed. It fails for want of memory
/// alone.
pub fn syntax_line(
    alloc: Global,
    line: usize,
    column: usize,
    why: SyntaxWhy,
) -> Result<Vec<u8>, AllocError>
    ensures { IfOk result (λ text. text.items ≡ fault.syntax_line line column why) }
{
    let word = syntax_word(why);
    Ok(format!(in alloc; "fault: line {line} column {column}: {word}\n")?.into_bytes())
}

/// The word for what is wrong with a token.
fn syntax_word(why: SyntaxWhy) -> &'static str
    ensures { result.now ≡ fault.syntax_word why }
{
    match why {
        SyntaxWhy::Unexpected => "unexpected",
        SyntaxWhy::Nested => "nested",
        SyntaxWhy::Name => "name",
        SyntaxWhy::Number => "number",
    }
}

/// The line of a run that ends at this line in this trouble, with its line feed. It fails for want of memory alone.
pub fn trouble_line(alloc: Global, line: usize, trouble: &Trouble) -> Result<Vec<u8>, AllocError>
    ensures { IfOk result (λ text. text.items ≡ fault.trouble_line line trouble.now) }
{
    let mut text = format!(in alloc; "fault: line {line}: ")?.into_bytes();
    let words = trouble_words(alloc, trouble)?;
    text.extend_from_slice(words.as_slice())?;
    text.push(b'\n')?;
    Ok(text)
}

/// The words for a run's trouble.
fn trouble_words(alloc: Global, trouble: &Trouble) -> Result<Vec<u8>, AllocError>
    ensures { IfOk result (λ words. words.items ≡ fault.trouble_words trouble.now) }
{
    match trouble {
        Trouble::TextLimit => words(alloc, "text limit", b""),
        Trouble::TooLarge { count } => counted(alloc, "too large ", *count),
        Trouble::NoInterpolants { logic } => {
            words(alloc, "no interpolants ", logic.word().as_bytes())
        }
        Trouble::NotModalised => words(alloc, "not modalised", b""),
        Trouble::TooManyBoxes { count } => counted(alloc, "too many boxes ", *count),
        Trouble::NotIntuitionistic { what } => {
            words(
                alloc,
                "not intuitionistic ",
                connective_word(*what).as_bytes(),
            )
        }
        Trouble::NotLetterless { name } => words(alloc, "not letterless ", name.as_bytes()),
        Trouble::Unbound { name } => words(alloc, "unbound ", name.as_bytes()),
        Trouble::Kind => words(alloc, "kind", b""),
        Trouble::Range => words(alloc, "range", b""),
        Trouble::StepLimit => words(alloc, "step limit", b""),
    }
}

/// The words and what follows them.
fn words(alloc: Global, first: &str, more: &[u8]) -> Result<Vec<u8>, AllocError>
    ensures { IfOk result (λ words. words.items ≡ first.now ++ more.now) }
{
    let mut words = Vec::from_slice(alloc, first.as_bytes())?;
    words.extend_from_slice(more)?;
    Ok(words)
}

/// The words and the number behind them.
fn counted(alloc: Global, words: &str, count: usize) -> Result<Vec<u8>, AllocError>
    ensures { IfOk result (λ text. text.items ≡ words.now ++ decimal count) }
{
    Ok(format!(in alloc; "{words}{count}")?.into_bytes())
}

/// The connective as formulas have it.
fn connective_word(what: Connective) -> &'static str
    ensures { result.now ≡ fault.connective_word what }
{
    match what {
        Connective::Nec => "box",
        Connective::Poss => "dia",
        Connective::Iff => "<->",
        Connective::Top => "true",
    }
}
