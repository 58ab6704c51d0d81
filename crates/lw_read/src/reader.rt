ghost use Rattle.std.specs.Prelude.{◌≡◌, ℕ, false, List, IfOk, IfErr, OnOk, ◌∷◌};
ghost use Rattle.std.specs.List.{list_all};
ghost use Rattle.lw_formula.specs.Formula.{Formula};
ghost use Rattle.lw_formula.specs.Joint.{join};
ghost use Rattle.lw_formula.specs.Tree.{tree_of};
ghost use Rattle.lw_formula.specs.Name.{is_word_byte};
ghost use Rattle.lw_read.specs.Lexemes.{Lexeme, other_lexeme, is_long};
ghost use Rattle.lw_read.specs.Grammar.{apply, formula_language, ReadsAs, IsFaultOf};
ghost use Rattle.lw_read.specs.Machine.{Refuses};
ghost use Rattle.lw_read.specs.Private.FormulaMachine.{Frame, State, begin, go_on, formula_constructs, formula_machine};
ghost use Rattle.lw_read.specs.Private.ReaderViews.{lexeme, frame, frames, state, IsShortVariable};

use crate::construct::{Construct, end_tighter};
use crate::fault::ReadFault;
use crate::lexeme::{Part, Prefix, part_of, rank};
use crate::lexer::{Token, is_word_byte};
use crate::text::{TextReader, read_text};
use crate::text_fault::TextFault;
use lw_formula::{Form, Joint, Name, NameFault};
use std::alloc::{AllocError, Global};

/// The most bytes of a name.
const LONGEST_NAME: usize = 64;

/// A construct that waits for its end.
#[derive(Drop)]
pub enum Unfinished {
    Prefixed(Prefix),
    Left(Joint, Form),
    Bracket,
}

/// What the tokens so far leave open: an operand is needed, or is there, or the text is over.
#[derive(Drop)]
pub enum Progress {
    Needed,
    Operand(Form),
    Over(Form),
}

/// What the tokens so far leave open, and the constructs that wait, the innermost last.
#[derive(Drop)]
struct FormulaReader {
    progress: Progress,
    stack: Vec<Unfinished>,
}

// The formula of the sign and its operand.
fn applied(alloc: Global, sign: Prefix, operand: Form) -> Result<Form, AllocError>
    ensures { IfOk result (λ form. tree_of form ≡ apply sign (tree_of operand)) }
{
    let operand = Box::new(alloc, operand)?;
    Ok(match sign {
        Prefix::Not => Form::Not(operand),
        Prefix::Nec => Form::Nec(operand),
        Prefix::Poss => Form::Poss(operand),
    })
}

// The formula of the sign and its operands.
fn joined(alloc: Global, sign: Joint, left: Form, right: Form) -> Result<Form, AllocError>
    ensures { IfOk result (λ form. tree_of form ≡ join sign (tree_of left) (tree_of right)) }
{
    let left = Box::new(alloc, left)?;
    let right = Box::new(alloc, right)?;
    Ok(match sign {
        Joint::And => Form::And(left, right),
        Joint::Or => Form::Or(left, right),
        Joint::Imp => Form::Imp(left, right),
        Joint::Iff => Form::Iff(left, right),
    })
}

impl Construct for Unfinished {
    type Tree = Form;

    ghost Frame = { Frame };

    ghost Parsed = { Formula };

    ghost constructs = { formula_constructs };

    ghost frame = { frame };

    ghost parsed = { tree_of };

    fn level(&self) -> u8 {
        match self {
            Unfinished::Prefixed(_) => 5,
            Unfinished::Left(sign, _) => rank(*sign),
            Unfinished::Bracket => 0,
        }
    }

    fn finish(self, alloc: Global, operand: Form) -> Result<Form, AllocError> {
        match self {
            Unfinished::Prefixed(sign) => applied(alloc, sign, operand),
            Unfinished::Left(sign, left) => joined(alloc, sign, left, operand),
            Unfinished::Bracket => Ok(operand),
        }
    }
}

// Puts a construct on the stack.
fn pushed(stack: &mut Vec<Unfinished>, unfinished: Unfinished) -> Result<(), AllocError>
    ensures { OnOk result (frames stack.new.items ≡ frame unfinished ∷ frames stack.old.items) }
{
    stack.push(unfinished)?;
    Ok(())
}

// Whether the word is a variable of too many bytes.
#[tactic(auto, using(crate::proofs::NameTests::is_long_is))]
fn is_long_variable(word: &[u8]) -> bool
    ensures { result ≡ is_long (other_lexeme word.now) }
{
    match word {
        [first, ..] => word.len() > LONGEST_NAME && first.is_ascii_lowercase() && is_word(word),
        [] => false,
    }
}

fn is_word(bytes: &[u8]) -> bool
    ensures { result ≡ list_all is_word_byte bytes.now }
{
    bytes.iter().all(|byte| is_word_byte(*byte))
}

// The variable that the word is.
fn named(alloc: Global, word: &[u8], token: Token) -> Result<Form, TextFault>
    ensures ok { IfOk result (λ form. IsShortVariable word.now (tree_of form)) }
    ensures fault { IfErr result (λ fault. (fs : List Frame) → let t = other_lexeme word.now in
        Refuses formula_language formula_machine t (begin t fs) token fault) }
{
    match Name::from_bytes(alloc, word) {
        Ok(name) => Ok(Form::Var(name)),
        Err(NameFault::Memory) => Err(TextFault::Memory),
        Err(NameFault::BadName) => {
            if is_long_variable(word) {
                Err(TextFault::TooLong { token })
            } else {
                Err(TextFault::Unexpected { token })
            }
        }
    }
}

// Takes a token where an operand is needed.
fn begun(
    alloc: Global,
    part: Part,
    bytes: &[u8],
    token: Token,
    stack: &mut Vec<Unfinished>,
) -> Result<Progress, TextFault>
    ensures ok { IfOk result (λ progress. let t = lexeme part bytes.now in
        (state progress (frames stack.new.items) ≡ begin t (frames stack.old.items)) × (is_long t ≡ false)) }
    ensures fault { IfErr result (λ fault. let t = lexeme part bytes.now in
        Refuses formula_language formula_machine t (begin t (frames stack.old.items)) token fault) }
{
    match part {
        Part::Word => Ok(Progress::Operand(named(alloc, bytes, token)?)),
        Part::Truth => Ok(Progress::Operand(Form::Top)),
        Part::Falsity => Ok(Progress::Operand(Form::Bot)),
        Part::Before(sign) => {
            pushed(stack, Unfinished::Prefixed(sign))?;
            Ok(Progress::Needed)
        }
        Part::Open => {
            pushed(stack, Unfinished::Bracket)?;
            Ok(Progress::Needed)
        }
        Part::Between(_) | Part::Close | Part::End | Part::Foreign => {
            Err(TextFault::Unexpected { token })
        }
    }
}

// Takes a token where an operand is there.
fn gone_on(
    alloc: Global,
    part: Part,
    token: Token,
    operand: Form,
    stack: &mut Vec<Unfinished>,
) -> Result<Progress, TextFault>
    ensures ok { IfOk result (λ progress. (bytes : List ℕ) → let t = lexeme part bytes in
        (state progress (frames stack.new.items) ≡ go_on t (tree_of operand) (frames stack.old.items))
        × (is_long t ≡ false)) }
    ensures fault { IfErr result (λ fault. (bytes : List ℕ) → let t = lexeme part bytes in
        let s = go_on t (tree_of operand) (frames stack.old.items) in
        Refuses formula_language formula_machine t s token fault) }
{
    match part {
        Part::Between(sign) => {
            let left = end_tighter(alloc, rank(sign), operand, stack)?;
            pushed(stack, Unfinished::Left(sign, left))?;
            Ok(Progress::Needed)
        }
        Part::Close => {
            let inner = end_tighter(alloc, 0, operand, stack)?;
            match stack.pop() {
                Some(Unfinished::Bracket) => Ok(Progress::Operand(inner)),
                _ => Err(TextFault::Unexpected { token }),
            }
        }
        Part::End => {
            let whole = end_tighter(alloc, 0, operand, stack)?;
            if stack.is_empty() {
                Ok(Progress::Over(whole))
            } else {
                Err(TextFault::Unexpected { token })
            }
        }
        Part::Word | Part::Truth | Part::Falsity | Part::Before(_) | Part::Open | Part::Foreign => {
            Err(TextFault::Unexpected { token })
        }
    }
}

impl TextReader for FormulaReader {
    type Tree = Form;

    ghost Lexeme = { Lexeme };

    ghost Parsed = { Formula };

    ghost State = { State };

    ghost language = { formula_language };

    ghost machine = { formula_machine };

    ghost state = { λ reader. state reader.progress (frames reader.stack.items) };

    ghost parsed = { tree_of };

    fn take(self, alloc: Global, text: &[u8], token: Token) -> Result<Self, TextFault> {
        let FormulaReader {
            progress,
            mut stack,
        } = self;
        let bytes = &text[token.start..token.end];
        let part = part_of(token.kind, bytes);
        let progress = match progress {
            Progress::Needed => begun(alloc, part, bytes, token, &mut stack)?,
            Progress::Operand(operand) => gone_on(alloc, part, token, operand, &mut stack)?,
            Progress::Over(_) => return Err(TextFault::Unexpected { token }),
        };
        Ok(FormulaReader { progress, stack })
    }

    fn height(&self) -> usize {
        match self.progress {
            Progress::Needed | Progress::Operand(_) => self.stack.len(),
            Progress::Over(_) => 0,
        }
    }

    fn finish(self) -> Option<Form> {
        let FormulaReader { progress, stack: _ } = self;
        match progress {
            Progress::Over(form) => Some(form),
            Progress::Needed | Progress::Operand(_) => None,
        }
    }
}

/// The formula that a text is. Where it is none, the fault of its first token that has one, at the token's first
/// byte: within one token `Unexpected` comes before `Name`, and `Name` before `Nested`.
pub fn read_formula(alloc: Global, text: &[u8]) -> Result<Form, ReadFault>
    ensures formula { IfOk result (λ form. ReadsAs text.now (tree_of form)) }
    ensures fault { IfErr result (λ fault. IsFaultOf text.now fault) }
{
    let reader = FormulaReader {
        progress: Progress::Needed,
        stack: Vec::new(alloc),
    };
    Ok(read_text(alloc, text, reader)?)
}
