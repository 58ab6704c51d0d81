ghost use Rattle.std.specs.Prelude.{◌≡◌, ◌≤◌, ℕ, ◌==◌, length, count_by, IfOk, IfErr};
ghost use Rattle.lw_read.specs.LinesAndColumns.{line_at};
ghost use Rattle.lw_ast.specs.Trees.{Statements};
ghost use Rattle.lw_ast.specs.ScriptLexemes.{ScriptLexeme};
ghost use Rattle.lw_ast.specs.ScriptGrammar.{script_language};
ghost use Rattle.lw_ast.specs.ScriptFaults.{ReadsAsScript, IsScriptFaultOf};
ghost use Rattle.lw_ast.specs.ScriptViews.{statements, script};
ghost use Rattle.lw_ast.specs.Private.ScriptMachine.{State, step, height as height_of, script_machine};
ghost use Rattle.lw_ast.specs.Private.ReaderViews.{lexeme, state_of, IsStep, IsRefused};

use crate::fault::{ScriptFault, script_fault};
use crate::height::height;
use crate::onward::gone_on;
use crate::opening::{assigned, begun_statement, loop_begun, looped};
use crate::operand::{begun, called};
use crate::part::{Part, part_of};
use crate::script::{Block, Script};
use crate::state::Progress;
use lw_read::{TextFault, TextReader, Token, read_text};
use std::alloc::Global;

/// What the tokens of a text leave open up to a byte, how many constructs are unfinished there, and its line.
#[derive(Drop)]
struct ScriptReader {
    progress: Progress,
    height: usize,
    read: usize,
    line: usize,
    ghost counted: { height ≡ height_of (state_of progress) },
}

// How many line feeds there are.
fn feed_count(text: &[u8]) -> usize
    ensures { result ≡ count_by (λ byte. byte == 10) text.now }
{
    text.iter().filter(|byte| **byte == b'\n').count()
}

// The line of the byte at a place, given that of a place before it.
fn line_on(text: &[u8], read: usize, line: usize, at: usize) -> usize
    requires order { read ≤ at }
    requires within { at ≤ length text.now }
    requires line { line ≡ line_at text.now read }
    ensures { result ≡ line_at text.now at }
{
    line + feed_count(&text[read..at])
}

// Takes a token, at a line.
fn stepped(
    alloc: Global,
    token: Token,
    part: Part,
    line: usize,
    bytes: &[u8],
    progress: Progress,
) -> Result<Progress, TextFault>
    ensures ok { IfOk result (λ next. let t = lexeme part line bytes.now in IsStep t (step t (state_of progress)) next) }
    ensures fault { IfErr result (λ fault. let t = lexeme part line bytes.now in
        IsRefused t (step t (state_of progress)) token fault) }
{
    match progress {
        Progress::Needed(stack, setting) => begun(alloc, token, part, bytes, stack, setting),
        Progress::Operand(operand, stack, setting) => {
            gone_on(alloc, token, part, operand, stack, setting)
        }
        Progress::Calling(function, stack, setting) => {
            called(alloc, token, part, function, stack, setting)
        }
        Progress::Between(bodies, before) => {
            begun_statement(alloc, token, part, line, bytes, bodies, before)
        }
        Progress::Named(variable, line, bodies, before) => {
            assigned(alloc, token, part, variable, line, bodies, before)
        }
        Progress::Looping(line, bodies, before) => {
            looped(alloc, token, part, line, bytes, bodies, before)
        }
        Progress::LoopNamed(variable, line, bodies, before) => {
            loop_begun(alloc, token, part, variable, line, bodies, before)
        }
        Progress::Over(_) => Err(TextFault::Unexpected { token }),
    }
}

impl TextReader for ScriptReader {
    type Tree = Block;

    ghost Lexeme = { ScriptLexeme };

    ghost Parsed = { Statements };

    ghost State = { State };

    ghost language = { script_language };

    ghost machine = { script_machine };

    ghost state = { λ reader. state_of reader.progress };

    ghost parsed = { statements };

    ghost knows = { λ reader text at. (reader.read ≤ at) × (reader.line ≡ line_at text reader.read) };

    fn take(self, alloc: Global, text: &[u8], token: Token) -> Result<Self, TextFault> {
        let ScriptReader {
            progress,
            height: _,
            read,
            line,
        } = self;
        let line = line_on(text, read, line, token.start);
        let bytes = &text[token.start..token.end];
        let part = part_of(token.kind, bytes);
        let progress = stepped(alloc, token, part, line, bytes, progress)?;
        let height = height(&progress);
        if height == usize::MAX {
            return Err(TextFault::Nested { token });
        }
        Ok(ScriptReader {
            progress,
            height,
            read: token.start,
            line,
        })
    }

    fn height(&self) -> usize {
        self.height
    }

    fn finish(self) -> Option<Block> {
        let ScriptReader {
            progress,
            height: _,
            read: _,
            line: _,
        } = self;
        match progress {
            Progress::Over(body) => Some(body),
            _ => None,
        }
    }
}

/// The script that a text is. Where it is none, the fault of its first token that has one, at the line and the column
/// of the token's first byte: within one token `Unexpected` comes before `Name` and `Number`, and these before
/// `Nested`.
pub fn read_script(alloc: Global, text: &[u8]) -> Result<Script, ScriptFault>
    ensures script { IfOk result (λ made. ReadsAsScript text.now (script made)) }
    ensures fault { IfErr result (λ fault. IsScriptFaultOf text.now fault) }
{
    let reader = ScriptReader {
        progress: Progress::Between(Vec::new(alloc), Block::new(alloc)),
        height: 0,
        read: 0,
        line: 1,
    };
    match read_text(alloc, text, reader) {
        Ok(body) => Ok(Script { body }),
        Err(fault) => Err(script_fault(text, fault)),
    }
}
