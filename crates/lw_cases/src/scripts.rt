//! Cases on scripts.

use crate::items::add_item;
use lw_ast::{Block, ScriptFault, read_script};
use lw_read::{Place, Token, TokenKind, place_of, tokens};
use std::alloc::{AllocError, Global};

/// The line of each outermost statement of the text, or its fault.
pub fn script_line(alloc: Global, text: &[u8]) -> Result<String, AllocError> {
    match read_script(alloc, text) {
        Ok(script) => lines_of(alloc, &script.body),
        Err(fault) => format!(in alloc; "{fault}"),
    }
}

fn lines_of(alloc: Global, body: &Block) -> Result<String, AllocError> {
    let mut list = String::from_str(alloc, "ok")?;
    for i in 0..body.count() {
        list.push_str(format!(in alloc; " {}", body.get(i).line)?.as_str())?;
    }
    Ok(list)
}

/// The tree of the text, as Debug writes it, or its fault.
pub fn script_tree_line(alloc: Global, text: &[u8]) -> Result<String, AllocError> {
    match read_script(alloc, text) {
        Ok(script) => format!(in alloc; "{script:?}"),
        Err(fault) => format!(in alloc; "{fault}"),
    }
}

/// How a text that was cut off is read.
enum Cut {
    Script,
    /// The fault stands at the cut, or at the token that it leaves.
    There,
    Elsewhere,
}

// Whether the token is the one that the end of the text leaves.
fn is_left(text: &[u8], token: &Token) -> bool {
    token.end == text.len() || token.kind == TokenKind::Bad
}

fn is_at_cut(text: &[u8], tokens: &[Token], place: Place) -> bool {
    tokens.iter().any(|token| is_left(text, token) && place_of(text, token.start) == place)
}

fn cut_of(alloc: Global, text: &[u8]) -> Result<Cut, AllocError> {
    match read_script(alloc, text) {
        Ok(_) => Ok(Cut::Script),
        Err(ScriptFault::Memory) => Err(AllocError),
        Err(ScriptFault::Syntax { line, column, .. }) => {
            if is_at_cut(text, &tokens(alloc, text)?, Place { line, column }) {
                Ok(Cut::There)
            } else {
                Ok(Cut::Elsewhere)
            }
        }
    }
}

/// How many of the text's beginnings are scripts, and the lengths of those whose fault stands elsewhere than at the
/// cut or at the token that it leaves.
pub fn script_cuts_line(alloc: Global, text: &[u8]) -> Result<String, AllocError> {
    let mut scripts = 0usize;
    let mut elsewhere = String::new(alloc);
    for len in 0..=text.len() {
        match cut_of(alloc, &text[..len])? {
            Cut::Script => scripts = scripts.saturating_add(1),
            Cut::There => {}
            Cut::Elsewhere => add_item(&mut elsewhere, format!(in alloc; "{len}")?.as_str())?,
        }
    }
    format!(in alloc; "{scripts} scripts, elsewhere: [{elsewhere}]")
}
