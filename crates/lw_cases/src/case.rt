use crate::certificates::{copy_line, cut_line, logics_line, proof_line, shrunk_lines};
use crate::chains::chain_line;
use crate::closures::closure_line;
use crate::fixed_points::fixed_point_line;
use crate::formulas::{pool_line, print_line, replace_line, tree_line};
use crate::functions::{goedel_line, image_line};
use crate::interpolants::interpolant_line;
use crate::models::{class_line, facts_line, rows_line, sheet_of, spare_line, truth_line};
use crate::numbers::number;
use crate::pools::{boxes_line, doubled_line, released_line, renamed_line};
use crate::quotients::smallest_line;
use crate::runs::left_line;
use crate::scripts::{script_cuts_line, script_line, script_tree_line};
use crate::setting::Setting;
use crate::tables::table_line;
use crate::texts::{chars_line, read_line, token_line};
use crate::top_call::{run_cuts_line, run_line};
use crate::traces::trace_line;
use crate::unanswered::Unanswered;
use crate::values::{equal_line, list_line, print_values_line, value_line};
use crate::variables::variables_line;
use crate::verdicts::verdicts_line;
use lw_formula::Logic;
use std::alloc::{AllocError, Global};

/// Whether the verb sets something for the next cases.
pub fn is_setting(verb: &str) -> bool {
    matches!(verb, "text" | "line" | "room" | "fail-fetch" | "fail-write")
}

/// What the case writes.
pub fn written(setting: &mut Setting, verb: &str, rest: &str) -> Result<Vec<u8>, Unanswered> {
    match verb {
        "run" => {
            let line = run_line(setting, rest)?;
            setting.forget();
            Ok(line)
        }
        "run-cuts" => Ok(run_cuts_line(setting, rest)?.into_bytes()),
        "chain" => Ok(chain_line(setting.alloc, logic_of(rest)?)?.into_bytes()),
        "logics" => logics_line(setting),
        "shrunk" => shrunk_lines(setting),
        "boxes" | "released" | "doubled" | "renamed" => of_number(setting.alloc, verb, rest),
        "nnf" | "simplify" | "boxdot" => image_line(setting.alloc, verb, rest.as_bytes()),
        "goedel" => goedel_line(setting.alloc, rest.as_bytes()),
        "trace" => trace_line(setting.alloc, rest.as_bytes()),
        "fixpoint" => fixed_point_line(setting.alloc, rest),
        "rows" | "facts" | "class" | "truth" | "spare" | "smallest" => {
            of_model(setting, verb, rest)
        }
        "script" | "script-tree" | "script-cuts" | "left" => {
            of_script(setting.alloc, &setting.text, verb)
        }
        "value" | "list" | "values" | "equal" | "variables" => of_values(setting.alloc, verb, rest),
        _ => of_text(setting.alloc, &setting.text, verb, rest),
    }
}

fn of_number(alloc: Global, verb: &str, rest: &str) -> Result<Vec<u8>, Unanswered> {
    let number = number(rest.as_bytes())?;
    let line = match verb {
        "boxes" => boxes_line(alloc, number)?,
        "released" => released_line(alloc, number)?,
        "doubled" => doubled_line(alloc, number)?,
        _ => renamed_line(alloc, number)?,
    };
    Ok(line.into_bytes())
}

fn of_script(alloc: Global, text: &[u8], verb: &str) -> Result<Vec<u8>, Unanswered> {
    let line = match verb {
        "script" => script_line(alloc, text)?,
        "script-tree" => script_tree_line(alloc, text)?,
        "left" => left_line(alloc, text)?,
        _ => script_cuts_line(alloc, text)?,
    };
    Ok(line.into_bytes())
}

fn of_values(alloc: Global, verb: &str, rest: &str) -> Result<Vec<u8>, Unanswered> {
    match verb {
        "value" => value_line(alloc, rest),
        "list" => list_line(alloc, rest),
        "values" => print_values_line(alloc, rest),
        "equal" => Ok(said(alloc, equal_line(alloc, rest)?)?),
        _ => Ok(variables_line(alloc, rest)?.into_bytes()),
    }
}

fn of_model(setting: &Setting, verb: &str, rest: &str) -> Result<Vec<u8>, Unanswered> {
    let alloc = setting.alloc;
    if verb == "spare" {
        return spare(alloc, rest);
    }
    let sheet = sheet_of(alloc, rest)?;
    let line = match verb {
        "rows" => rows_line(alloc, &sheet)?,
        "facts" => facts_line(alloc, &sheet)?,
        "class" => class_line(alloc, &sheet)?,
        "smallest" => smallest_line(alloc, &sheet)?,
        _ => truth_line(alloc, &setting.text, &sheet)?,
    };
    Ok(line.into_bytes())
}

fn spare(alloc: Global, rest: &str) -> Result<Vec<u8>, Unanswered> {
    let (word, rest) = rest.split_once(' ').ok_or(Unanswered)?;
    let sheet = sheet_of(alloc, rest)?;
    Ok(spare_line(alloc, logic_of(word)?, &sheet)?.into_bytes())
}

fn of_text(alloc: Global, text: &[u8], verb: &str, rest: &str) -> Result<Vec<u8>, Unanswered> {
    match verb {
        "tokens" => Ok(token_line(alloc, text)?.into_bytes()),
        "read" => read_line(alloc, text),
        "print" => print_line(alloc, text),
        "tree" => tree_line(alloc, text),
        "pool" => pool_line(alloc, text),
        "replace" => replace_line(alloc, text, rest.as_bytes()),
        "closure" => Ok(closure_line(alloc, logic_of(rest)?, text)?.into_bytes()),
        "copy" => Ok(said(alloc, copy_line(alloc, text)?)?),
        "proof" => Ok(proof_line(alloc, text)?.into_bytes()),
        "chars" => Ok(chars_line(alloc, text)?),
        "verdicts" => Ok(verdicts_line(alloc, text)?.into_bytes()),
        "interpolant" => interpolant_line(alloc, text),
        "table" => Ok(table_line(alloc, text)?.into_bytes()),
        "cuts" => Ok(cut_line(alloc, text)?.into_bytes()),
        _ => Err(Unanswered),
    }
}

/// The logic of the word.
pub fn logic_of(word: &str) -> Result<Logic, Unanswered> {
    Logic::from_word(word.as_bytes()).ok_or(Unanswered)
}

fn said(alloc: Global, line: &str) -> Result<Vec<u8>, AllocError> {
    Vec::from_slice(alloc, line.as_bytes())
}
