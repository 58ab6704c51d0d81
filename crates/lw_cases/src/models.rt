//! Cases on models: the number of worlds, and what is added, in this order.

ghost use Rattle.lw_pool.specs.Region.{IsLive};

use crate::certificates::LOGICS;
use crate::entry::{Entry, add_entry, entry_of};
use crate::formulas::entered;
use crate::items::add_item;
use crate::numbers::number;
use crate::unanswered::Unanswered;
use lw_formula::{Logic, Name};
use lw_model::{Model, holds, in_class};
use lw_pool::{FormId, Pool};
use std::alloc::{AllocError, Global};

/// The words of a model.
#[derive(Drop)]
pub struct Sheet {
    worlds: usize,
    entries: Vec<Entry>,
}

/// The model that the words say.
pub fn sheet_of(alloc: Global, text: &str) -> Result<Sheet, Unanswered> {
    let mut words = text.split_whitespace();
    let worlds = number(words.next().unwrap_or("0").as_bytes())?;
    let mut entries = Vec::new(alloc);
    for word in words {
        list_entry(&mut entries, entry_of(alloc, word.as_bytes())?)?;
    }
    Ok(Sheet { worlds, entries })
}

fn list_entry(entries: &mut Vec<Entry>, entry: Entry) -> Result<(), AllocError> {
    entries.push(entry)?;
    Ok(())
}

/// The model without the entry of this number, from 0, or whole.
pub fn built(alloc: Global, sheet: &Sheet, left_out: Option<usize>) -> Result<Model, Unanswered> {
    if sheet.worlds == 0 {
        return Err(Unanswered);
    }
    let mut model = Model::new(alloc, sheet.worlds)?;
    for (i, entry) in sheet.entries.iter().enumerate() {
        if left_out != Some(i) {
            add_entry(&mut model, entry)?;
        }
    }
    Ok(model)
}

fn name_text(alloc: Global, name: &Name) -> Result<String, AllocError> {
    String::from_utf8_lossy(alloc, name.as_bytes())
}

// What the world sees and what is true there.
fn row_text(alloc: Global, model: &Model, world: usize) -> Result<String, AllocError> {
    let mut text = format!(in alloc; "{world} sees")?;
    for seen in model.successors(world) {
        write!(text, " {seen}")?;
    }
    text.push_str(" true")?;
    for name in model.names(world) {
        text.push(' ')?;
        text.push_str(name_text(alloc, name)?.as_str())?;
    }
    Ok(text)
}

/// The model's rows.
pub fn rows_text(alloc: Global, model: &Model) -> Result<String, AllocError> {
    let mut list = String::new(alloc);
    for world in 0..model.worlds() {
        add_item(&mut list, row_text(alloc, model, world)?.as_str())?;
    }
    Ok(list)
}

/// The rows of a copy of the model.
pub fn rows_line(alloc: Global, sheet: &Sheet) -> Result<String, Unanswered> {
    let copy = built(alloc, sheet, None)?.try_clone()?;
    Ok(rows_text(alloc, &copy)?)
}

/// The model's facts, in their order.
pub fn facts_line(alloc: Global, sheet: &Sheet) -> Result<String, Unanswered> {
    let model = built(alloc, sheet, None)?;
    let mut list = String::new(alloc);
    for i in 0..model.fact_count() {
        let name = name_text(alloc, model.fact_name(i))?;
        let item = format!(in alloc; "{}:{name}", model.fact_world(i))?;
        add_item(&mut list, item.as_str())?;
    }
    Ok(list)
}

/// The logics of whose class the model is.
pub fn class_line(alloc: Global, sheet: &Sheet) -> Result<String, Unanswered> {
    let model = built(alloc, sheet, None)?;
    let mut list = String::new(alloc);
    for logic in &LOGICS {
        if in_class(&model, *logic) {
            add_item(&mut list, logic.word())?;
        }
    }
    Ok(list)
}

// Whether the model without this entry is of the logic's class.
fn can_lack(alloc: Global, sheet: &Sheet, logic: Logic, i: usize) -> Result<bool, Unanswered> {
    Ok(in_class(&built(alloc, sheet, Some(i))?, logic))
}

/// The numbers of the entries, from 0, without any one of which the model is still of the logic's class.
pub fn spare_line(alloc: Global, logic: Logic, sheet: &Sheet) -> Result<String, Unanswered> {
    let mut list = String::from_str(alloc, "spare")?;
    for i in 0..sheet.entries.len() {
        if can_lack(alloc, sheet, logic, i)? {
            add_item(&mut list, format!(in alloc; "{i}")?.as_str())?;
        }
    }
    Ok(list)
}

fn worlds_line(alloc: Global, model: &Model, pool: &Pool, id: FormId) -> Result<String, AllocError>
    requires { IsLive pool.now id }
{
    let mut list = String::new(alloc);
    for world in 0..model.worlds() {
        if holds(alloc, model, world, pool, id)? {
            add_item(&mut list, format!(in alloc; "{world}")?.as_str())?;
        }
    }
    Ok(list)
}

/// The worlds at which the text's formula is true.
pub fn truth_line(alloc: Global, text: &[u8], sheet: &Sheet) -> Result<String, Unanswered> {
    let model = built(alloc, sheet, None)?;
    let mut pool = Pool::new(alloc);
    let id = entered(alloc, &mut pool, text)?;
    Ok(worlds_line(alloc, &model, &pool, id)?)
}
