use crate::numbers::{number, sides};
use crate::unanswered::Unanswered;
use lw_formula::Name;
use lw_model::Model;
use std::alloc::Global;

/// What is added to a model.
#[derive(Drop)]
pub enum Entry {
    /// `0>1`: a world sees another.
    Pair(usize, usize),
    /// `0:p`: a variable is true at a world.
    Fact(usize, Name),
}

/// The entry that the word says.
pub fn entry_of(alloc: Global, word: &[u8]) -> Result<Entry, Unanswered> {
    if let Ok((from, to)) = sides(word, b'>') {
        return Ok(Entry::Pair(number(from)?, number(to)?));
    }
    let (world, name) = sides(word, b':')?;
    Ok(Entry::Fact(number(world)?, Name::from_bytes(alloc, name)?))
}

/// Adds the entry, where the model has its worlds.
pub fn add_entry(model: &mut Model, entry: &Entry) -> Result<(), Unanswered> {
    match entry {
        Entry::Pair(from, to) => add_pair(model, *from, *to),
        Entry::Fact(world, name) => add_fact(model, *world, name),
    }
}

fn add_pair(model: &mut Model, from: usize, to: usize) -> Result<(), Unanswered> {
    if from < model.worlds() && to < model.worlds() {
        Ok(model.add_pair(from, to)?)
    } else {
        Err(Unanswered)
    }
}

fn add_fact(model: &mut Model, world: usize, name: &Name) -> Result<(), Unanswered> {
    if world < model.worlds() {
        Ok(model.add_fact(world, name)?)
    } else {
        Err(Unanswered)
    }
}
