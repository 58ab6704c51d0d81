//! A case on the variables of scripts.

use crate::items::add_item;
use crate::unanswered::Unanswered;
use lw_formula::Chars;
use lw_value::{Env, Items, Value, weight};
use std::alloc::{AllocError, Global};

// A list of so many items.
fn list(alloc: Global, count: usize) -> Result<Value, AllocError> {
    let mut items = Items::new();
    for _ in 0..count {
        items.push(alloc, Value::Nothing)?;
    }
    Ok(Value::Items(items))
}

// The variables, once each name in turn is given a list that is one longer.
fn assigned(alloc: Global, names: &str) -> Result<Env, AllocError> {
    let mut env = Env::new(alloc);
    for (i, name) in names.split(' ').enumerate() {
        env.set(&Chars::from_bytes(alloc, name.as_bytes())?, list(alloc, i)?)?;
    }
    Ok(env)
}

// The weight of the name's value, if it has one.
fn weight_of(alloc: Global, env: &Env, name: &str) -> Result<String, AllocError> {
    match env.get(&Chars::from_bytes(alloc, name.as_bytes())?) {
        Some(value) => format!(in alloc; "{name} {}", weight(value)),
        None => format!(in alloc; "{name} unbound"),
    }
}

/// The weight of each name's value, once each name before the `;` was given in turn a list that is one longer.
pub fn variables_line(alloc: Global, rest: &str) -> Result<String, Unanswered> {
    let (names, asked) = rest.split_once(';').ok_or(Unanswered)?;
    let env = assigned(alloc, names)?;
    let mut line = String::new(alloc);
    for name in asked.split(' ') {
        add_item(&mut line, weight_of(alloc, &env, name)?.as_str())?;
    }
    Ok(line)
}
