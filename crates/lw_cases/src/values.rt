//! Cases on values of scripts. A value is written as its base and what is made of it in turn, as `number 1|many 2|nest 3`.

ghost use Rattle.std.specs.Prelude.{◌≡◌, ◌++◌, ◌∷◌, IfOk, OnOk, List, []};
ghost use Rattle.lw_formula.specs.Formula.{Formula};
ghost use Rattle.lw_pool.specs.Region.{IsLive, Grows};
ghost use Rattle.lw_value.specs.Views.{value_of, values_of};
ghost use Rattle.lw_cases.specs.Values.{CanBeWritten, CanAllBeWritten};

use crate::case::logic_of;
use crate::escapes::bytes_of;
use crate::formulas::entered;
use crate::numbers::number;
use crate::pools::doubled;
use crate::unanswered::Unanswered;
use lw_cert::{Body, Certificate};
use lw_formula::{Chars, Logic};
use lw_model::Model;
use lw_pool::{FormId, Pool};
use lw_read::LONGEST_TEXT;
use lw_value::{
    Items, Value, are_equal, is_comparable, line_text, measured, measured_line, value_text, weight,
};
use std::alloc::{AllocError, Global};
use std::rc::Rc;

/// The most bytes of a text that is shown.
const SHOWN: usize = 300;

// The certificate in K in which a model of one world, at which nothing is true, is to refute the formula.
fn certificate(alloc: Global, formula: FormId) -> Result<Value, AllocError>
    ensures { IfOk result (λ value. (ts : List Formula) → IsLive ts formula → CanBeWritten ts (value_of value)) }
{
    let body = Body::Refuted(Model::new(alloc, 1)?, 0);
    let certificate = Certificate {
        logic: Logic::K,
        formula,
        body,
    };
    Ok(Value::Certificate(Rc::new(alloc, certificate)?))
}

fn text(alloc: Global, bytes: &[u8]) -> Result<Value, AllocError>
    ensures { IfOk result (λ value. (ts : List Formula) → CanBeWritten ts (value_of value)) }
{
    let chars = Chars::from_bytes(alloc, bytes)?;
    Ok(Value::Text(Rc::new(alloc, chars)?))
}

// A value without formulas.
fn plain(alloc: Global, verb: &str, rest: &str) -> Result<Value, Unanswered>
    ensures { IfOk result (λ value. (ts : List Formula) → CanBeWritten ts (value_of value)) }
{
    match verb {
        "yes" => Ok(Value::Truth(true)),
        "no" => Ok(Value::Truth(false)),
        "none" => Ok(Value::Nothing),
        "number" => Ok(Value::Number(number(rest.as_bytes())? as u64)),
        "text" => Ok(text(alloc, &bytes_of(alloc, rest.as_bytes())?)?),
        "logic" => Ok(Value::Logic(logic_of(rest)?)),
        _ => Err(Unanswered),
    }
}

// A value before anything is made of it.
fn base(alloc: Global, pool: &mut Pool, verb: &str, rest: &str) -> Result<Value, Unanswered>
    ensures value { IfOk result (λ value. CanBeWritten pool.new (value_of value)) }
    ensures grows { Grows pool.old pool.new }
{
    match verb {
        "formula" => Ok(Value::Formula(entered(alloc, pool, rest.as_bytes())?)),
        "shared" => Ok(Value::Formula(doubled(alloc, pool, number(rest.as_bytes())?)?)),
        "certificate" => {
            let formula = entered(alloc, pool, rest.as_bytes())?;
            Ok(certificate(alloc, formula)?)
        }
        _ => plain(alloc, verb, rest),
    }
}

// The list of so many copies of the value.
fn many(alloc: Global, value: &Value, count: usize) -> Result<Value, AllocError>
    ensures { IfOk result (λ list. (ts : List Formula) → CanBeWritten ts (value_of value.now) → CanBeWritten ts (value_of list)) }
{
    let mut items = Items::new();
    'copies: for _ in 0..count {
        items.push(alloc, value.try_clone()?)?;
    }
    Ok(Value::Items(items))
}

// The list of so many copies of the list of as many copies, and so on, so many times over.
fn times(alloc: Global, mut value: Value, times: usize, copies: usize) -> Result<Value, AllocError>
    ensures { IfOk result (λ list. (ts : List Formula) → CanBeWritten ts (value_of value) → CanBeWritten ts (value_of list)) }
{
    'times: for _ in 0..times {
        value = many(alloc, &value, copies)?;
    }
    Ok(value)
}

// What is made of the value.
fn changed(alloc: Global, value: Value, part: &str) -> Result<Value, Unanswered>
    ensures { IfOk result (λ new. (ts : List Formula) → CanBeWritten ts (value_of value) → CanBeWritten ts (value_of new)) }
{
    let (verb, rest) = part.split_once(' ').ok_or(Unanswered)?;
    let count = number(rest.as_bytes())?;
    match verb {
        "many" => Ok(many(alloc, &value, count)?),
        "nest" => Ok(times(alloc, value, count, 1)?),
        "double" => Ok(times(alloc, value, count, 2)?),
        _ => Err(Unanswered),
    }
}

// The value that is written so.
fn made(alloc: Global, pool: &mut Pool, written: &str) -> Result<Value, Unanswered>
    ensures value { IfOk result (λ value. CanBeWritten pool.new (value_of value)) }
    ensures grows { Grows pool.old pool.new }
{
    let mut parts = written.split('|');
    let first = parts.next().ok_or(Unanswered)?;
    let (verb, rest) = first.split_once(' ').unwrap_or((first, ""));
    let mut value = base(alloc, pool, verb, rest)?;
    'parts: for part in parts {
        value = changed(alloc, value, part)?;
    }
    Ok(value)
}

fn put(values: &mut Vec<Value>, value: Value) -> Result<(), AllocError>
    ensures { OnOk result (values.new.items ≡ values.old.items ++ value ∷ []) }
{
    values.push(value)?;
    Ok(())
}

// The values that are written so, with `;` between them.
fn all_made(alloc: Global, pool: &mut Pool, written: &str) -> Result<Vec<Value>, Unanswered>
    ensures values { IfOk result (λ values. CanAllBeWritten pool.new (values_of values.items)) }
    ensures grows { Grows pool.old pool.new }
{
    let mut values = Vec::new(alloc);
    'values: for part in written.split(';') {
        let value = made(alloc, pool, part)?;
        put(&mut values, value)?;
    }
    Ok(values)
}

// The list of the values.
fn list_of(alloc: Global, values: &[Value]) -> Result<Value, AllocError>
    ensures { IfOk result (λ list. (ts : List Formula) → CanAllBeWritten ts (values_of values.now) → CanBeWritten ts (value_of list)) }
{
    let mut items = Items::new();
    'values: for value in values {
        items.push(alloc, value.try_clone()?)?;
    }
    Ok(Value::Items(items))
}

// Whether the value and its copy are equal.
fn equality(alloc: Global, pool: &Pool, value: &Value) -> Result<&'static str, AllocError>
    requires { CanBeWritten pool.now (value_of value.now) }
{
    if !is_comparable(alloc, value)? {
        return Ok("not comparable");
    }
    let copy = value.try_clone()?;
    Ok(if are_equal(alloc, pool, value, &copy)? {
        "equal to its copy"
    } else {
        "other than its copy"
    })
}

// The text, or how long it is.
fn shown(alloc: Global, text: Vec<u8>) -> Result<Vec<u8>, AllocError> {
    if text.len() > SHOWN {
        return Ok(format!(in alloc; "{} bytes", text.len())?.into_bytes());
    }
    Ok(text)
}

// The value's text, its measured length and its weight, and whether it is equal to a copy of it.
fn about(alloc: Global, pool: &Pool, value: &Value) -> Result<Vec<u8>, AllocError>
    requires { CanBeWritten pool.now (value_of value.now) }
{
    let len = measured(alloc, pool, value)?;
    let weight = weight(value);
    if len > LONGEST_TEXT {
        return Ok(format!(in alloc; "text limit: {len} bytes, weight {weight}")?.into_bytes());
    }
    let equality = equality(alloc, pool, value)?;
    let mut out = shown(alloc, value_text(alloc, pool, value)?)?;
    let rest = format!(in alloc; ": {len} bytes, weight {weight}, {equality}")?;
    out.extend_from_slice(rest.as_bytes())?;
    Ok(out)
}

fn about_made(alloc: Global, pool: &mut Pool, written: &str) -> Result<Vec<u8>, Unanswered> {
    let value = made(alloc, pool, written)?;
    Ok(about(alloc, pool, &value)?)
}

/// What the calls say of the value.
pub fn value_line(alloc: Global, written: &str) -> Result<Vec<u8>, Unanswered> {
    let mut pool = Pool::new(alloc);
    about_made(alloc, &mut pool, written)
}

fn about_list(alloc: Global, pool: &mut Pool, written: &str) -> Result<Vec<u8>, Unanswered> {
    let values = all_made(alloc, pool, written)?;
    let list = list_of(alloc, &values)?;
    Ok(about(alloc, pool, &list)?)
}

/// What the calls say of the list of the values.
pub fn list_line(alloc: Global, written: &str) -> Result<Vec<u8>, Unanswered> {
    let mut pool = Pool::new(alloc);
    about_list(alloc, &mut pool, written)
}

// The line that is printed of the values, and its measured length.
fn line(alloc: Global, pool: &Pool, values: &[Value]) -> Result<Vec<u8>, AllocError>
    requires { CanAllBeWritten pool.now (values_of values.now) }
{
    let len = measured_line(alloc, pool, values)?;
    if len > LONGEST_TEXT {
        return Ok(format!(in alloc; "text limit: {len} bytes")?.into_bytes());
    }
    let mut out = shown(alloc, line_text(alloc, pool, values)?)?;
    let rest = format!(in alloc; ": {len} bytes")?;
    out.extend_from_slice(rest.as_bytes())?;
    Ok(out)
}

fn line_of(alloc: Global, pool: &mut Pool, written: &str) -> Result<Vec<u8>, Unanswered> {
    let values = all_made(alloc, pool, written)?;
    Ok(line(alloc, pool, &values)?)
}

/// The line that is printed of the values, and its measured length.
pub fn print_values_line(alloc: Global, written: &str) -> Result<Vec<u8>, Unanswered> {
    let mut pool = Pool::new(alloc);
    line_of(alloc, &mut pool, written)
}

#[tactic(auto, using(crate::proofs::WrittenValues::written_grows))]
fn compared(alloc: Global, pool: &mut Pool, written: &str) -> Result<&'static str, Unanswered> {
    let (left, right) = written.split_once(';').ok_or(Unanswered)?;
    let left = made(alloc, pool, left)?;
    let right = made(alloc, pool, right)?;
    if !is_comparable(alloc, &left)? || !is_comparable(alloc, &right)? {
        return Ok("not comparable");
    }
    Ok(if are_equal(alloc, pool, &left, &right)? {
        "equal"
    } else {
        "not equal"
    })
}

/// Whether the two values are equal.
pub fn equal_line(alloc: Global, written: &str) -> Result<&'static str, Unanswered> {
    let mut pool = Pool::new(alloc);
    compared(alloc, &mut pool, written)
}
