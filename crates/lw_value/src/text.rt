ghost use Rattle.std.specs.Prelude.{◌≡◌, ◌≤◌, ◌++◌, ◌∷◌, [], List, length, codes, IfOk, OnOk};
ghost use Rattle.lw_formula.specs.Formula.{Formula};
ghost use Rattle.std.specs.Fmt.{decimal};
ghost use Rattle.lw_pool.specs.Region.{tree_at};
ghost use Rattle.lw_read.specs.Text.{text_of};
ghost use Rattle.lw_cert.specs.Written.{IsCertificateLive};
ghost use Rattle.lw_value.specs.Values.{AreLive, AreItemsLive, seen, seen_all, items};
ghost use Rattle.lw_value.specs.Certified.{certified};
ghost use Rattle.lw_value.specs.Evidence.{HasWorlds, HaveWorlds};
ghost use Rattle.lw_value.specs.ValueTexts.{IsTextOf, IsLineOf, measure_of, line_measure, truth_text};
ghost use Rattle.lw_value.specs.Views.{value_of, values_of};
ghost use Rattle.lw_value.specs.Private.TextsLeft.{Appends, IsJoinOf, CanPrint, CanPrintAll, CanPrintPart, whole, rest, part_of, parts_of, Writes};

use crate::value::Value;
use lw_cert::{Certificate, certificate_text};
use lw_pool::Pool;
use lw_read::{LONGEST_TEXT, PrintFault, write_formula};
use std::alloc::{AllocError, Global};

/// What is left to be written.
#[derive(Clone, Copy)]
enum Work<'a> {
    /// A value.
    Whole(&'a Value),
    /// The items of a list that stand behind one that is written, and the closing bracket.
    Rest(&'a [Value]),
}

/// The text of the value: that of a formula has the fewest brackets, a text has no quotes, a list is its items' texts
/// between brackets and joined by `, `, and a certificate is its text without the last line feed. It fails for want of
/// memory alone.
pub fn value_text(alloc: Global, pool: &Pool, value: &Value) -> Result<Vec<u8>, AllocError>
    requires live { AreLive pool.now (value_of value.now) }
    requires worlds { HasWorlds (value_of value.now) }
    requires measured { measure_of (seen pool.now (value_of value.now)) ≤ LONGEST_TEXT }
    ensures { IfOk result (λ text. IsTextOf (seen pool.now (value_of value.now)) text.items) }
{
    let mut out = Vec::new(alloc);
    write_value(alloc, pool, value, &mut out)?;
    Ok(out)
}

/// What is printed of the values: their texts, joined by a space, and a line feed. It fails for want of memory alone.
pub fn line_text(alloc: Global, pool: &Pool, values: &[Value]) -> Result<Vec<u8>, AllocError>
    requires live { AreItemsLive pool.now (values_of values.now) }
    requires worlds { HaveWorlds (values_of values.now) }
    requires measured { line_measure (seen_all pool.now (values_of values.now)) ≤ LONGEST_TEXT }
    ensures { IfOk result (λ text. IsLineOf (seen_all pool.now (values_of values.now)) text.items) }
{
    let mut out = Vec::new(alloc);
    write_values(alloc, pool, values, &mut out)?;
    out.push(b'\n')?;
    Ok(out)
}

/// Writes the texts of the values, joined by a space.
fn write_values(
    alloc: Global,
    pool: &Pool,
    values: &[Value],
    out: &mut Vec<u8>,
) -> Result<(), AllocError>
    requires { CanPrintAll pool.now (values_of values.now) }
    ensures { OnOk result (Appends (IsJoinOf (codes " ") (seen_all pool.now (values_of values.now))) out.old.items out.new.items) }
{
    let Some((first, others)) = values.split_first() else {
        return Ok(());
    };
    write_value(alloc, pool, first, out)?;
    for value in others {
        out.push(b' ')?;
        write_value(alloc, pool, value, out)?;
    }
    Ok(())
}

/// Writes the text of the value behind what is there.
fn write_value(
    alloc: Global,
    pool: &Pool,
    value: &Value,
    out: &mut Vec<u8>,
) -> Result<(), AllocError>
    requires { CanPrint pool.now (value_of value.now) }
    ensures { OnOk result (Appends (IsTextOf (seen pool.now (value_of value.now))) out.old.items out.new.items) }
{
    let mut left = Vec::new(alloc);
    left.push(Work::Whole(value))?;
    while let Some(work) = left.pop() {
        write_work(alloc, pool, work, out, &mut left)?;
    }
    Ok(())
}

/// Writes what the work begins with, and puts the rest of it on the stack.
fn write_work<'a>(
    alloc: Global,
    pool: &Pool,
    work: Work<'a>,
    out: &mut Vec<u8>,
    left: &mut Vec<Work<'a>>,
) -> Result<(), AllocError>
    requires { CanPrintPart pool.now (part_of work) }
    ensures { OnOk result (Writes pool.now (part_of work.entry)
        out.old.items out.new.items (parts_of left.old.items) (parts_of left.new.items)) }
{
    match work {
        Work::Whole(value) => write_whole(alloc, pool, value, out, left),
        Work::Rest(values) => go_on(values, out, left),
    }
}

/// Writes what the value's text begins with, and puts the rest of it on the stack.
fn write_whole<'a>(
    alloc: Global,
    pool: &Pool,
    value: &'a Value,
    out: &mut Vec<u8>,
    left: &mut Vec<Work<'a>>,
) -> Result<(), AllocError>
    requires { CanPrint pool.now (value_of value.now) }
    ensures { OnOk result (Writes pool.now (whole (value_of value.now))
        out.old.items out.new.items (parts_of left.old.items) (parts_of left.new.items)) }
{
    match value {
        Value::Formula(id) => write_formula(alloc, pool, *id, out),
        Value::Truth(truth) => out.extend_from_slice(truth_text(*truth).as_bytes()),
        Value::Number(number) => write_number(alloc, *number, out),
        Value::Text(text) => out.extend_from_slice(text.as_bytes()),
        Value::Items(items) => open(items.as_slice(), out, left),
        Value::Logic(logic) => out.extend_from_slice(logic.word().as_bytes()),
        Value::Certificate(certificate) => write_certificate(alloc, pool, certificate, out),
        Value::Nothing => out.extend_from_slice(b"none"),
    }
}

/// Writes the opening bracket of a list of these items, and the closing one if there are none.
fn open<'a>(
    values: &'a [Value],
    out: &mut Vec<u8>,
    left: &mut Vec<Work<'a>>,
) -> Result<(), AllocError>
    ensures { OnOk result ((ts : List Formula) → CanPrintAll ts (values_of values.now)
        → Writes ts (whole (items (values_of values.now)))
        out.old.items out.new.items (parts_of left.old.items) (parts_of left.new.items)) }
{
    out.push(b'[')?;
    match values.split_first() {
        Some((first, others)) => push_parts(first, others, left),
        None => Ok(out.push(b']')?),
    }
}

/// Writes the comma behind an item if others follow, else the closing bracket.
fn go_on<'a>(
    values: &'a [Value],
    out: &mut Vec<u8>,
    left: &mut Vec<Work<'a>>,
) -> Result<(), AllocError>
    ensures { OnOk result ((ts : List Formula) → CanPrintAll ts (values_of values.now)
        → Writes ts (rest (values_of values.now))
        out.old.items out.new.items (parts_of left.old.items) (parts_of left.new.items)) }
{
    match values.split_first() {
        Some((first, others)) => {
            out.extend_from_slice(b", ")?;
            push_parts(first, others, left)
        }
        None => Ok(out.push(b']')?),
    }
}

/// Puts an item on the stack, with those behind it below.
fn push_parts<'a>(
    first: &'a Value,
    others: &'a [Value],
    left: &mut Vec<Work<'a>>,
) -> Result<(), AllocError>
    ensures { OnOk result (parts_of left.new.items ≡
        parts_of left.old.items ++ rest (values_of others.now) ∷ whole (value_of first.now) ∷ []) }
{
    left.push(Work::Rest(others))?;
    left.push(Work::Whole(first))?;
    Ok(())
}

/// Writes the number in decimal.
fn write_number(alloc: Global, number: u64, out: &mut Vec<u8>) -> Result<(), AllocError>
    ensures { OnOk result (out.new.items ≡ out.old.items ++ decimal number) }
{
    let digits = format!(in alloc; "{number}")?;
    out.extend_from_slice(digits.as_bytes())?;
    Ok(())
}

/// Writes the text of the certificate without its last line feed.
fn write_certificate(
    alloc: Global,
    pool: &Pool,
    certificate: &Certificate,
    out: &mut Vec<u8>,
) -> Result<(), AllocError>
    requires live { IsCertificateLive pool.now certificate.now }
    requires within { length (text_of (tree_at pool.now certificate.now.formula)) ≤ LONGEST_TEXT }
    ensures { OnOk result (Appends (IsTextOf (seen pool.now (certified certificate.now))) out.old.items out.new.items) }
{
    match certificate_text(alloc, pool, certificate) {
        Ok(mut text) => {
            text.pop();
            out.append(&mut text)
        }
        Err(PrintFault::Memory) => Err(AllocError),
        Err(PrintFault::TextLimit) => unreachable!(),
    }
}

/// The word that stands for the truth value.
pub fn truth_text(truth: bool) -> &'static str
    ensures { result.now ≡ truth_text truth }
{
    if truth { "yes" } else { "no" }
}
