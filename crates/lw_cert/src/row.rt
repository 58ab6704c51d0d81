ghost use Rattle.std.specs.Prelude.{◌≡◌, ℕ, ◌<◌, ◌↔◌, [], List, MatchOption, MatchBool, IfOk, IsTrue};
ghost use Rattle.std.specs.Ordering.{nat_cmp};
ghost use Rattle.std.specs.Cmp.Lexicographic.{slice_cmp};
ghost use Rattle.std.specs.declared.cmp.Ordering.TheVariants.{Less};
ghost use Rattle.lw_cert.specs.Private.RowReading.{IsSeen, IsNamed, ReadsSeen, ReadsNames, ReadsRow, IsNoRow};

use crate::split::next_word;
use crate::words::{after, number};
use lw_formula::{Name, NameFault};
use lw_model::Model;
use std::alloc::{AllocError, Global};
use std::cmp::Ordering;

/// Whether the line is that of the world. What it says of the world is then added to the model; else the model may have
/// a part of it. It fails for want of memory alone.
pub fn read_row(
    alloc: Global,
    line: &[u8],
    world: usize,
    model: &mut Model,
) -> Result<bool, AllocError>
    requires { world < model.old.worlds }
    ensures { IfOk result (λ found.
        MatchBool found (ReadsRow world line.now model.old model.new) (IsNoRow model.old.worlds world line.now)) }
{
    let begins = format!(in alloc; "world {world} sees")?;
    let Some(rest) = after(line, begins.as_bytes()) else {
        return Ok(false);
    };
    let Some(names) = read_seen(alloc, rest, world, model)? else {
        return Ok(false);
    };
    let found = read_names(alloc, names, world, model)?;
    Ok(found)
}

// Adds the worlds that are seen, up to the word `true`, and gives what stands behind it; `None` where the bytes aren't
// such numbers.
fn read_seen<'a>(
    alloc: Global,
    bytes: &'a [u8],
    world: usize,
    model: &mut Model,
) -> Result<Option<&'a [u8]>, AllocError>
    requires { world < model.old.worlds }
    ensures { IfOk result (λ found. MatchOption found
        ((vs other : List ℕ) → IsSeen model.old.worlds 0 bytes.now vs other → ⊥)
        (λ names. ReadsSeen world bytes.now names.now model.old model.new)) }
{
    let worlds = model.worlds();
    let mut rest = bytes;
    let mut least = 0;
    while let Some((word, next)) = next_word(rest) {
        if word == b"true".as_slice() {
            return Ok(Some(next));
        }
        let Some(seen) = number(alloc, word)? else {
            return Ok(None);
        };
        if seen < least || seen >= worlds {
            return Ok(None);
        }
        model.add_pair(world, seen)?;
        least = seen + 1;
        rest = next;
    }
    Ok(None)
}

// Adds the variables that are true. Whether the bytes are their names in order.
fn read_names(
    alloc: Global,
    bytes: &[u8],
    world: usize,
    model: &mut Model,
) -> Result<bool, AllocError>
    requires { world < model.old.worlds }
    ensures { IfOk result (λ found. MatchBool found (ReadsNames world bytes.now model.old model.new)
        ((ps : List (List ℕ)) → IsNamed [] bytes.now ps → ⊥)) }
{
    let mut rest = bytes;
    let mut last: &[u8] = b"";
    while let Some((word, next)) = next_word(rest) {
        let name = match Name::from_bytes(alloc, word) {
            Ok(name) => name,
            Err(NameFault::BadName) => return Ok(false),
            Err(NameFault::Memory) => return Err(AllocError),
        };
        if !is_before(last, name.as_bytes()) {
            return Ok(false);
        }
        model.add_fact(world, &name)?;
        last = word;
        rest = next;
    }
    Ok(rest.is_empty())
}

// Whether the one stands before the other in byte order.
fn is_before(first: &[u8], second: &[u8]) -> bool
    ensures { IsTrue result ↔ (slice_cmp nat_cmp first.now second.now ≡ Less) }
{
    match first.cmp(second) {
        Ordering::Less => true,
        Ordering::Equal | Ordering::Greater => false,
    }
}
