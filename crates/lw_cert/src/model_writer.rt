ghost use Rattle.std.specs.Prelude.{◌≡◌, ℕ, ◌<◌, ◌++◌, ◌∷◌, [], List, OnOk};
ghost use Rattle.std.specs.Fmt.{decimal};
ghost use Rattle.lw_formula.specs.FiniteModel.{IsWellFormed};
ghost use Rattle.lw_cert.specs.Lines.{numbers, words};
ghost use Rattle.lw_cert.specs.Private.LineWriting.{WritesModel, WritesRows, WritesRow};

use lw_formula::Name;
use lw_model::Model;
use std::alloc::{AllocError, Global};

/// Writes the lines of the model, and of the world at which it refutes the formula. It fails for want of memory alone.
pub fn write_model(
    alloc: Global,
    model: &Model,
    world: usize,
    out: &mut Vec<u8>,
) -> Result<(), AllocError>
    requires { world < model.now.worlds }
    ensures { OnOk result (WritesModel model.now world out.old.items out.new.items) }
{
    let worlds = model.worlds();
    out.extend_from_slice(b"model\n")?;
    write_counted(alloc, b"worlds ", worlds, out)?;
    write_counted(alloc, b"refuted ", world, out)?;
    write_rows(alloc, model, out)?;
    out.extend_from_slice(b"end\n")?;
    Ok(())
}

// Writes the line that has the word, and behind it the number.
fn write_counted(
    alloc: Global,
    word: &[u8],
    number: usize,
    out: &mut Vec<u8>,
) -> Result<(), AllocError>
    ensures { OnOk result (out.new.items ≡ out.old.items ++ (word.now ++ decimal number ++ 10 ∷ [])) }
{
    out.extend_from_slice(word)?;
    write_number(alloc, number, out)?;
    out.push(b'\n')?;
    Ok(())
}

// Writes the line of each world.
fn write_rows(alloc: Global, model: &Model, out: &mut Vec<u8>) -> Result<(), AllocError>
    requires { IsWellFormed model.now }
    ensures { OnOk result (WritesRows model.now model.now.worlds out.old.items out.new.items) }
{
    for world in 0..model.worlds() {
        write_row(alloc, model, world, out)?;
    }
    Ok(())
}

// Writes the line of the world.
fn write_row(
    alloc: Global,
    model: &Model,
    world: usize,
    out: &mut Vec<u8>,
) -> Result<(), AllocError>
    requires { IsWellFormed model.now }
    ensures { OnOk result (WritesRow model.now world out.old.items out.new.items) }
{
    out.extend_from_slice(b"world ")?;
    write_number(alloc, world, out)?;
    out.extend_from_slice(b" sees")?;
    write_numbers(alloc, model.successors(world), out)?;
    out.extend_from_slice(b" true")?;
    write_names(model.names(world), out)?;
    out.push(b'\n')?;
    Ok(())
}

// Writes the numbers, each behind a space.
fn write_numbers(alloc: Global, all: &[usize], out: &mut Vec<u8>) -> Result<(), AllocError>
    ensures { OnOk result ((after : List ℕ) → out.new.items ++ after ≡ out.old.items ++ numbers all.now after) }
{
    for number in all {
        out.push(b' ')?;
        write_number(alloc, *number, out)?;
    }
    Ok(())
}

// Writes the names, each behind a space.
fn write_names(names: &[Name], out: &mut Vec<u8>) -> Result<(), AllocError>
    ensures { OnOk result (out.new.items ≡ out.old.items ++ words names.now) }
{
    for name in names {
        out.push(b' ')?;
        out.extend_from_slice(name.as_bytes())?;
    }
    Ok(())
}

// Writes the number in decimal.
fn write_number(alloc: Global, number: usize, out: &mut Vec<u8>) -> Result<(), AllocError>
    ensures { OnOk result (out.new.items ≡ out.old.items ++ decimal number) }
{
    let digits = format!(in alloc; "{number}")?;
    out.extend_from_slice(digits.as_bytes())?;
    Ok(())
}
