ghost use Rattle.std.specs.Prelude.{◌≡◌, ◌++◌, IfOk, OnOk, codes};
ghost use Rattle.lw_formula.specs.Tree.{tree_of};
ghost use Rattle.lw_read.specs.Text.{text_of, tightness_of, operand_text, modal_operand_text};

use crate::lexeme::rank;
use lw_formula::{Form, Joint};
use std::alloc::{AllocError, Global};

/// The text of a formula, with the fewest brackets with which it reads back. It fails for want of memory alone.
pub fn print_form(alloc: Global, form: &Form) -> Result<Vec<u8>, AllocError>
    ensures { IfOk result (λ text. text.items ≡ text_of (tree_of form.now)) }
{
    let mut out = Vec::new(alloc);
    write_form(&mut out, form)?;
    Ok(out)
}

#[cycle(writing)]
fn write_form(out: &mut Vec<u8>, form: &Form) -> Result<(), AllocError>
    ensures { OnOk result (out.new.items ≡ out.old.items ++ text_of (tree_of form.now)) }
{
    match form {
        Form::Var(name) => out.extend_from_slice(name.as_bytes())?,
        Form::Bot => out.extend_from_slice(b"false")?,
        Form::Top => out.extend_from_slice(b"true")?,
        Form::Not(a) => {
            out.push(b'~')?;
            write_operand(out, a, 5)?;
        }
        Form::Nec(a) => {
            out.extend_from_slice(b"box")?;
            write_modal_operand(out, a)?;
        }
        Form::Poss(a) => {
            out.extend_from_slice(b"dia")?;
            write_modal_operand(out, a)?;
        }
        Form::And(a, b) => {
            write_operand(out, a, 5)?;
            out.extend_from_slice(b" & ")?;
            write_operand(out, b, 4)?;
        }
        Form::Or(a, b) => {
            write_operand(out, a, 4)?;
            out.extend_from_slice(b" v ")?;
            write_operand(out, b, 3)?;
        }
        Form::Imp(a, b) => {
            write_operand(out, a, 3)?;
            out.extend_from_slice(b" -> ")?;
            write_operand(out, b, 2)?;
        }
        Form::Iff(a, b) => {
            write_operand(out, a, 2)?;
            out.extend_from_slice(b" <-> ")?;
            write_operand(out, b, 1)?;
        }
    }
    Ok(())
}

// Writes an operand where a formula must bind so tightly.
#[cycle(writing)]
fn write_operand(out: &mut Vec<u8>, operand: &Form, least: u8) -> Result<(), AllocError>
    ensures { OnOk result (out.new.items
        ≡ out.old.items ++ operand_text least (tree_of operand.now) (text_of (tree_of operand.now))) }
{
    if tightness(operand.joint()) < least {
        write_bracketed(out, operand)?;
    } else {
        write_form(out, operand)?;
    }
    Ok(())
}

// Writes the operand of `box` or `dia`.
#[cycle(writing)]
fn write_modal_operand(out: &mut Vec<u8>, operand: &Form) -> Result<(), AllocError>
    ensures { OnOk result (out.new.items
        ≡ out.old.items ++ modal_operand_text (tree_of operand.now) (text_of (tree_of operand.now))) }
{
    if tightness(operand.joint()) < 5 {
        write_bracketed(out, operand)?;
    } else {
        out.push(b' ')?;
        write_form(out, operand)?;
    }
    Ok(())
}

#[cycle(writing)]
fn write_bracketed(out: &mut Vec<u8>, form: &Form) -> Result<(), AllocError>
    ensures { OnOk result (out.new.items ≡ out.old.items ++ (codes "(" ++ text_of (tree_of form.now) ++ codes ")")) }
{
    out.push(b'(')?;
    write_form(out, form)?;
    out.push(b')')?;
    Ok(())
}

/// How tightly a formula binds with this main connective: 1 for `<->` to 4 for `&`, and 5 where there is none between two
/// operands.
pub fn tightness(joint: Option<Joint>) -> u8
    ensures { result ≡ tightness_of joint }
{
    match joint {
        Some(sign) => rank(sign),
        None => 5,
    }
}
