ghost use Rattle.std.specs.Prelude.{◌≡◌, ◌+◌, ◌++◌, ◌∷◌, ◌<◌, ◌≤◌, [], List, length, IfOk, OnOk, IsErrOf, codes};
ghost use Rattle.lw_formula.specs.Formula.{Formula};
ghost use Rattle.lw_pool.specs.Region.{tree_at, IsLive};
ghost use Rattle.lw_read.specs.Text.{text_of};
ghost use Rattle.lw_read.specs.Grammar.{rank};
ghost use Rattle.lw_read.specs.Private.PrinterPieces.{IsLivePiece, WritesPiece, node_head, node_tail};

use crate::lexeme::{rank, sign_text};
use crate::measure::text_length;
use crate::print_fault::PrintFault;
use crate::printer::tightness;
use lw_formula::Joint;
use lw_pool::{FormId, Node, Pool};
use std::alloc::{AllocError, Global};

/// The most bytes of a printed text.
pub const LONGEST_TEXT: usize = 1_048_576;

/// A piece of a text that is still to be written.
#[derive(Clone, Copy)]
pub enum Piece {
    /// An operand where a formula must bind so tightly.
    Operand(FormId, u8),
    /// The operand of `box` or `dia`.
    ModalOperand(FormId),
    /// A connective with its spaces.
    Sign(Joint),
    /// A closing bracket.
    Close,
}

/// The text of the pool's formula, with the fewest brackets with which it reads back. `TextLimit` comes where it has
/// more than 1,048,576 bytes, which is found without walking a formula twice that the pool shares; `Memory` comes for
/// want of memory alone.
pub fn print_formula(alloc: Global, pool: &Pool, id: FormId) -> Result<Vec<u8>, PrintFault>
    requires { IsLive pool.now id }
    ensures text { IfOk result (λ text. text.items ≡ text_of (tree_at pool.now id)) }
    ensures within { OnOk result (length (text_of (tree_at pool.now id)) ≤ LONGEST_TEXT) }
    ensures limit { IsErrOf result PrintFault.TextLimit → LONGEST_TEXT < length (text_of (tree_at pool.now id)) }
{
    let len = text_length(alloc, pool, id)?;
    if len > LONGEST_TEXT {
        return Err(PrintFault::TextLimit);
    }
    let mut out = Vec::new(alloc);
    write_formula(alloc, pool, id, &mut out)?;
    Ok(out)
}

/// Writes the text of the pool's formula behind what is there, whatever its length. It fails for want of memory alone.
pub fn write_formula(
    alloc: Global,
    pool: &Pool,
    id: FormId,
    out: &mut Vec<u8>,
) -> Result<(), AllocError>
    requires { IsLive pool.now id }
    ensures { OnOk result (out.new.items ≡ out.old.items ++ text_of (tree_at pool.now id)) }
{
    let mut stack = Vec::new(alloc);
    stack.push(Piece::Operand(id, 0))?;
    while let Some(piece) = stack.pop() {
        write_piece(pool, piece, out, &mut stack)?;
    }
    Ok(())
}

// Writes a piece, or what it begins with, and puts the rest of it on the stack.
fn write_piece(
    pool: &Pool,
    piece: Piece,
    out: &mut Vec<u8>,
    stack: &mut Vec<Piece>,
) -> Result<(), AllocError>
    requires { IsLivePiece pool.now piece }
    ensures { OnOk result
        (WritesPiece pool.now piece out.old.items out.new.items stack.old.items stack.new.items) }
{
    match piece {
        Piece::Operand(id, least) => {
            let node = pool.node(id);
            if tightness(node.joint()) < least {
                write_bracketed(node, out, stack)?;
            } else {
                write_node(node, out, stack)?;
            }
        }
        Piece::ModalOperand(id) => {
            let node = pool.node(id);
            if tightness(node.joint()) < 5 {
                write_bracketed(node, out, stack)?;
            } else {
                out.push(b' ')?;
                write_node(node, out, stack)?;
            }
        }
        Piece::Sign(sign) => out.extend_from_slice(sign_text(sign).as_bytes())?,
        Piece::Close => out.push(b')')?,
    }
    Ok(())
}

// Writes what the text of the node's formula begins with, in brackets.
fn write_bracketed(node: &Node, out: &mut Vec<u8>, stack: &mut Vec<Piece>) -> Result<(), AllocError>
    ensures text { OnOk result (out.new.items ≡ out.old.items ++ (codes "(" ++ node_head node.now)) }
    ensures rest { OnOk result (stack.new.items ≡ stack.old.items ++ (Piece.Close ∷ node_tail node.now)) }
{
    out.push(b'(')?;
    stack.push(Piece::Close)?;
    write_node(node, out, stack)?;
    Ok(())
}

// Writes what the text of the node's formula begins with.
fn write_node(node: &Node, out: &mut Vec<u8>, stack: &mut Vec<Piece>) -> Result<(), AllocError>
    ensures text { OnOk result (out.new.items ≡ out.old.items ++ node_head node.now) }
    ensures rest { OnOk result (stack.new.items ≡ stack.old.items ++ node_tail node.now) }
{
    match node {
        Node::Var(name) => out.extend_from_slice(name.as_bytes())?,
        Node::Bot => out.extend_from_slice(b"false")?,
        Node::Top => out.extend_from_slice(b"true")?,
        Node::Not(a) => {
            out.extend_from_slice(b"~")?;
            stack.push(Piece::Operand(*a, 5))?;
        }
        Node::Nec(a) => {
            out.extend_from_slice(b"box")?;
            stack.push(Piece::ModalOperand(*a))?;
        }
        Node::Poss(a) => {
            out.extend_from_slice(b"dia")?;
            stack.push(Piece::ModalOperand(*a))?;
        }
        Node::And(a, b) => push_operands(Joint::And, *a, *b, stack)?,
        Node::Or(a, b) => push_operands(Joint::Or, *a, *b, stack)?,
        Node::Imp(a, b) => push_operands(Joint::Imp, *a, *b, stack)?,
        Node::Iff(a, b) => push_operands(Joint::Iff, *a, *b, stack)?,
    }
    Ok(())
}

// Puts two operands and the connective between them on the stack.
fn push_operands(
    sign: Joint,
    left: FormId,
    right: FormId,
    stack: &mut Vec<Piece>,
) -> Result<(), AllocError>
    ensures { OnOk result (stack.new.items ≡ stack.old.items
        ++ (Piece.Operand right (rank sign) ∷ Piece.Sign sign ∷ Piece.Operand left (rank sign + 1) ∷ [])) }
{
    stack.push(Piece::Operand(right, rank(sign)))?;
    stack.push(Piece::Sign(sign))?;
    stack.push(Piece::Operand(left, rank(sign) + 1))?;
    Ok(())
}
