//! Bytes as they are written in a line: `\n`, `\r`, `\t` and `\x5c` are bytes, and `{401 ~}` is `~` 401 times.

use crate::numbers::{digit, number, sides};
use crate::unanswered::Unanswered;
use std::alloc::{AllocError, Global};

/// The bytes that the written text stands for.
pub fn bytes_of(alloc: Global, text: &[u8]) -> Result<Vec<u8>, Unanswered> {
    let mut out = Vec::new(alloc);
    for (i, part) in text.split(|byte| *byte == b'{').enumerate() {
        if i == 0 {
            add_escaped(&mut out, part)?;
        } else {
            add_repeated(&mut out, part)?;
        }
    }
    Ok(out)
}

// Adds what stands behind a `{`: a number, a space, the bytes that are repeated, a `}`, and more text.
fn add_repeated(out: &mut Vec<u8>, part: &[u8]) -> Result<(), Unanswered> {
    let (head, rest) = sides(part, b'}')?;
    let (count, written) = sides(head, b' ')?;
    let mut unit = Vec::new(*out.allocator());
    add_escaped(&mut unit, written)?;
    repeat(out, number(count)?, &unit)?;
    add_escaped(out, rest)
}

fn repeat(out: &mut Vec<u8>, count: usize, unit: &[u8]) -> Result<(), AllocError> {
    for _ in 0..count {
        out.extend_from_slice(unit)?;
    }
    Ok(())
}

// Adds a text without repetitions.
fn add_escaped(out: &mut Vec<u8>, text: &[u8]) -> Result<(), Unanswered> {
    for (i, part) in text.split(|byte| *byte == b'\\').enumerate() {
        if i == 0 {
            out.extend_from_slice(part)?;
        } else {
            let (byte, rest) = escape(part)?;
            add_byte(out, byte)?;
            out.extend_from_slice(rest)?;
        }
    }
    Ok(())
}

fn add_byte(out: &mut Vec<u8>, byte: u8) -> Result<(), AllocError> {
    out.push(byte)?;
    Ok(())
}

// The byte of an escape, without its backslash, and what stands behind it.
fn escape(part: &[u8]) -> Result<(u8, &[u8]), Unanswered> {
    match part {
        [b'n', rest @ ..] => Ok((b'\n', rest)),
        [b'r', rest @ ..] => Ok((b'\r', rest)),
        [b't', rest @ ..] => Ok((b'\t', rest)),
        [b'x', high, low, rest @ ..] => Ok((hexadecimal(*high, *low)?, rest)),
        _ => Err(Unanswered),
    }
}

fn hexadecimal(high: u8, low: u8) -> Result<u8, Unanswered> {
    let sixteens = digit(high, 16)?.checked_mul(16).ok_or(Unanswered)?;
    let number = sixteens.checked_add(digit(low, 16)?).ok_or(Unanswered)?;
    u8::try_from(number).map_err(|_| Unanswered)
}

/// The bytes as they are written in a line.
pub fn shown(alloc: Global, bytes: &[u8]) -> Result<String, AllocError> {
    let mut out = String::new(alloc);
    for byte in bytes {
        show(&mut out, *byte)?;
    }
    Ok(out)
}

fn show(out: &mut String, byte: u8) -> Result<(), AllocError> {
    match byte {
        b'\n' => out.push_str("\\n"),
        b'\\' => out.push_str("\\x5c"),
        b' '..=b'~' => out.push(byte as char),
        _ => write!(out, "\\x{byte:02x}"),
    }
}
