use crate::unanswered::Unanswered;

/// The number of a word of digits below 2^64.
pub fn number(word: &[u8]) -> Result<usize, Unanswered> {
    let mut total = 0usize;
    for byte in word {
        let digit = digit(*byte, 10)?;
        total = total
            .checked_mul(10)
            .and_then(|tens| tens.checked_add(digit))
            .ok_or(Unanswered)?;
    }
    Ok(total)
}

/// The digit that the byte is in this base, which is 10 or 16.
pub fn digit(byte: u8, base: usize) -> Result<usize, Unanswered> {
    let digit = match byte {
        b'0'..=b'9' => (byte - b'0') as usize,
        b'a'..=b'f' => (byte - b'a') as usize + 10,
        _ => return Err(Unanswered),
    };
    if digit < base {
        Ok(digit)
    } else {
        Err(Unanswered)
    }
}

/// The two sides of the first such byte.
pub fn sides(bytes: &[u8], at: u8) -> Result<(&[u8], &[u8]), Unanswered> {
    let mut parts = bytes.splitn(2, |byte| *byte == at);
    match (parts.next(), parts.next()) {
        (Some(left), Some(right)) => Ok((left, right)),
        _ => Err(Unanswered),
    }
}
