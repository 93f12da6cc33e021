// What the tables of the tests share. A table is a text with a case a line: a file or a field, then `=>`, and then what it is read
// to, or where and why it is refused.
//
// In a file `|` stands for a line feed, `^` for a carriage return, `~` for a tab, `@` for a byte order mark, `!` for the byte 255,
// and `$` for a text that the table names.
use clr_text::FileError;
use std::alloc::{AllocError, Global};

/// The two sides of a case.
pub(crate) fn sides(case: &str) -> (&str, &str) {
    case.split_once("=>").unwrap_or((case, ""))
}

/// The two parts of a text around its first blank.
pub(crate) fn parts(text: &str) -> (&str, &str) {
    text.split_once(' ').unwrap_or((text, ""))
}

/// The whole numbers that stand in a text with blanks between them, and zeros.
pub(crate) fn numbers(text: &str) -> [u32; 8] {
    let mut found = [0; 8];
    for (number, word) in found.iter_mut().zip(text.split(' ')) {
        *number = word.parse::<u32>().unwrap_or(0);
    }
    found
}

// What a byte stands for that isn't one for itself.
fn meant(sign: u8) -> Option<&'static [u8]> {
    match sign {
        b'|' => Some(b"\n"),
        b'^' => Some(b"\r"),
        b'~' => Some(b"\t"),
        b'@' => Some(b"\xef\xbb\xbf"),
        b'!' => Some(b"\xff"),
        _ => None,
    }
}

/// The bytes of a file as a table writes it, with this text for `$`.
pub(crate) fn file_of(alloc: Global, text: &str, named: &str) -> Result<Vec<u8>, AllocError> {
    let mut bytes = Vec::new(alloc);
    for sign in text.as_bytes() {
        if *sign == b'$' {
            bytes.extend_from_slice(named.as_bytes())?;
            continue;
        }
        match meant(*sign) {
            Some(other) => bytes.extend_from_slice(other)?,
            None => bytes.push(*sign)?,
        }
    }
    Ok(bytes)
}

/// A refusal as the tables write it: the row, the column and why.
pub(crate) fn refusal(alloc: Global, error: FileError) -> Result<String, AllocError> {
    match error {
        FileError::Refused { row, column, why } => format!(in alloc; "{row} {column} {why:?}"),
        FileError::Memory => String::from_str(alloc, "memory"),
    }
}

/// A number that was read, or that there is none, as the tables write it.
pub(crate) fn number(alloc: Global, found: Option<u64>) -> Result<String, AllocError> {
    format!(in alloc; "{found:?}")
}
