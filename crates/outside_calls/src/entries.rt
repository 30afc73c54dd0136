//! The lines of a list, one by one.

use anyhow::{Context, Result, anyhow};

/// What a line of a list is.
#[derive(Clone, Copy)]
pub enum Entry<'a> {
    /// A comment, or nothing.
    Blank,
    /// From here on the store has no files.
    Store,
    /// The file of this name is to have the bytes of the parts that follow.
    File(&'a str),
    /// Some more bytes of the file.
    Part(Part<'a>),
    /// A call that has to be done, and of which nothing is told.
    Need(&'a str),
    /// A name, and the call of which one line is told.
    Call(&'a str, &'a str),
}

/// Some bytes of a file.
#[derive(Clone, Copy)]
pub enum Part<'a> {
    /// A text.
    Text(&'a str),
    /// A text and a line feed.
    Line(&'a str),
    /// A text so many times.
    Times(usize, &'a str),
    /// Eight bytes for each number, the least first.
    Numbers(&'a str),
    /// One byte for each number.
    Bytes(&'a str),
}

/// Its first word, and what stands behind the blank after it.
fn divided(text: &str) -> (&str, &str) {
    text.split_once(' ').unwrap_or((text, ""))
}

/// What a line says. Blanks at its front are passed over.
pub fn read_entry(line: &str) -> Result<Entry<'_>> {
    let (word, rest) = divided(line.trim_start());
    match word {
        "" | "#" => Ok(Entry::Blank),
        "store" => Ok(Entry::Store),
        "file" => Ok(Entry::File(rest)),
        "need" => Ok(Entry::Need(rest)),
        "call" => {
            let (name, words) = divided(rest);
            Ok(Entry::Call(name, words))
        }
        _ => Ok(Entry::Part(read_part(word, rest)?)),
    }
}

/// The part of a file that begins with this word.
fn read_part<'a>(word: &str, rest: &'a str) -> Result<Part<'a>> {
    match word {
        "text" => Ok(Part::Text(rest)),
        "line" => Ok(Part::Line(rest)),
        "times" => {
            let (count, text) = divided(rest);
            let count = count.parse::<usize>().context("how many times?")?;
            Ok(Part::Times(count, text))
        }
        "numbers" => Ok(Part::Numbers(rest)),
        "bytes" => Ok(Part::Bytes(rest)),
        _ => Err(anyhow!("no line of a list begins with {word:?}")),
    }
}

/// Appends the bytes of a part.
pub fn push_part(bytes: &mut Vec<u8>, part: Part) -> Result<()> {
    match part {
        Part::Text(text) => bytes.extend_from_slice(text.as_bytes())?,
        Part::Line(text) => {
            bytes.extend_from_slice(text.as_bytes())?;
            bytes.push(b'\n')?;
        }
        Part::Times(count, text) => {
            for _ in 0..count {
                bytes.extend_from_slice(text.as_bytes())?;
            }
        }
        Part::Numbers(numbers) => {
            for number in numbers.split_whitespace() {
                let number = number.parse::<u64>().context("a number of eight bytes")?;
                bytes.extend_from_slice(&number.to_le_bytes())?;
            }
        }
        Part::Bytes(numbers) => {
            for number in numbers.split_whitespace() {
                bytes.push(number.parse::<u8>().context("a byte")?)?;
            }
        }
    }
    Ok(())
}
