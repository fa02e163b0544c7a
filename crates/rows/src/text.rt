// The texts of a table.

use crate::fault::Fault;
use crate::line::Lines;
use std::alloc::{AllocError, Global};

/// A text with a name.
#[derive(Drop)]
pub struct Named {
    name: String,
    bytes: Vec<u8>,
}

// The text of this name.
fn find_text<'t>(texts: &'t [Named], name: &str) -> Option<&'t [u8]> {
    for text in texts {
        if text.name.as_str() == name {
            return Some(text.bytes.as_slice());
        }
    }
    None
}

// What a letter behind a backslash stands for.
fn meaning(letter: char) -> Option<&'static str> {
    match letter {
        '\\' => Some("\\"),
        't' => Some("\t"),
        'r' => Some("\r"),
        's' => Some(" "),
        'e' => Some(""),
        _ => None,
    }
}

/// What this spells, where each backslash has a letter behind it that stands for something.
pub fn plain(alloc: Global, spelled: &str) -> Result<Option<String>, AllocError> {
    let mut text = String::new(alloc);
    let mut behind = false;
    for letter in spelled.chars() {
        if behind {
            let Some(meant) = meaning(letter) else {
                return Ok(None);
            };
            text.push_str(meant)?;
            behind = false;
        } else if letter == '\\' {
            behind = true;
        } else {
            text.push(letter)?;
        }
    }
    Ok(if behind { None } else { Some(text) })
}

// Adds what a line spells.
fn add_line(
    alloc: Global,
    lines: &Lines<'_>,
    spelled: &str,
    bytes: &mut Vec<u8>,
) -> Result<(), Fault> {
    match plain(alloc, spelled)? {
        Some(text) => Ok(bytes.extend_from_slice(text.as_bytes())?),
        None => Err(lines.fault("a backslash with no letter that it goes with")),
    }
}

/// Reads a text, which may be empty.
pub fn read_text(alloc: Global, lines: &mut Lines<'_>, texts: &[Named]) -> Result<Vec<u8>, Fault> {
    let mut bytes = Vec::new(alloc);
    for _ in 0..lines.count() {
        if let Some(spelled) = lines.take("|") {
            add_line(alloc, lines, spelled, &mut bytes)?;
            bytes.push(b'\n')?;
        } else if let Some(spelled) = lines.take("\\") {
            add_line(alloc, lines, spelled, &mut bytes)?;
        } else if let Some(name) = lines.take("&") {
            match find_text(texts, name) {
                Some(text) => bytes.extend_from_slice(text)?,
                None => return Err(lines.fault("no text above has this name")),
            }
        } else {
            break;
        }
    }
    Ok(bytes)
}

/// Reads the lines of a text, whose name was read, and adds it to the others.
pub fn read_named(
    alloc: Global,
    lines: &mut Lines<'_>,
    name: &str,
    texts: &mut Vec<Named>,
) -> Result<(), Fault> {
    if find_text(texts, name).is_some() {
        return Err(lines.fault("a text above has this name"));
    }
    let bytes = read_text(alloc, lines, texts)?;
    let name = String::from_str(alloc, name)?;
    texts.push(Named { name, bytes })?;
    Ok(())
}
