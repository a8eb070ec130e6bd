//! Words of a shell.
ghost use Rattle.std.specs.Prelude.{◌≡◌, ◌++◌, IfOk, OnOk, string_bytes};
ghost use Rattle.std.specs.List.{flat_map, list_any};
ghost use Rattle.std.specs.Str.{chars};
ghost use Rattle.identify_lines.specs.ShellWords.{escaped_word, file_word, is_special, path_word, quoted, quoted_char, shell_word, word_byte};

use crate::shown_path::{ShownByte, has_control};
use std::alloc::{AllocError, Global};

/// Returns the path of a file as one word of a shell, which is no option.
pub fn file_word(alloc: Global, path: &str) -> Result<String, AllocError>
    ensures { IfOk result (λ word. string_bytes word ≡ file_word path.now) }
{
    let path = path_word(alloc, path)?;
    shell_word(alloc, &path)
}

/// Returns a path that can be no option: one that begins with a hyphen gets `./` before it.
fn path_word(alloc: Global, path: &str) -> Result<String, AllocError>
    ensures { IfOk result (λ word. string_bytes word ≡ path_word path.now) }
{
    if path.as_bytes().starts_with(b"-") {
        format!(in alloc; "./{path}")
    } else {
        String::from_str(alloc, path)
    }
}

/// Returns a text as one word of a shell: as it is if the shell leaves it so, otherwise between quotes.
#[tactic(auto, unfolding(crate::specs::ShellWords::shell_word))]
fn shell_word(alloc: Global, text: &str) -> Result<String, AllocError>
    ensures { IfOk result (λ word. string_bytes word ≡ shell_word text.now) }
{
    if has_control(text) {
        escaped_word(alloc, text.as_bytes())
    } else if text.is_empty() || has_special(text.as_bytes()) {
        quoted(alloc, text)
    } else {
        String::from_str(alloc, text)
    }
}

/// True if a shell doesn't take one of these bytes as it is.
fn has_special(bytes: &[u8]) -> bool
    ensures { result ≡ list_any is_special bytes.now }
{
    bytes.iter().any(|byte| is_special(*byte))
}

/// True if a shell may not take a byte as it is.
fn is_special(byte: u8) -> bool
    ensures { result ≡ is_special byte }
{
    let is_lower = b'a' <= byte && byte <= b'z';
    let is_upper = b'@' <= byte && byte <= b'Z';
    let is_other = b'+' <= byte && byte <= b':' || byte == b'_';
    !(is_lower || is_upper || is_other)
}

/// Returns bytes between quotes with a dollar sign before them, between which a shell reads escapes, so that a terminal can show them.
fn escaped_word(alloc: Global, bytes: &[u8]) -> Result<String, AllocError>
    ensures { IfOk result (λ word. string_bytes word ≡ escaped_word bytes.now) }
{
    let mut word = String::from_str(alloc, "$'")?;
    push_escapes(&mut word, bytes)?;
    word.push_str("'")?;
    Ok(word)
}

/// Appends bytes as they are written where a shell reads escapes.
fn push_escapes(word: &mut String, bytes: &[u8]) -> Result<(), AllocError>
    ensures { OnOk result (string_bytes word.new ≡ string_bytes word.old ++ flat_map word_byte bytes.now) }
{
    'bytes: for byte in bytes {
        push_byte(word, *byte)?;
    }
    Ok(())
}

/// Appends a byte as it is written where a shell reads escapes.
fn push_byte(word: &mut String, byte: u8) -> Result<(), AllocError>
    ensures { OnOk result (string_bytes word.new ≡ string_bytes word.old ++ word_byte byte) }
{
    if byte == b'\'' {
        word.push_str("\\'")
    } else {
        write!(word, "{}", ShownByte(byte))
    }
}

/// Returns a text between quotes, in which a quote is written as a shell takes it.
fn quoted(alloc: Global, text: &str) -> Result<String, AllocError>
    ensures { IfOk result (λ word. string_bytes word ≡ quoted text.now) }
{
    let characters = characters(alloc, text)?;
    let mut word = String::from_str(alloc, "'")?;
    push_quoted(&mut word, &characters)?;
    word.push_str("'")?;
    Ok(word)
}

/// Returns the characters of a text.
fn characters(alloc: Global, text: &str) -> Result<Vec<char>, AllocError>
    ensures { IfOk result (λ characters. characters.items ≡ chars text.now) }
{
    text.chars().collect(alloc)
}

/// Appends characters as they are written between quotes.
fn push_quoted(word: &mut String, characters: &[char]) -> Result<(), AllocError>
    ensures { OnOk result (string_bytes word.new ≡ string_bytes word.old ++ flat_map quoted_char characters.now) }
{
    'characters: for character in characters {
        push_character(word, *character)?;
    }
    Ok(())
}

/// Appends a character as it is written between quotes.
fn push_character(word: &mut String, character: char) -> Result<(), AllocError>
    ensures { OnOk result (string_bytes word.new ≡ string_bytes word.old ++ quoted_char character) }
{
    if character == '\'' {
        word.push_str("'\\''")
    } else {
        word.push(character)
    }
}
