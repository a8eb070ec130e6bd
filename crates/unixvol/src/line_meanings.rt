//! The meanings of a script's line that can't be read.

use command_faults::{LineFlaw, WordForm};
use escaped_text::push_escaped;
use std::alloc::{AllocError, Global};

/// The greatest number of bytes of a word that are shown.
const MOST_SHOWN: usize = 40;

/// Returns the meaning of a script's line that can't be read, without the script's name.
pub fn line_meaning(
    alloc: Global,
    line: u64,
    flaw: &Option<LineFlaw>,
) -> Result<String, AllocError> {
    let Some(flaw) = flaw else {
        return format!(in alloc;
            "line {line} is no call or query; `unixvol play --help` has their forms"
        );
    };
    match flaw {
        LineFlaw::Word { at, word, wanted } => {
            let named = named_word(alloc, *at, word.as_slice())?;
            let wanted = form_in_words(*wanted);
            format!(in alloc; "line {line}: {named} isn't {wanted}")
        }
        LineFlaw::Extra { at, word } => {
            let named = named_word(alloc, *at, word.as_slice())?;
            format!(in alloc; "line {line}: {named} is one too many")
        }
        LineFlaw::Ends(wanted) => {
            let wanted = form_in_words(*wanted);
            format!(in alloc; "line {line} ends where {wanted} is wanted")
        }
        LineFlaw::Unended => format!(in alloc; "line {line} has no newline at its end"),
        LineFlaw::TooManyViews => format!(in alloc;
            "it is the seventeenth script for a view, and there can be 16"
        ),
    }
}

/// Returns a word with its column, counted from 1. Only the beginning of a long word is shown.
fn named_word(alloc: Global, at: u64, word: &[u8]) -> Result<String, AllocError> {
    let column = at.saturating_add(1);
    if word.is_empty() {
        return format!(in alloc; "the empty word at column {column}");
    }
    let mut bytes = Vec::new(alloc);
    push_escaped(&mut bytes, &word[..word.len().min(MOST_SHOWN)])?;
    let dots = if word.len() > MOST_SHOWN { ".." } else { "" };
    // Escaped text is ASCII.
    let text = str::from_utf8(&bytes).unwrap_or("");
    format!(in alloc; "the word `{text}{dots}` at column {column}")
}

/// Describes the form that a word must have.
fn form_in_words(form: WordForm) -> &'static str {
    match form {
        WordForm::Number => "a number up to 4294967295",
        WordForm::Id => "a number up to 65535",
        WordForm::Command => "a call, a query or `cut`",
        WordForm::Query => "a query, and a script for a view has no others",
        WordForm::Path => "a path",
        WordForm::Permissions => "an octal number up to 7777",
        WordForm::Bytes => "two hexadecimal digits for each byte, or `-`",
        WordForm::DeviceKind => "`c` or `b`",
        WordForm::DeviceNumber => "a number up to 255",
    }
}
