//! What a file seems to be, as lines and as JSON.
#![tactic(auto)]

mod guess_json;
mod lines;
mod seen;
mod shell_words;
mod shown_path;

pub use guess_json::{seen_json, unread_json};
pub use lines::{MOST, seen_lines};
pub use seen::Seen;
pub use shell_words::file_word;
pub use shown_path::ShownPath;
