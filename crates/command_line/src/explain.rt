//! The option `--explain`, read before clap reads the words.
ghost use Rattle.std.specs.Prelude.{◌≡◌, map, string_bytes};
ghost use Rattle.command_line.specs.Explain.{asks_to_explain, has_explain};

/// True if `--explain` is one of the words after the first, which is the program's own name, and before a lone `--`. If clap accepts the words, it is
/// this option; words that clap refuses may have it too.
pub fn asks_to_explain(words: &[String]) -> bool
    ensures { result ≡ asks_to_explain (map string_bytes words.now) }
{
    match words.split_first() {
        Some((_, words)) => has_explain(words),
        None => false,
    }
}

/// True if one of the words before a lone `--` is `--explain`.
fn has_explain(words: &[String]) -> bool
    ensures { result ≡ has_explain (map string_bytes words.now) }
{
    for word in words {
        let word = word.as_str();
        if word == "--" {
            return false;
        }
        if word == "--explain" {
            return true;
        }
    }
    false
}
