//! Patterns that match names.
#![tactic(auto)]

ghost use Rattle.std.specs.Prelude.{◌≡◌, ◌≤◌, ℕ, List, length};
ghost use Rattle.name_patterns.specs.Like.{ends_like, is_like, last_name, stands_for};

/// True if the pattern matches the name: a `*` matches any number of bytes, a `?` matches one byte, and every other byte matches itself.
///
/// Costs at most 2^n steps for a name of n bytes, whatever the pattern. The recursion is at most 2n calls deep.
#[cycle(like)]
pub fn is_like(pattern: &[u8], name: &[u8]) -> bool
    ensures { result ≡ is_like pattern.now name.now }
{
    if pattern.is_empty() {
        return name.is_empty();
    }
    let rest = &pattern[1..];
    if pattern[0] == b'*' {
        return ends_like(after_stars(rest), name);
    }
    if name.is_empty() {
        return false;
    }
    if !stands_for(pattern[0], name[0]) {
        return false;
    }
    is_like(rest, &name[1..])
}

/// True if a byte of a pattern, other than `*`, matches a byte of a name.
fn stands_for(first: u8, byte: u8) -> bool
    ensures { result ≡ stands_for first byte }
{
    first == b'?' || first == byte
}

/// True if the pattern matches some end of the name: the whole name, or the name without any number of its first bytes.
#[cycle(like)]
fn ends_like(pattern: &[u8], name: &[u8]) -> bool
    ensures { result ≡ ends_like (is_like pattern.now) name.now }
{
    if is_like(pattern, name) {
        return true;
    }
    if name.is_empty() {
        return false;
    }
    ends_like(pattern, &name[1..])
}

/// Returns the pattern without the `*` bytes at its start.
fn after_stars(pattern: &[u8]) -> &[u8]
    ensures like { (name : List ℕ) → ends_like (is_like result.now) name ≡ ends_like (is_like pattern.now) name }
    ensures length { length result.now ≤ length pattern.now }
{
    let mut rest = pattern;
    'stars: while !rest.is_empty() && rest[0] == b'*' {
        rest = &rest[1..];
    }
    rest
}

/// Returns the last name of a path: the part after its last slash, or the whole path if it has no slash.
pub fn last_name(path: &[u8]) -> &[u8]
    ensures { result.now ≡ last_name path.now path.now }
{
    let mut name = path;
    let mut rest = path;
    'bytes: while !rest.is_empty() {
        let more = &rest[1..];
        if rest[0] == b'/' {
            name = more;
        }
        rest = more;
    }
    name
}
