//! The components of a path.
ghost use Rattle.std.specs.Prelude.{◌≡◌, ◌<◌, ◌≤◌, ◌∷◌, ◌==◌, [], false, not, length, MatchOption, IfSome};
ghost use Rattle.std.specs.List.{position};
ghost use Rattle.vol_dir.specs.Walk.{components, has_zero, is_plain, IsComponent};

use vol_layout::slot::NAME;

/// Returns the first component of a path, cut to 14 bytes, and the rest of the path, or `None` if the path has no component. Several slashes in a row
/// count as one, and slashes at the end don't count. Costs a read of each byte up to the end of the component.
pub fn split_component(path: &[u8]) -> Option<(&[u8], &[u8])>
    ensures parts { MatchOption result (components path.now ≡ [])
        (λ parts. components path.now ≡ parts.0.now ∷ components parts.1.now) }
    ensures component { IfSome result (λ parts. IsComponent parts.0.now) }
    ensures nonzero { has_zero path.now ≡ false
        → IfSome result (λ parts. (has_zero parts.0.now ≡ false) × (has_zero parts.1.now ≡ false)) }
    ensures shorter { IfSome result (λ parts. length parts.1.now < length path.now) }
{
    let (_, path) = path.split_at(component_start(path)?);
    let end = first_slash(path).unwrap_or(path.len());
    let (component, rest) = path.split_at(end);
    Some((&component[..component.len().min(NAME)], rest))
}

/// True if a name is not empty and has no slash.
pub fn is_plain(name: &[u8]) -> bool
    ensures { result ≡ is_plain name.now }
{
    !name.is_empty() && !name.contains(&b'/')
}

/// Returns the position of a path's first component: of its first byte that isn't a slash.
fn component_start(path: &[u8]) -> Option<usize>
    ensures { result ≡ position (λ c. not (c == 47)) path.now }
{
    path.iter().position(|c| *c != b'/')
}

/// Returns the position of a path's first slash.
fn first_slash(path: &[u8]) -> Option<usize>
    ensures { result ≡ position (λ c. c == 47) path.now }
{
    path.iter().position(|c| *c == b'/')
}
