//! Hooks that run before and after each piece.

/// A hook that is called before and after the work on each piece.
pub trait Gate: Sync {
    fn before(&self, piece: u64);

    fn after(&self, piece: u64);
}

/// A gate that does nothing.
pub struct Open;

impl Gate for Open {
    fn before(&self, _piece: u64) {}

    fn after(&self, _piece: u64) {}
}
