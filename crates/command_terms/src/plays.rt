//! The forms in which `play` prints its results.

/// The form in which the results of scripts are printed.
#[derive(Clone, Copy)]
pub enum PlayForm {
    /// As lines. With `trace` what each record of the journal changed follows.
    Lines { trace: bool },
    /// As JSON.
    Json,
}
