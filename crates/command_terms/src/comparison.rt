//! The ways in which `diff` compares two images.

use crate::looks::OutputForm;

/// The way in which two images are compared, and the format of what differs.
#[derive(Clone, Copy)]
pub enum Comparison {
    /// By their trees. With `times` the times of the last read and of the last change are compared too.
    Tree { times: bool, form: OutputForm },
    /// Field by field. With `all` each field is a line.
    Fields { all: bool, form: OutputForm },
}
