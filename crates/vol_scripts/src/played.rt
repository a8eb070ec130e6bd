//! The results of a script's lines.
use vol_receipts::Receipt;

/// The result of one line.
#[derive(Drop)]
pub enum Played {
    /// The receipt of a call or a query.
    Told(Receipt),
    /// The journal was cut. Its next record has this number.
    Cut(u64),
    /// An allocation was refused: nothing was done, and there is no receipt.
    NoMemory,
    /// A view couldn't read the published version; there is no receipt.
    NotEntered,
    /// The line that marks a script as one for a view. No line is printed for it.
    View,
}
