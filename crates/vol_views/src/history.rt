//! Entries of the log.
use std::collections::LinkedList;
use vol_receipts::Origin;
use vol_volume::Record;

/// An entry of the log. It exists only in contracts; no value of it is made.
pub enum LogEntry {
    /// The volume was opened, with this origin and journal.
    Opened(Origin, LinkedList<Record>),
    /// A call was accepted.
    Made(Record),
}
