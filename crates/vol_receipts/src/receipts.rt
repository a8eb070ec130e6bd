//! The contents of a receipt.
use std::collections::LinkedList;
use vol_dir::Refusal;
use vol_layout::Edition;
use vol_volume::{Call, Done, Query, Reply};

/// A call or a query.
#[derive(Drop)]
pub enum Asked {
    /// A call, which may change the volume.
    Change(Call),
    /// A query, which changes nothing.
    Question(Query),
}

/// The outcome of a call or query.
#[derive(Drop)]
pub enum Outcome {
    /// The call was accepted, with this result.
    Accepted(Done),
    /// The call or query was refused. Never `NoMemory`, for which there is no receipt.
    Refused(Refusal),
    /// The query was answered with this reply.
    Answered(Reply),
}

/// A record of one call or query and its outcome.
#[derive(Drop)]
pub struct Receipt {
    /// The record number of an accepted call. For any other outcome, the number of records when the receipt was given, including records that were
    /// cut: the outcome belongs to the state after these records.
    pub at: u64,
    /// The call or query.
    pub asked: Asked,
    /// The outcome of the call or query.
    pub outcome: Outcome,
}

/// The start of a journal: the bytes of the image when it was mounted or after the last cut, and the number of records cut so far. Only contracts use
/// it; no value of it is made.
#[derive(Drop)]
pub struct Origin {
    /// The edition of the bytes.
    pub edition: Edition,
    /// The bytes of the image.
    pub bytes: LinkedList<u8>,
    /// The number of records that were cut, which is the number of the journal's first record.
    pub first: u64,
}
