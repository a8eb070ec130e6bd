//! The contents of an open handle.
ghost use Rattle.std.specs.Prelude.{◌≡◌, ◌+◌, ◌^◌, ◌≤◌, [], true, false, IfOk, IfErr, IfSome, IfNone, OnErr, length};
ghost use Rattle.vol_volume.specs.Journal.{Refuses};
ghost use Rattle.vol_volume.specs.Volume.{after_cut, reads_as};
ghost use Rattle.unixvol_c.specs.Calls.{IsMade};
ghost use Rattle.unixvol_c.specs.Opened.{CanCut, HasGrowth, IsCounted, call_bytes, opened, trimmed};

use std::alloc::Global;
use std::marker::Model;
use vol_dir::Refusal;
use vol_volume::{Call, Done, Volume};

/// The number of bytes that each record of the journal counts as, besides the bytes of its paths and those that it writes.
const RECORD: usize = 128;

/// An open volume, and the last answer of unknown length. The journal is cut as soon as it counts as more than an eighth of the image's bytes.
#[derive(Drop)]
pub struct OpenVolume {
    volume: Volume,
    /// The number of bytes that the journal counts as.
    growth: usize,
    answer: Vec<u8>,
}

impl Model for OpenVolume {
    ghost use Rattle.unixvol_c.specs.Opened.{Opened, IsCounted};

    ghost Value = { Opened };

    ghost view = { λ held. record { volume = held.volume; answer = held.answer.items } };

    ghost invariant = { λ held. IsCounted held.volume held.growth };
}

impl OpenVolume {
    /// Wraps a volume that was just mounted. Takes no memory.
    pub(crate) fn new(alloc: Global, volume: Volume) -> OpenVolume
        requires { volume.journal ≡ [] }
        ensures { result ≡ opened volume }
    {
        OpenVolume {
            volume,
            growth: 0,
            answer: Vec::new(alloc),
        }
    }

    /// Returns the volume.
    pub(crate) fn volume(&self) -> &Volume
        ensures { result.now ≡ self.now.volume }
    {
        &self.volume
    }

    /// Makes a call, as [`Volume::call`] does, and cuts the journal if it has grown too large.
    #[tactic(auto, using(crate::proofs::JournalBytes::growth_after))]
    pub(crate) fn call(&mut self, alloc: Global, call: Call) -> Result<Done, Refusal>
        ensures accepted { IfOk result (λ done. IsMade self.old self.new call done) }
        ensures refused { IfErr result (λ refusal. Refuses (reads_as self.old.volume.edition self.old.volume.image) call refusal) }
        ensures unchanged { OnErr result (self.new ≡ self.old) }
    {
        let growth = grown(self.growth, &call);
        let done = match self.volume.call(alloc, call) {
            Ok(done) => done,
            Err((refusal, _)) => return Err(refusal),
        };
        self.growth = trim(&mut self.volume, growth);
        Ok(done)
    }

    /// Returns the stored answer.
    pub(crate) fn answer(&self) -> &[u8]
        ensures { result.now ≡ self.now.answer }
    {
        &self.answer
    }

    /// Stores an answer in place of the one before.
    pub(crate) fn keep(&mut self, answer: Vec<u8>)
        ensures { self.new ≡ record self.old { answer = answer.items } }
    {
        self.answer = answer;
    }

    /// Cuts the journal, as [`Volume::cut`] does. Returns false if it can't be cut.
    pub(crate) fn cut(&mut self) -> bool
        ensures cut { CanCut self.old.volume → (result ≡ true) × (self.new ≡ record self.old { volume = after_cut self.old.volume }) }
        ensures stays { 2 ^ 64 ≤ self.old.volume.first + length self.old.volume.journal → (result ≡ false) × (self.new ≡ self.old) }
    {
        let is_cut = cut(&mut self.volume);
        if is_cut {
            self.growth = 0;
        }
        is_cut
    }
}

/// Cuts the journal of a volume if it counts as more than an eighth of the image's bytes, and returns the number of bytes that it then counts as. If
/// the number of the next record would reach 2^64, nothing is cut.
fn trim(volume: &mut Volume, growth: Option<usize>) -> usize
    requires { HasGrowth volume.old growth }
    ensures trimmed { volume.new ≡ trimmed volume.old }
    ensures counted { IsCounted volume.new result }
{
    if let Some(growth) = growth
        && growth <= volume.image().len() / 8
    {
        return growth;
    }
    volume.image().fits_in_memory();
    if cut(volume) { 0 } else { usize::MAX }
}

/// Cuts the journal of a volume. Returns false if the number of the next record would reach 2^64.
fn cut(volume: &mut Volume) -> bool
    ensures cut { CanCut volume.old → (result ≡ true) × (volume.new ≡ after_cut volume.old) }
    ensures stays { 2 ^ 64 ≤ volume.old.first + length volume.old.journal → (result ≡ false) × (volume.new ≡ volume.old) }
{
    let is_cut = volume.cut().is_ok();
    // Reading the first record's number, which is below 2^64, lets the proof show that the journal could be cut.
    let _ = volume.first();
    is_cut
}

/// Returns the number of bytes that a journal counts as with one more call, or `None` if it is 2^64 or more.
fn grown(growth: usize, call: &Call) -> Option<usize>
    ensures some { IfSome result (λ sum. sum ≡ growth + call_bytes call.now) }
    ensures none { IfNone result (2 ^ 64 ≤ growth + call_bytes call.now) }
{
    let (first, second) = lengths(call);
    growth
        .checked_add(RECORD)?
        .checked_add(first)?
        .checked_add(second)
}

/// Returns two numbers of bytes of a call: the length of its first path, and the length of its second path or of the bytes that it writes.
fn lengths(call: &Call) -> (usize, usize)
    ensures { 128 + result.0 + result.1 ≡ call_bytes call.now }
{
    match call {
        Call::Link { source, target, .. } => (source.as_slice().len(), target.as_slice().len()),
        Call::Write { path, bytes, .. } => (path.as_slice().len(), bytes.as_slice().len()),
        Call::Create { path, .. }
        | Call::Mkdir { path, .. }
        | Call::Unlink { path, .. }
        | Call::Rmdir { path, .. }
        | Call::Truncate { path, .. }
        | Call::Chmod { path, .. }
        | Call::Chown { path, .. }
        | Call::Times { path, .. }
        | Call::Mknod { path, .. } => (path.as_slice().len(), 0),
    }
}
