//! Mounted volumes.
ghost use Rattle.std.specs.Prelude.{◌≡◌, ◌<◌, IfOk, IfErr, IfSome, OnOk, OnErr, ◌≤◌, ◌+◌, ◌^◌, [], ◌∷◌, ◌++◌, length, vec_len, vec_capacity, None, Some, unwrap_or};
ghost use Rattle.std.specs.Result.{result_err};
ghost use Rattle.vol_layout.specs.Geometry.{Fits, geometry_of};
ghost use Rattle.vol_dir.specs.Tree.{state, free_count, shapes};
ghost use Rattle.vol_judge.specs.Sound.{IsSound};
ghost use Rattle.vol_volume.specs.Faults.{IsFaultOf};
ghost use Rattle.vol_volume.specs.Answer.{Answers};
ghost use Rattle.vol_volume.specs.Journal.{Refuses, MayAnswer, MayFollow};
ghost use Rattle.vol_volume.specs.Parts.{held, IsKept};
ghost use Rattle.vol_volume.specs.Verdict.{verdict};
ghost use Rattle.vol_volume.specs.Volume.{IsConsistent, Accepts, mounted, after_cut, reads_as};

use crate::answer::ask_image;
use crate::calls::{Call, Done, Record};
use crate::checked_calls::{check, make, stands};
use crate::queries::{Query, Reply};
use pdp_words::Image;
use std::alloc::{AllocError, Global};
use std::marker::Model;
use thiserror::Error;
use vol_dir::Refusal;
use vol_judge::{Examined, examine};
use vol_layout::{Edition, Geometry};

/// The reason why a volume wasn't mounted.
#[derive(Clone, Copy, Debug, PartialEq, Eq, Error)]
pub enum MountFault {
    /// The image isn't sound: the first of the twelve rules that it breaks.
    #[error("unsound, rule {0}")]
    Unsound(u8),
    /// Memory ran out.
    #[error("12 NoMemory")]
    NoMemory,
}

/// The error of a cut after which the next record's number would be 2^64 or more.
#[derive(Clone, Copy, Debug, Error)]
#[error("too many records")]
pub struct TooManyRecords;

/// The parts of a mounted volume.
#[derive(Drop)]
pub(crate) struct Parts {
    /// The volume's geometry.
    pub(crate) geometry: Geometry,
    /// The image after all calls so far.
    pub(crate) current: Image,
    /// The number of free blocks in the image.
    pub(crate) free: u32,
    /// The bytes that were mounted, or the image at the last cut.
    pub(crate) base: Vec<u8>,
    /// The calls accepted since the mount or the last cut.
    pub(crate) records: Vec<Record>,
    /// The number of records that cuts have removed.
    pub(crate) first: u64,
}

/// A mounted volume: a sound image, the bytes that were mounted (or the image at the last cut), and the journal of the calls accepted since. The
/// image always reads as exactly the tree that results from replaying the journal on those bytes.
#[derive(Drop)]
pub struct Volume {
    pub(crate) parts: Parts,
}

impl Model for Volume {
    ghost use Rattle.vol_volume.specs.Volume.{Mounted};
    ghost use Rattle.vol_volume.specs.Parts.{held, IsKept};

    ghost Value = { Mounted };

    ghost view = { λ v. held v.parts };

    ghost invariant = { λ v. IsKept v.parts };
}

impl Volume {
    /// Mounts the bytes of a volume, with an empty journal. Bytes past the volume's last block are kept. An unsound image isn't mounted. If mounting
    /// fails, the same bytes are handed back.
    ///
    /// Takes memory to judge the image, and for a copy of its bytes.
    pub fn mount(
        alloc: Global,
        edition: Edition,
        bytes: Vec<u8>,
    ) -> Result<Volume, (MountFault, Vec<u8>)>
        ensures mounted { IfOk result (λ volume. volume ≡ mounted edition bytes.items) }
        ensures sound { IfOk result (λ volume. IsSound edition bytes.items) }
        ensures fault { IfErr result (λ (fault, same). IsFaultOf edition bytes.items fault) }
        ensures handed_back { IfErr result (λ (fault, same). same.items ≡ bytes.items) }
    {
        let image = Image::from_bytes(bytes);
        match examine(alloc, edition, &image, true) {
            Ok(Ok(examined)) => Volume::mount_sound(alloc, edition, image, examined),
            Ok(Err(rule)) => Err((MountFault::Unsound(rule), image.into_bytes())),
            Err(_) => Err((MountFault::NoMemory, image.into_bytes())),
        }
    }

    /// Mounts an image that was judged sound.
    fn mount_sound(
        alloc: Global,
        edition: Edition,
        image: Image,
        examined: Examined,
    ) -> Result<Volume, (MountFault, Vec<u8>)>
        requires sound { IsSound edition image }
        requires sizes { examined.geometry ≡ geometry_of edition image }
        requires count { examined.free ≡ free_count examined.geometry (shapes examined.geometry image) }
        ensures mounted { IfOk result (λ volume. volume ≡ mounted edition image) }
        ensures fault { IfErr result (λ (fault, same). fault ≡ MountFault.NoMemory) }
        ensures handed_back { IfErr result (λ (fault, same). same.items ≡ image) }
    {
        let Ok(base) = Vec::from_slice(alloc, image.as_bytes()) else {
            return Err((MountFault::NoMemory, image.into_bytes()));
        };
        let parts = Parts {
            geometry: examined.geometry,
            current: image,
            free: examined.free,
            base,
            records: Vec::new(alloc),
            first: 0,
        };
        Ok(Volume { parts })
    }

    /// Returns the volume's edition.
    pub fn edition(&self) -> Edition
        ensures { result ≡ self.now.edition }
    {
        self.parts.geometry.edition
    }

    /// Returns the volume's geometry.
    pub fn geometry(&self) -> &Geometry
        ensures sizes { result.now ≡ geometry_of self.now.edition self.now.image }
        ensures fits { Fits result.now self.now.image }
    {
        stands(&self.parts.current, &self.parts.geometry);
        &self.parts.geometry
    }

    /// Returns the number of free blocks, which is stored, not counted.
    pub fn free_blocks(&self) -> u32
        ensures { result ≡ free_count (geometry_of self.now.edition self.now.image) (shapes (geometry_of self.now.edition self.now.image) self.now.image) }
    {
        self.parts.free
    }

    /// Returns the bytes that were mounted, or the image at the last cut.
    pub fn base(&self) -> &[u8]
        ensures { result.now ≡ self.now.base }
    {
        &self.parts.base
    }

    /// Returns the image after all calls so far.
    pub fn image(&self) -> &Image
        ensures { result.now ≡ self.now.image }
    {
        &self.parts.current
    }

    /// Returns the records of the calls accepted since the mount or the last cut, in order.
    pub fn journal(&self) -> &[Record]
        ensures { result.now ≡ self.now.journal }
    {
        &self.parts.records
    }

    /// Returns the number of records removed by cuts since the mount, which is the number of the journal's first record.
    pub fn first(&self) -> u64
        ensures { result ≡ self.now.first }
    {
        self.parts.first
    }

    /// Answers a query from the tree that the image reads as. First BadId is checked, then a path with a zero byte (Invalid), then the walk of the
    /// path (NotDirectory, Access, NoEntry). Stat checks nothing more. Read then checks that the node is a regular file (IsDirectory, NotRegular)
    /// that grants read (Access), and List that it is a directory (NotDirectory) that grants read (Access). NoMemory comes last, and only from Read
    /// and List.
    ///
    /// Stat takes no memory, Read one buffer of exactly the bytes in its reply, and List some memory for each name. All queries cost the walk of the
    /// path. In addition, Read costs as much as [`vol_file::read`], and List reads each slot and sorts the names.
    pub fn ask(&self, alloc: Global, query: &Query) -> Result<Reply, Refusal>
        ensures { Answers (reads_as self.now.edition self.now.image).tree query.now result }
    {
        ask_image(alloc, &self.parts.current, &self.parts.geometry, query)
    }

    /// Returns the first refusal, other than NoMemory, that [`Volume::call`] would report, or `None` if no check fails. Changes nothing.
    ///
    /// Takes no memory. Costs the walks of the call's paths, and one search of the last directory. A new node costs a
    /// search for a free i-number, removing a directory costs a read of its slots, and a write costs one block-map lookup
    /// for each logical block that it touches.
    pub fn refusal(&self, call: &Call) -> Option<Refusal>
        ensures { result ≡ verdict (reads_as self.now.edition self.now.image) call.now }
    {
        refusal_of(&self.parts, call)
    }

    /// Returns the answer that a call would get and that would be recorded, or its first refusal other than NoMemory. Changes nothing. The i-number
    /// of a new node is the one that [`Volume::call`] would use.
    ///
    /// Takes no memory. Costs as much as [`Volume::refusal`].
    pub fn foresee(&self, call: &Call) -> Result<Done, Refusal>
        ensures foreseen { IfOk result (λ done. MayFollow (reads_as self.now.edition self.now.image) (record { call = call.now; done = done })) }
        ensures refused { IfErr result (λ refusal. verdict (reads_as self.now.edition self.now.image) call.now ≡ Some refusal) }
    {
        foresee(&self.parts, call)
    }

    /// Makes a call if no check fails, appends it to the journal, and returns its answer. A refused call is handed back and changes nothing. An
    /// accepted call takes blocks only from the front of the free list, and puts the blocks that it frees there. Every file that it doesn't change
    /// keeps all bytes of its blocks.
    ///
    /// The checks run in this order. BadId: the user or group number is above the edition's limit. Invalid: a path has a zero byte. Then the refusals
    /// that the variant of [`Call`] lists, in its order. NoMemory comes last, before the first byte changes, and only if the journal can't get room
    /// for one more record.
    ///
    /// Takes memory only for the journal, even if the call is then refused. Costs one walk of each path, one search of the last directory, and the
    /// change. A new node costs two searches of the i-list, unless a cached i-number is free. A write costs a copy of its bytes, three block-map
    /// lookups for each block that it touches, and one for each stored block between the old size and the offset. Freeing blocks costs a read of each
    /// address in the file's block map.
    pub fn call(&mut self, alloc: Global, call: Call) -> Result<Done, (Refusal, Call)>
        ensures accepted { IfOk result (λ done. Accepts self.old self.new call done) }
        ensures refused { IfErr result (λ (refusal, same). Refuses (reads_as self.old.edition self.old.image) call refusal) }
        ensures handed_back { IfErr result (λ (refusal, same). same ≡ call) }
        ensures unchanged { IfErr result (λ (refusal, same). self.new ≡ self.old) }
    {
        // The journal grows in the allocator that it was created with.
        let _ = alloc;
        if self.parts.records.reserve(1).is_err() {
            let refusal = refusal_without_room(&self.parts, &call);
            return Err((refusal, call));
        }
        accept(&mut self.parts, call, None)
    }

    /// Makes a call with its recorded answer, so that a new node gets the recorded i-number, and appends the record to the journal. The record must
    /// be one that may come next. If memory runs out, hands the record back and changes nothing.
    ///
    /// Takes memory only for the journal. Costs as much as [`Volume::call`].
    pub fn redo(&mut self, alloc: Global, entry: Record) -> Result<(), (AllocError, Record)>
        requires { MayFollow (reads_as self.old.edition self.old.image) entry }
        ensures accepted { IfOk result (λ _. Accepts self.old self.new entry.call entry.done) }
        ensures handed_back { IfErr result (λ (error, same). same ≡ entry) }
        ensures unchanged { IfErr result (λ (error, same). self.new ≡ self.old) }
    {
        let _ = alloc;
        if self.parts.records.reserve(1).is_err() {
            return Err((AllocError, entry));
        }
        let Record { call, done } = entry;
        match accept(&mut self.parts, call, Some(done)) {
            Ok(_) => Ok(()),
            Err(_) => unreachable!(),
        }
    }

    /// Cuts the journal: drops its records, makes the present image the base, and adds the number of dropped records to the number of the first
    /// record. The image doesn't change. If a record's number would reach 2^64, nothing changes.
    ///
    /// Takes no memory, and frees the journal's memory. Costs a copy of the image's bytes, and dropping the journal.
    pub fn cut(&mut self) -> Result<(), TooManyRecords>
        ensures cut { OnOk result (self.new ≡ after_cut self.old) }
        ensures fault { OnErr result (2 ^ 64 ≤ self.old.first + length self.old.journal) }
        ensures unchanged { OnErr result (self.new ≡ self.old) }
    {
        cut_journal(&mut self.parts)
    }

    /// Returns the image's bytes and drops the journal. Takes no memory.
    pub fn unmount(self) -> Vec<u8>
        ensures bytes { result.items ≡ self.image }
        ensures consistent { IsConsistent self }
    {
        self.parts.current.into_bytes()
    }

    /// Does nothing. The contract states the invariant of every volume.
    pub fn check(&self)
        ensures { IsConsistent self.now }
    {
        // Reading a field gives the proof access to the invariant of the volume.
        let _ = &self.parts.geometry;
    }
}

/// Makes a call if no check fails, and appends its record to the journal, which has room for it. Otherwise hands the call back and changes nothing.
/// If a recorded answer is given, it becomes the answer.
pub(crate) fn accept(
    parts: &mut Parts,
    call: Call,
    recorded: Option<Done>,
) -> Result<Done, (Refusal, Call)>
    requires kept { IsKept parts.old }
    requires recorded { IfSome recorded (λ done. MayAnswer (state parts.old.geometry parts.old.current) call done) }
    requires room { vec_len parts.old.records < vec_capacity parts.old.records }
    ensures kept { IsKept parts.new }
    ensures accepted { IfOk result (λ done. Accepts (held parts.old) (held parts.new) call done) }
    ensures recorded { IfSome recorded (λ done. IfOk result (λ answer. answer ≡ done)) }
    ensures refused { IfErr result (λ (refusal, same). verdict (state parts.old.geometry parts.old.current) call ≡ Some refusal) }
    ensures handed_back { IfErr result (λ (refusal, same). same ≡ call) }
    ensures unchanged { OnErr result (held parts.new ≡ held parts.old) }
{
    stands(&parts.current, &parts.geometry);
    let performed = match make(
        &mut parts.current,
        &parts.geometry,
        parts.free,
        &call,
        recorded,
    ) {
        Ok(performed) => performed,
        Err(refusal) => return Err((refusal, call)),
    };
    parts.free = performed.free;
    let done = performed.done;
    if parts.records.push(Record { call, done }).is_err() {
        unreachable!();
    }
    Ok(done)
}

/// Cuts the journal and releases its memory. If a record's number would reach 2^64, nothing changes.
fn cut_journal(parts: &mut Parts) -> Result<(), TooManyRecords>
    requires kept { IsKept parts.old }
    ensures kept { IsKept parts.new }
    ensures cut { OnOk result (held parts.new ≡ after_cut (held parts.old)) }
    ensures room { OnOk result (vec_capacity parts.new.records ≡ 0) }
    ensures fault { OnErr result (2 ^ 64 ≤ parts.old.first + vec_len parts.old.records) }
    ensures unchanged { OnErr result (parts.new ≡ parts.old) }
{
    let Some(first) = parts.first.checked_add(parts.records.len() as u64) else {
        return Err(TooManyRecords);
    };
    parts.base.copy_from_slice(parts.current.as_bytes());
    parts.records.clear();
    parts.records.shrink_to_fit();
    parts.first = first;
    Ok(())
}

/// Returns the refusal of a call when the journal is full and can't grow: the refusal of the first failing check, else NoMemory.
fn refusal_without_room(parts: &Parts, call: &Call) -> Refusal
    requires kept { IsKept parts.now }
    requires full { vec_capacity parts.now.records < vec_len parts.now.records + 1 }
    ensures { result ≡ unwrap_or (verdict (state parts.now.geometry parts.now.current) call.now) Refusal.NoMemory }
{
    refusal_of(parts, call).unwrap_or(Refusal::NoMemory)
}

/// Returns the first refusal of a call other than NoMemory, or `None` if no check fails.
fn refusal_of(parts: &Parts, call: &Call) -> Option<Refusal>
    requires { IsKept parts.now }
    ensures { result ≡ verdict (state parts.now.geometry parts.now.current) call.now }
{
    foresee(parts, call).err()
}

/// Returns the answer that a call would get, or its first refusal other than NoMemory.
fn foresee(parts: &Parts, call: &Call) -> Result<Done, Refusal>
    requires { IsKept parts.now }
    ensures refusal { result_err result ≡ verdict (state parts.now.geometry parts.now.current) call.now }
    ensures answered { IfOk result (λ done. MayAnswer (state parts.now.geometry parts.now.current) call.now done) }
{
    stands(&parts.current, &parts.geometry);
    check(&parts.current, &parts.geometry, parts.free, call)
}
