//! A sweep over an image by any number of seats, each of which draws one piece after another, and the report that it makes.
ghost use Rattle.std.specs.Prelude.{◌≡◌, ◌≢◌, ◌<◌, ◌≤◌, Ok, IfOk, IfErr, ℕ, ◌+◌, ◌^◌, List, All, Err, length, vec_len, ◌-◌, ◌*◌, if◌then◌else◌, Some, true, IsErr};
ghost use Rattle.count_table.specs.Tallies.{IsSeatAt, table_shape};
ghost use Rattle.vol_layout.specs.Geometry.{Fits, geometry_read};
ghost use Rattle.vol_layout.specs.declared.geometry.Geometry.{Geometry};
ghost use Rattle.vol_reports.specs.Words.{HasWords};
ghost use Rattle.vol_check.specs.declared.checker.Checker.TheVariants.{Blocks, Entries};
ghost use Rattle.vol_check.specs.Seats.{IsSeatOf, IsOf, is_stopped, found_no_memory};
ghost use Rattle.vol_check.specs.Layouts.{IsFor, IsSeatIn, HasSwept, HasSameHead, seat_count, pieces_of, pieces_in};
ghost use Rattle.vol_check.specs.Notes.{Stays, Notes};
ghost use Rattle.vol_check.specs.Steps.{Stepped, Works, Ran};
ghost use Rattle.vol_check.specs.Parts.{part_count};
ghost use Rattle.vol_check.specs.Shapes.{HasWordsOf};
ghost use Rattle.vol_dir.specs.Entries.{entry_in, entry_at, slot_count};
ghost use Rattle.count_table.specs.Sums.{below};
ghost use Rattle.vol_check.specs.Slots.{slot_weight, slot_kept, part_sum};
ghost use Rattle.std.specs.List.{count_by, list_any};
ghost use Rattle.vol_check.specs.SweepReports.{IsReport};

use crate::checker::Checker;
use crate::checkers::MOST_WORKERS;
use crate::deal::{deal, links_for, piece_count, shape_for, starts_for};
use crate::entry_counts::{count_blocks, count_entry};
use crate::free_walk::mark_free;
use crate::gate::{Gate, Open};
use crate::gather::gather;
use crate::inode_marks::mark_inode;
use crate::parts::{PART_BLOCKS, Part, part_at};
use crate::seats::{CheckSeat, Piece};
use crate::slots::keep_entry;
use crate::sweeps::Sweep;
use count_table::Tally;
use pdp_words::{BLOCK, Image};
use std::alloc::{AllocError, Global};
use std::thread;
use std::thread::Threads;
use vol_dir::entries::{SLOTS, slot_count};
use vol_file::{block_at, next_block};
use vol_layout::i_list::kind;
use vol_layout::slot::SLOT;
use vol_layout::{Edition, Geometry, Kind, Slot};
use vol_reports::{EnteredName, Report, block_report, entry_report, name_report};

impl Sweep {
    /// Returns a sweep and its seats. The sweep works for this image and for any other of the same length with the same bytes before the data zone.
    /// Reads none of the image's data blocks.
    ///
    /// Takes memory for a seat for each thread. A sweep over blocks takes sixteen bytes for each data block and each i-number; a sweep over entries
    /// or names takes at most sixteen for each i-number.
    pub fn new(
        alloc: Global,
        edition: Edition,
        image: &Image,
        checker: Checker,
        seats: usize,
    ) -> Result<(Sweep, Vec<CheckSeat>), AllocError>
        requires first { 1 ≤ seats }
        requires last { seats ≤ MOST_WORKERS }
        ensures edition { IfOk result (λ s. s.0.edition ≡ edition) }
        ensures checker { IfOk result (λ s. s.0.checker ≡ checker) }
        ensures image { IfOk result (λ s. IsFor s.0 image.now) }
        ensures others { IfOk result (λ s. (other : List ℕ) → HasSameHead edition image.now other → IsFor s.0 other) }
        ensures pieces { IfOk result (λ s. pieces_of s.0 ≡ pieces_in checker (geometry_read edition image.now) image.now) }
        ensures count { IfOk result (λ s. (vec_len s.1 ≡ seats) × (seat_count s.0 ≡ seats)) }
        ensures own { IfOk result (λ s. All (IsSeatIn s.0) s.1.items) }
        ensures knows { IfOk result (λ s. (bytes : List ℕ) → All (HasSwept s.0 bytes) s.1.items) }
    {
        let layout = Geometry::read(edition, image);
        let starts = starts_for(alloc, checker, image, &layout)?;
        let links = links_for(alloc, checker, image, &layout)?;
        let pieces = piece_count(checker, &layout, &starts);
        let (tally, first) = Tally::new(alloc, shape_for(checker, &layout, pieces, seats as u64))?;
        let dealt = deal(alloc, &tally, first, seats)?;
        Ok((
            Sweep {
                tally,
                edition,
                checker,
                layout,
                pieces,
                starts,
                links,
            },
            dealt,
        ))
    }

    /// Draws a piece and works on it; returns `None` if none is left.
    ///
    /// Takes a byte for each block of the volume if the piece is the free list; thirty-two for each block-map position of a file that points to an
    /// indirect block; 2 KB in a sweep for entries; and some memory for each entry in a sweep for names. If memory runs out, this seat fails from
    /// then on.
    pub fn step(
        &self,
        alloc: Global,
        image: &Image,
        seat: &mut CheckSeat,
    ) -> Result<Option<Piece>, AllocError>
        requires own { IsSeatIn self.now seat.old }
        requires layout { IsFor self.now image.now }
        requires image { HasSwept self.now image.now seat.old }
        ensures { Stepped self.now image.now seat.old seat.new result }
    {
        self.step_at(alloc, &Open, image, seat)
    }

    /// Does the same as [`Sweep::step`], and calls a gate before and after the work.
    pub(crate) fn step_at<G: Gate>(
        &self,
        alloc: Global,
        gate: &G,
        image: &Image,
        seat: &mut CheckSeat,
    ) -> Result<Option<Piece>, AllocError>
        requires own { IsSeatOf self.now.tally seat.old }
        requires layout { IsFor self.now image.now }
        requires image { IsOf self.now.checker self.now.layout image.now seat.old }
        ensures { Stepped self.now image.now seat.old seat.new result }
    {
        if seat.spoiled {
            return Err(AllocError);
        }
        if seat.ended {
            return Ok(None);
        }
        let number = self.tally.claim(&mut seat.seat);
        if number >= self.pieces {
            seat.ended = true;
            return Ok(None);
        }
        gate.before(number);
        let done = self.work(alloc, image, seat, number);
        gate.after(number);
        match done {
            Ok(()) => Ok(Some(Piece { number })),
            Err(failed) => {
                seat.spoiled = true;
                Err(failed)
            }
        }
    }

    /// Works on the piece with this number.
    fn work(
        &self,
        alloc: Global,
        image: &Image,
        seat: &mut CheckSeat,
        number: u64,
    ) -> Result<(), AllocError>
        requires layout { IsFor self.now image.now }
        requires own { IsSeatAt self.now.tally seat.old.seat }
        requires parts { 1 ≤ seat.old.seat.me.0.parts }
        requires piece { number < self.now.pieces }
        ensures ok { IfOk result (λ _. (geometry : Geometry) → self.now.layout ≡ Ok geometry
            → Works self.now.tally self.now.checker geometry image.now number seat.old seat.new) }
        ensures err { IfErr result (λ _. Stays self.now.tally seat.old seat.new) }
    {
        let Ok(geometry) = self.layout else {
            unreachable!()
        };
        match self.checker {
            Checker::Blocks => self.check_blocks(alloc, image, &geometry, seat, number),
            _ => self.note_piece(alloc, image, &geometry, seat, number),
        }
    }

    /// Works on a piece of a sweep over directories.
    fn note_piece(
        &self,
        alloc: Global,
        image: &Image,
        geometry: &Geometry,
        seat: &mut CheckSeat,
        number: u64,
    ) -> Result<(), AllocError>
        requires checker { self.now.checker ≢ Blocks }
        requires layout { self.now.layout ≡ Ok geometry.now }
        requires image { IsFor self.now image.now }
        requires own { IsSeatAt self.now.tally seat.old.seat }
        requires parts { 1 ≤ seat.old.seat.me.0.parts }
        requires piece { number < self.now.pieces }
        ensures ok { IfOk result (λ _. Works self.now.tally self.now.checker geometry.now image.now number seat.old seat.new) }
        ensures err { IfErr result (λ _. Stays self.now.tally seat.old seat.new) }
    {
        let _last = geometry.last_inode;
        let part = part_at(&self.starts, number);
        self.note_part(alloc, image, geometry, seat, part)
    }

    /// Works on a piece of a sweep over the blocks.
    fn check_blocks(
        &self,
        alloc: Global,
        image: &Image,
        geometry: &Geometry,
        seat: &mut CheckSeat,
        number: u64,
    ) -> Result<(), AllocError>
        requires fits { Fits geometry.now image.now }
        requires words { HasWords geometry.now (table_shape self.now.tally) }
        requires own { IsSeatAt self.now.tally seat.old.seat }
        requires parts { 1 ≤ seat.old.seat.me.0.parts }
        requires piece { number ≤ geometry.now.last_inode }
        ensures ok { IfOk result (λ _. Works self.now.tally Blocks geometry.now image.now number seat.old seat.new) }
        ensures err { IfErr result (λ _. Stays self.now.tally seat.old seat.new) }
    {
        let _last = geometry.last_inode;
        if number > 0 {
            let i = number as u16;
            mark_inode(alloc, &self.tally, &mut seat.seat, image, geometry, i)?;
            return Ok(());
        }
        seat.fault = mark_free(alloc, &self.tally, &mut seat.seat, image, geometry)?;
        Ok(())
    }

    /// Marks the slots of a part of an i-number, if it is a directory, and keeps their entries.
    pub(crate) fn note_part(
        &self,
        alloc: Global,
        image: &Image,
        geometry: &Geometry,
        seat: &mut CheckSeat,
        part: Part,
    ) -> Result<(), AllocError>
        requires fits { Fits geometry.now image.now }
        requires words { HasWordsOf self.now.checker geometry.now (table_shape self.now.tally) }
        requires own { IsSeatAt self.now.tally seat.old.seat }
        requires parts { 1 ≤ seat.old.seat.me.0.parts }
        requires first { 1 ≤ part.inode }
        requires last { part.inode ≤ geometry.now.last_inode }
        requires within { part.index < part_count geometry.now image.now part.inode }
        ensures ok { IfOk result (λ _. Notes self.now.tally seat.old seat.new
            (λ weight. part_sum geometry.now image.now (slot_weight self.now.checker geometry.now weight) part.inode part.index)
            (λ weight. part_sum geometry.now image.now (slot_kept self.now.checker weight) part.inode part.index)) }
        ensures err { IfErr result (λ _. Stays self.now.tally seat.old seat.new) }
    {
        match kind(image, geometry, part.inode) {
            Kind::Directory => {
                let from = PART_BLOCKS * part.index;
                let blocks = slot_count(image, geometry, part.inode).div_ceil(SLOTS);
                let end = blocks.min(from + PART_BLOCKS);
                self.note_range(alloc, image, geometry, seat, part.inode, from, end)
            }
            _ => Ok(()),
        }
    }

    /// Marks the slots of the logical blocks `from..end` of directory `d`, block by block where possible, and keeps their entries.
    fn note_range(
        &self,
        alloc: Global,
        image: &Image,
        geometry: &Geometry,
        seat: &mut CheckSeat,
        d: u16,
        from: u32,
        end: u32,
    ) -> Result<(), AllocError>
        requires fits { Fits geometry.now image.now }
        requires words { HasWordsOf self.now.checker geometry.now (table_shape self.now.tally) }
        requires own { IsSeatAt self.now.tally seat.old.seat }
        requires parts { 1 ≤ seat.old.seat.me.0.parts }
        requires first { 1 ≤ d }
        requires last { d ≤ geometry.now.last_inode }
        requires order { from ≤ end }
        requires few { end ≤ 2113674 }
        ensures ok { IfOk result (λ _. Notes self.now.tally seat.old seat.new
            (λ weight. below (λ t. slot_weight self.now.checker geometry.now weight d (32 * from + t) (entry_at geometry.now image.now d (32 * from + t))) (32 * (end - from)))
            (λ weight. below (λ t. slot_kept self.now.checker weight d (32 * from + t) (entry_at geometry.now image.now d (32 * from + t))) (32 * (end - from)))) }
        ensures err { IfErr result (λ _. Stays self.now.tally seat.old seat.new) }
    {
        let rest = self.count_whole(alloc, image, geometry, seat, d, from, end)?;
        self.note_blocks(image, geometry, seat, d, rest, end)
    }

    /// In a sweep for entries, marks the slots of the blocks in this range that lie completely within the directory's size; does nothing in other
    /// sweeps. Returns the first block that is left.
    fn count_whole(
        &self,
        alloc: Global,
        image: &Image,
        geometry: &Geometry,
        seat: &mut CheckSeat,
        d: u16,
        from: u32,
        end: u32,
    ) -> Result<u32, AllocError>
        requires fits { Fits geometry.now image.now }
        requires words { HasWordsOf self.now.checker geometry.now (table_shape self.now.tally) }
        requires own { IsSeatAt self.now.tally seat.old.seat }
        requires parts { 1 ≤ seat.old.seat.me.0.parts }
        requires first { 1 ≤ d }
        requires last { d ≤ geometry.now.last_inode }
        requires order { from ≤ end }
        requires few { end ≤ 2113674 }
        ensures order { IfOk result (λ rest. (from ≤ rest) × (rest ≤ end)) }
        ensures ok { IfOk result (λ rest. Notes self.now.tally seat.old seat.new
            (λ weight. below (λ t. slot_weight self.now.checker geometry.now weight d (32 * from + t) (entry_at geometry.now image.now d (32 * from + t))) (32 * (rest - from)))
            (λ weight. below (λ t. slot_kept self.now.checker weight d (32 * from + t) (entry_at geometry.now image.now d (32 * from + t))) (32 * (rest - from)))) }
        ensures err { IfErr result (λ _. Stays self.now.tally seat.old seat.new) }
    {
        let whole = end.min(slot_count(image, geometry, d) / SLOTS);
        match self.checker {
            Checker::Entries if from < whole => {
                let tally = &self.tally;
                count_blocks(
                    alloc,
                    tally,
                    &mut seat.seat,
                    image,
                    geometry,
                    d,
                    from,
                    whole,
                )?;
                Ok(whole)
            }
            _ => Ok(from),
        }
    }

    /// Marks the slots of the logical blocks `from..end` of directory `d`, and keeps their entries. Skips holes as [`next_block`] does.
    fn note_blocks(
        &self,
        image: &Image,
        geometry: &Geometry,
        seat: &mut CheckSeat,
        d: u16,
        from: u32,
        end: u32,
    ) -> Result<(), AllocError>
        requires fits { Fits geometry.now image.now }
        requires words { HasWordsOf self.now.checker geometry.now (table_shape self.now.tally) }
        requires own { IsSeatAt self.now.tally seat.old.seat }
        requires parts { 1 ≤ seat.old.seat.me.0.parts }
        requires first { 1 ≤ d }
        requires last { d ≤ geometry.now.last_inode }
        requires order { from ≤ end }
        requires few { end ≤ 2113674 }
        ensures ok { IfOk result (λ _. Notes self.now.tally seat.old seat.new
            (λ weight. below (λ t. slot_weight self.now.checker geometry.now weight d (32 * from + t) (entry_at geometry.now image.now d (32 * from + t))) (32 * (end - from)))
            (λ weight. below (λ t. slot_kept self.now.checker weight d (32 * from + t) (entry_at geometry.now image.now d (32 * from + t))) (32 * (end - from)))) }
        ensures err { IfErr result (λ _. Stays self.now.tally seat.old seat.new) }
    {
        let mut b = next_block(image, geometry, d, from, end);
        while b < end {
            self.note_block(image, geometry, seat, d, b)?;
            b = next_block(image, geometry, d, b + 1, end);
        }
        Ok(())
    }

    /// Marks the slots of logical block `b` of directory `d`, and keeps their entries.
    fn note_block(
        &self,
        image: &Image,
        geometry: &Geometry,
        seat: &mut CheckSeat,
        d: u16,
        b: u32,
    ) -> Result<(), AllocError>
        requires fits { Fits geometry.now image.now }
        requires words { HasWordsOf self.now.checker geometry.now (table_shape self.now.tally) }
        requires own { IsSeatAt self.now.tally seat.old.seat }
        requires parts { 1 ≤ seat.old.seat.me.0.parts }
        requires first { 1 ≤ d }
        requires last { d ≤ geometry.now.last_inode }
        requires few { b < 2113674 }
        ensures ok { IfOk result (λ _. Notes self.now.tally seat.old seat.new
            (λ weight. below (λ t. slot_weight self.now.checker geometry.now weight d (32 * b + t) (entry_at geometry.now image.now d (32 * b + t))) 32)
            (λ weight. below (λ t. slot_kept self.now.checker weight d (32 * b + t) (entry_at geometry.now image.now d (32 * b + t))) 32)) }
        ensures err { IfErr result (λ _. Stays self.now.tally seat.old seat.new) }
    {
        match block_at(image, geometry, d, b) {
            Some(k) if geometry.in_zone(k) => {
                let count = slot_count(image, geometry, d).saturating_sub(SLOTS * b);
                for s in 0..count.min(SLOTS) {
                    let at = BLOCK * k as usize + SLOT * s as usize;
                    let slot = Slot::read(image.as_bytes(), at);
                    self.note_slot(geometry, seat, d, SLOTS * b + s, slot)?;
                }
                Ok(())
            }
            _ => Ok(()),
        }
    }

    /// Marks slot `s` of directory `d`, and keeps its entry.
    fn note_slot(
        &self,
        geometry: &Geometry,
        seat: &mut CheckSeat,
        d: u16,
        s: u32,
        slot: Slot,
    ) -> Result<(), AllocError>
        requires words { HasWordsOf self.now.checker geometry.now (table_shape self.now.tally) }
        requires own { IsSeatAt self.now.tally seat.old.seat }
        requires parts { 1 ≤ seat.old.seat.me.0.parts }
        ensures ok { IfOk result (λ _. Notes self.now.tally seat.old seat.new
            (λ weight. slot_weight self.now.checker geometry.now weight d s (entry_in slot)) (λ weight. slot_kept self.now.checker weight d s (entry_in slot))) }
        ensures err { IfErr result (λ _. Stays self.now.tally seat.old seat.new) }
    {
        if slot.inode == 0 {
            return Ok(());
        }
        match self.checker {
            Checker::Blocks => Ok(()),
            Checker::Entries => {
                count_entry(&self.tally, &mut seat.seat, geometry, slot.inode, 1);
                Ok(())
            }
            Checker::Names => keep_entry(&self.tally, seat, geometry, EnteredName::new(d, s, slot)),
        }
    }

    /// Draws pieces and works on them until none is left or memory runs out.
    fn run<G: Gate>(&self, alloc: Global, gate: &G, image: &Image, seat: &mut CheckSeat)
        requires own { IsSeatOf self.now.tally seat.old }
        requires layout { IsFor self.now image.now }
        requires image { IsOf self.now.checker self.now.layout image.now seat.old }
        ensures { Ran self.now image.now seat.new }
    {
        while let Ok(Some(_piece)) = self.step_at(alloc, gate, image, seat) {}
    }

    /// Runs one thread per seat; if a thread can't be started, the others do its pieces.
    pub(crate) fn run_all<R: Threads + Sync, G: Gate>(
        &self,
        threads: &R,
        alloc: Global,
        gate: &G,
        image: &Image,
        seats: &mut [CheckSeat],
    )
        requires some { 0 < length seats.old }
        requires own { All (IsSeatOf self.now.tally) seats.old }
        requires layout { IsFor self.now image.now }
        requires image { All (IsOf self.now.checker self.now.layout image.now) seats.old }
        ensures len { length seats.new ≡ length seats.old }
        ensures ran { All (Ran self.now image.now) seats.new }
    {
        let count = seats.len();
        let run = |_: usize, seat: &mut CheckSeat|
            requires { IsSeatOf self.now.tally seat.old × IsFor self.now image.now × IsOf self.now.checker self.now.layout image.now seat.old }
            ensures { Ran self.entry.now image.entry.now seat.new }
        { self.run(alloc, gate, image, seat) };
        thread::for_each_mut(threads, seats, count, &run);
    }

    /// Returns the report of the image that the seats swept. Fails if a seat ran out of memory.
    ///
    /// Costs a few reads of the words of each data block and i-number, plus the cost of the checker's report. Takes memory for the lines, and for the
    /// entries that the seats keep.
    pub fn finish(self, alloc: Global, seats: Vec<CheckSeat>) -> Result<Report, AllocError>
        requires count { vec_len seats ≡ seat_count self }
        requires own { All (IsSeatIn self) seats.items }
        requires stopped { 1 ≤ count_by is_stopped seats.items }
        ensures report { IfOk result (λ report. (image : List ℕ) → IsFor self image
            → All (HasSwept self image) seats.items → IsReport self.checker self.edition image report) }
        ensures err { list_any found_no_memory seats.items ≡ true → IsErr result }
    {
        let Sweep {
            tally,
            checker,
            layout,
            links,
            ..
        } = self;
        let all = gather(&tally, seats)?;
        if all.spoiled {
            return Err(AllocError);
        }
        match layout {
            Ok(geometry) => {
                let words = tally.close(all.seat);
                match checker {
                    Checker::Blocks => block_report(alloc, &geometry, &words, all.fault),
                    Checker::Entries => entry_report(alloc, &geometry, &words, &links),
                    Checker::Names => name_report(alloc, &geometry, &words, &all.entries),
                }
            }
            Err(fault) => Report::of_fault(alloc, fault),
        }
    }
}
