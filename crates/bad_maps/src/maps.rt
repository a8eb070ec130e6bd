//! Reads maps.
ghost use Rattle.std.specs.Prelude.{◌≡◌, OnOk};
ghost use Rattle.bad_maps.specs.Maps.{Follows, ReadsMap, after_line, after_range, ranges_in, with_range};

use crate::lines::{LineFault, is_silent, is_state, range_in};
use line_words::Pieces;
use std::alloc::{AllocError, Global};

/// Bytes of a file, one after the other, that were read.
#[derive(Clone, Copy)]
pub struct ReadRange {
    /// The first.
    pub first: u64,
    /// The one after the last.
    pub end: u64,
}

/// The reason why a map can't be read.
#[derive(Clone, Copy)]
pub enum MapFault {
    /// The first line that can't be read.
    Line {
        /// Its number, from 1.
        number: u64,
        /// What is wrong with it.
        fault: LineFault,
    },
    /// Memory ran out.
    NoMemory,
}

/// Reads a map of GNU ddrescue, and returns the ranges of the bytes that were read, in ascending order. Ranges that touch are one. Whatever the map
/// doesn't cover wasn't read.
///
/// Takes memory for the ranges. Costs the length of the text.
pub fn read_map(alloc: Global, text: &[u8]) -> Result<Vec<ReadRange>, MapFault>
    ensures { ReadsMap (ranges_in text.now) result }
{
    let mut front = MapFront {
        ended: None,
        read: Vec::new(alloc),
    };
    let mut number = 0;
    let mut lines = Pieces::of(b'\n', text);
    'lines: while let Some(line) = lines.take_next() {
        number += 1;
        front = match after_line(front, line) {
            Ok(next) => next,
            Err(LineStop::Bad(fault)) => return Err(MapFault::Line { number, fault }),
            Err(LineStop::NoMemory) => return Err(MapFault::NoMemory),
        };
    }
    if front.ended.is_none() {
        let fault = LineFault::Missing;
        return Err(MapFault::Line { number, fault });
    }
    Ok(front.read)
}

/// What the lines of a map say so far.
#[derive(Drop)]
struct MapFront {
    /// The end of the last range, or 0, if ddrescue's state was met.
    ended: Option<u64>,
    /// The bytes that were read.
    read: Vec<ReadRange>,
}

/// The reason why a map isn't read on.
#[derive(Clone, Copy)]
enum LineStop {
    /// A line can't be read.
    Bad(LineFault),
    /// Memory ran out.
    NoMemory,
}

/// Returns what the lines of a map say with one more line.
fn after_line(front: MapFront, line: &[u8]) -> Result<MapFront, LineStop>
    ensures { Follows (after_line front.ended front.read.items line.now) result }
{
    if is_silent(line) {
        return Ok(front);
    }
    match front.ended {
        None if is_state(line) => Ok(MapFront {
            ended: Some(0),
            ..front
        }),
        None => Err(LineStop::Bad(LineFault::State)),
        Some(end) => after_range(front, end, line),
    }
}

/// Returns what the lines of a map say with one more line for a range, after ranges that end at `end`.
fn after_range(front: MapFront, end: u64, line: &[u8]) -> Result<MapFront, LineStop>
    ensures { Follows (after_range front.read.items end line.now) result }
{
    let range = match range_in(line) {
        Ok(range) => range,
        Err(fault) => return Err(LineStop::Bad(fault)),
    };
    if range.first < end {
        return Err(LineStop::Bad(LineFault::Overlap));
    }
    let mut read = front.read;
    let found = ReadRange {
        first: range.first,
        end: range.end,
    };
    if range.is_read && push_range(&mut read, found).is_err() {
        return Err(LineStop::NoMemory);
    }
    Ok(MapFront {
        ended: Some(range.end),
        read,
    })
}

/// Appends a range. If it begins where the last one ends, makes that longer.
fn push_range(ranges: &mut Vec<ReadRange>, range: ReadRange) -> Result<(), AllocError>
    ensures { OnOk result (ranges.new.items ≡ with_range ranges.old.items range) }
{
    match ranges.pop() {
        Some(last) if last.end == range.first => ranges.push(ReadRange {
            first: last.first,
            end: range.end,
        })?,
        Some(last) => {
            ranges.push(last)?;
            ranges.push(range)?;
        }
        None => ranges.push(range)?,
    }
    Ok(())
}
