//! `map --json`: the use of each block as JSON.
ghost use Rattle.std.specs.Prelude.{◌≡◌, ◌+◌, ◌<◌, ◌^◌, ◌++◌, ◌∷◌, codes, IfOk, length, List};
ghost use Rattle.vol_archive.specs.Write.{Writes};
ghost use Rattle.vol_layout.specs.Geometry.{Fits};
ghost use Rattle.command_faults.specs.Streams.{streams};
ghost use Rattle.command_reads.specs.Json.{listed_text};
ghost use Rattle.command_reads.specs.Map.{uses_in, IsMapFault};
ghost use Rattle.command_reads.specs.MapJson.{first_use, longer, next, run_data, runs, runs_from, runs_json, uses_json, AreUses};
ghost use Rattle.command_reads.specs.Print.{ShowsInPieces, plainly};

use crate::faults::unmeasured;
use crate::pieces::put_items;
use crate::print::{ending_after, put};
use command_faults::Ending;
use command_faults::status::DONE;
use pdp_words::{Image, Sink};
use std::alloc::{AllocError, Global};
use vol_archive::WriteFault;
use vol_inspect::{Use, block_uses};
use vol_layout::{Edition, Geometry};

/// Blocks with one use, one after the other.
#[derive(Clone, Copy)]
pub(crate) struct UseRun {
    /// The first block.
    pub(crate) block: u32,
    /// The number of blocks.
    pub(crate) count: u32,
    /// What they are used for.
    pub(crate) usage: Use,
}

/// Shows the use of each block of an image as one JSON object. The image must keep rules 1 and 2, and may be any bytes otherwise. The status is 0; 1
/// if the image breaks one of these rules, 3 if `output` failed, 4 if memory ran out. With 3 or 4 some of the text may have been printed.
///
/// Takes the time and memory of [`block_uses`], and memory for the runs of blocks with one use, and for the text of a few of them at a time.
#[tactic(auto, using(crate::proofs::Printed::kept_same))]
pub(crate) fn show_uses<O: Sink>(
    alloc: Global,
    edition: Edition,
    image: &Image,
    output: &mut O,
) -> Ending
    ensures { ShowsInPieces (plainly (AreUses edition image.now) (IsMapFault edition image.now)) (streams O.contents O.failed output.old output.new result.fault) result.status }
{
    match Geometry::read(edition, image) {
        Ok(geometry) => ending_after(put_uses(alloc, image, &geometry, output), DONE),
        Err(fault) => Ending::from(unmeasured(fault)),
    }
}

/// Writes the use of each block of an image with a geometry.
fn put_uses<O: Sink>(
    alloc: Global,
    image: &Image,
    geometry: &Geometry,
    output: &mut O,
) -> Result<(), WriteFault>
    requires { Fits geometry.now image.now }
    ensures { Writes (O.contents output.old) (O.contents output.new) (O.failed output.old) (O.failed output.new) (uses_json geometry.now image.now) result }
{
    let runs = all_runs(alloc, image, geometry)?;
    put_runs(alloc, &runs, output)
}

/// Returns the runs of blocks of an image with a geometry.
fn all_runs(alloc: Global, image: &Image, geometry: &Geometry) -> Result<Vec<UseRun>, AllocError>
    requires { Fits geometry.now image.now }
    ensures { IfOk result (λ found. found.items ≡ runs (uses_in geometry.now image.now)) }
{
    let uses = block_uses(alloc, image, geometry)?;
    runs(alloc, &uses)
}

/// Returns the runs of blocks with one use, in order.
pub(crate) fn runs(alloc: Global, uses: &[Use]) -> Result<Vec<UseRun>, AllocError>
    requires { length uses.now < 2 ^ 32 }
    ensures { IfOk result (λ found. found.items ≡ runs uses.now) }
{
    let mut found = Vec::new(alloc);
    let mut run = UseRun {
        block: 0,
        count: 0,
        usage: first_use(uses),
    };
    for one in uses {
        run = taken(run, *one, &mut found)?;
    }
    found.push(run)?;
    Ok(found)
}

/// Returns the use of the first block, which is the boot block unless it couldn't be read.
fn first_use(uses: &[Use]) -> Use
    ensures { result ≡ first_use uses.now }
{
    match uses.first() {
        Some(usage) => *usage,
        None => Use::Boot,
    }
}

/// Takes one more block with this use: it makes the run longer, or the run is appended and the next one begins. Returns the run that the block is in.
fn taken(run: UseRun, one: Use, found: &mut Vec<UseRun>) -> Result<UseRun, AllocError>
    requires { run.block + run.count + 1 < 2 ^ 32 }
    ensures all { IfOk result (λ now. (us : List Use) → found.new.items ++ runs_from now us ≡ found.old.items ++ runs_from run (one ∷ us)) }
    ensures next { IfOk result (λ now. now.block + now.count ≡ run.block + run.count + 1) }
{
    if run.usage.name() == one.name() {
        return Ok(longer(run));
    }
    found.push(run)?;
    Ok(next(run, one))
}

/// Returns a run with one more block.
fn longer(run: UseRun) -> UseRun
    requires { run.count + 1 < 2 ^ 32 }
    ensures { result ≡ longer run }
{
    UseRun {
        count: run.count + 1,
        ..run
    }
}

/// Returns the run of one block, with this use, after a run.
fn next(run: UseRun, usage: Use) -> UseRun
    requires { run.block + run.count < 2 ^ 32 }
    ensures { result ≡ next run usage }
{
    UseRun {
        block: run.block + run.count,
        count: 1,
        usage,
    }
}

/// Writes runs of blocks as one object, on one line, a few at a time.
pub(crate) fn put_runs<O: Sink>(
    alloc: Global,
    runs: &[UseRun],
    output: &mut O,
) -> Result<(), WriteFault>
    ensures { Writes (O.contents output.old) (O.contents output.new) (O.failed output.old) (O.failed output.new) (runs_json runs.now) result }
{
    put(b"{\"format\":1,\"map\":[", output)?;
    put_rest(alloc, runs, output)
}

/// Writes runs of blocks, and the text after them.
fn put_rest<O: Sink>(alloc: Global, runs: &[UseRun], output: &mut O) -> Result<(), WriteFault>
    ensures { Writes (O.contents output.old) (O.contents output.new) (O.failed output.old) (O.failed output.new)
        (listed_text run_data runs.now ++ codes "]}\n") result }
{
    put_items(alloc, runs, output)?;
    put(b"]}\n", output)
}
