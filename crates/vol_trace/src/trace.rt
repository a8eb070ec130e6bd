//! The text of a trace.
ghost use Rattle.std.specs.Prelude.{◌≡◌, ◌++◌, List, ℕ, IfOk, OnOk};
ghost use Rattle.vol_dir.specs.Tree.{state};
ghost use Rattle.vol_volume.specs.Journal.{IsLegal, MayFollow};
ghost use Rattle.vol_volume.specs.Volume.{Performs};
ghost use Rattle.vol_trace.specs.Replay.{IsReplay};
ghost use Rattle.vol_trace.specs.Trace.{AppendsRecord, IsTrace, IsTraceFrom};

use crate::indent::push_indented;
use crate::replay::{Replay, apply_next, begin, changes_text, remember};
use std::alloc::{AllocError, Global};
use vol_fields::block_roles;
use vol_scripts::push_call;
use vol_volume::{Record, Volume};

/// Returns the records of a volume's journal, each with what it changed: the line of its call, and then, indented by two spaces, the lines of the
/// differences between the image before the record and the one after it.
///
/// Replays the journal on a copy of the bytes that it starts from. Takes memory for two images, and for the role of each of their blocks. Costs mounting
/// these bytes, and for each record its call, a comparison of the images, and [`block_roles`].
pub fn trace_of(alloc: Global, volume: &Volume) -> Result<Vec<u8>, AllocError>
    ensures { IfOk result (λ text. IsTrace volume.now text.items) }
{
    volume.check();
    let replay = begin(alloc, volume)?;
    records_text(alloc, replay, volume.journal())
}

/// Returns the text of records, which are replayed one after another.
fn records_text(
    alloc: Global,
    mut replay: Replay,
    records: &[Record],
) -> Result<Vec<u8>, AllocError>
    requires replay { IsReplay replay }
    requires legal { IsLegal (state replay.geometry replay.image) records.now }
    ensures { IfOk result (λ text. IsTraceFrom replay.geometry replay.image records.now text.items) }
{
    let mut text = Vec::new(alloc);
    'records: for record in records {
        push_record(alloc, &mut text, &mut replay, record)?;
    }
    Ok(text)
}

/// Replays a record, and appends its text.
fn push_record(
    alloc: Global,
    text: &mut Vec<u8>,
    replay: &mut Replay,
    next: &Record,
) -> Result<(), AllocError>
    requires replay { IsReplay replay.old }
    requires follows { MayFollow (state replay.old.geometry replay.old.image) next.now }
    ensures replay { OnOk result (IsReplay replay.new) }
    ensures geometry { OnOk result (replay.new.geometry ≡ replay.old.geometry) }
    ensures performed { OnOk result (Performs replay.old.geometry replay.old.image replay.new.image next.now.call next.now.done) }
    ensures text { OnOk result (AppendsRecord replay.old.geometry replay.old.image replay.new.image next.now text.old.items text.new.items) }
{
    apply_next(replay, next);
    let roles = block_roles(alloc, &replay.image, &replay.geometry)?;
    let changes = changes_text(alloc, replay, &roles)?;
    push_call(alloc, text, &next.call)?;
    push_indented(text, &changes)?;
    remember(alloc, replay, roles)
}
