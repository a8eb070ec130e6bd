//! The call that writes bytes.
ghost use Rattle.std.specs.Prelude.{◌≡◌, ◌+◌, ◌<◌, ◌≤◌, ◌^◌, nat_lt, [], ◌∷◌, length, IfOk, OnErr, OnOk};
ghost use Rattle.std.specs.Result.{result_err};
ghost use Rattle.vol_layout.specs.Edition.{constants};
ghost use Rattle.vol_file.specs.Rules.{kind_at};
ghost use Rattle.vol_dir.specs.Entries.{IsInUse};
ghost use Rattle.vol_dir.specs.Tree.{tree, state};
ghost use Rattle.vol_dir.specs.Walk.{walk};
ghost use Rattle.vol_change.specs.Ready.{Rules1To12, free_in};
ghost use Rattle.vol_volume.specs.Perform.{LeadsToNode, IsPerformed};
ghost use Rattle.vol_volume.specs.Stands.{Rules3To7And9};
ghost use Rattle.vol_volume.specs.Verdict.{first_of, is_too_great, write_need, is_above_free, then_others, of_node, write_tests, verdict};

use crate::calls::{Call, Caller, Done};
use crate::checked_calls::asked::{body_tests, find_node, refuse_if};
use crate::checked_calls::found::Target;
use crate::checked_calls::{Performed, ready_stands};
use pdp_words::Image;
use vol_dir::{Access, Cred, Refusal};
use vol_file::need;
use vol_layout::{Geometry, Kind};

/// True if `len` bytes at `offset` end past the greatest file size.
fn is_too_great(geometry: &Geometry, offset: u32, len: usize) -> bool
    ensures { result ≡ nat_lt (constants geometry.now.edition).greatest (offset + len) }
{
    let greatest = geometry.edition.constants().greatest as usize;
    greatest < len || greatest - len < offset as usize
}

/// Checks the end of a write of `len` bytes at `offset` of the regular file `i`, and the free blocks. Returns the number of blocks that the write
/// needs.
#[tactic(auto, using(crate::proofs::NeedReadings::write_need_is, crate::proofs::NodeReadings::tree_geometry))]
fn room_tests(
    image: &Image,
    geometry: &Geometry,
    free: u32,
    i: u16,
    offset: u32,
    len: usize,
) -> Result<u32, Refusal>
    requires stands { Rules3To7And9 geometry.now image.now }
    requires count { free ≡ free_in (state geometry.now image.now) }
    requires first { 1 ≤ i }
    requires last { i ≤ geometry.now.last_inode }
    requires file { kind_at geometry.now image.now i ≡ Kind.Regular }
    ensures refusal { result_err result ≡ first_of ((is_too_great (tree geometry.now image.now) (offset + len), Refusal.TooBig)
        ∷ (is_above_free (state geometry.now image.now) (write_need (state geometry.now image.now) i offset len), Refusal.NoSpace)
        ∷ []) }
    ensures needed { IfOk result (λ needed. needed ≡ write_need (state geometry.now image.now) i offset len) }
    ensures short { OnOk result (len < 2 ^ 32) }
{
    refuse_if(is_too_great(geometry, offset, len), Refusal::TooBig)?;
    let needed = need(image, geometry, i, offset, len as u32);
    refuse_if(free < needed, Refusal::NoSpace)?;
    Ok(needed)
}

/// Checks that `len` bytes may be written at `offset` of i-node `i`, which is in use. Returns the number of blocks that the write needs.
fn write_tests(
    image: &Image,
    geometry: &Geometry,
    free: u32,
    cred: Cred,
    i: u16,
    offset: u32,
    len: usize,
) -> Result<u32, Refusal>
    requires stands { Rules3To7And9 geometry.now image.now }
    requires count { free ≡ free_in (state geometry.now image.now) }
    requires used { IsInUse geometry.now image.now i }
    ensures refusal { result_err result ≡ first_of (write_tests (state geometry.now image.now) cred offset len i) }
    ensures needed { IfOk result (λ needed. needed ≡ write_need (state geometry.now image.now) i offset len) }
    ensures short { OnOk result (len < 2 ^ 32) }
{
    body_tests(image, geometry, Access::Write, cred, i)?;
    room_tests(image, geometry, free, i, offset, len)
}

/// Checks the call. Returns the file and the number of blocks needed, or the first refusal that applies.
pub(crate) fn check(
    image: &Image,
    geometry: &Geometry,
    free: u32,
    cred: Cred,
    path: &[u8],
    offset: u32,
    len: usize,
) -> Result<Target, Refusal>
    requires stands { Rules3To7And9 geometry.now image.now }
    requires count { free ≡ free_in (state geometry.now image.now) }
    ensures refusal { result_err result ≡ then_others (tree geometry.now image.now) cred (path.now ∷ [])
        (of_node (walk (tree geometry.now image.now) cred path.now) (λ i. first_of (write_tests (state geometry.now image.now) cred offset len i))) }
    ensures node { IfOk result (λ target. LeadsToNode geometry.now image.now cred path.now target.inode) }
    ensures needed { IfOk result (λ target. target.needed ≡ write_need (state geometry.now image.now) target.inode offset len) }
    ensures short { OnOk result (len < 2 ^ 32) }
{
    let inode = find_node(image, geometry, cred, path)?;
    let needed = write_tests(image, geometry, free, cred, inode, offset, len)?;
    Ok(Target { inode, needed })
}

/// Writes `bytes` at `offset`, if no check fails.
#[tactic(auto, unfolding(crate::specs::Verdict::verdict))]
pub(crate) fn make(
    image: &mut Image,
    geometry: &Geometry,
    free: u32,
    caller: Caller,
    path: &[u8],
    offset: u32,
    bytes: &[u8],
) -> Result<Performed, Refusal>
    requires ready { Rules1To12 geometry.now image.old }
    requires count { free ≡ free_in (state geometry.now image.old) }
    ensures refusal { result_err result ≡ verdict (state geometry.now image.old) (Call.Write caller.cred caller.moment path.now offset bytes.now) }
    ensures unchanged { OnErr result (image.new ≡ image.old) }
    ensures done { IfOk result (λ performed. performed.done ≡ Done.Wrote (length bytes.now)) }
    ensures performed { IfOk result (λ performed. IsPerformed geometry.now image.old image.new
        (Call.Write caller.cred caller.moment path.now offset bytes.now) performed.done performed.free) }
{
    ready_stands(image, geometry);
    let target = check(
        image,
        geometry,
        free,
        caller.cred,
        path,
        offset,
        bytes.len(),
    )?;
    vol_change::write(image, geometry, target.inode, offset, bytes, caller.moment);
    Ok(Performed {
        done: Done::Wrote(bytes.len() as u32),
        free: free - target.needed,
    })
}
