//! A plan in progress, and the missing directories on the paths of its members.
ghost use Rattle.std.specs.Prelude.{◌≡◌, ◌<◌, ◌++◌, ◌∷◌, [], IfOk, IfSome, MatchOption, OnOk, length, map, not};
ghost use Rattle.vol_volume.specs.Answer.{answer};
ghost use Rattle.vol_volume.specs.Volume.{reads_as};
ghost use Rattle.vol_volume.specs.declared.queries.Query.TheVariants as questions;
ghost use Rattle.vol_import.specs.Plan.{is_directory_kind, is_directory, is_known, is_there, with_path, is_missing, is_crowded, way_call, with_way_directory, is_step, ends_in_dot, steps_of, joined, with_way, with_calls, drafted};
ghost use Rattle.vol_dir.specs.Access.{user};
ghost use Rattle.vol_dir.specs.Walk.{components};

use crate::step_path::StepPath;
use std::alloc::{AllocError, Global};
use std::collections::BTreeSet;
use vol_dir::{Cred, split_component};
use vol_layout::Kind;
use vol_volume::{Bytes, Call, Query, Reply, Volume};

/// The permissions of a directory made because it is on the path of a member.
const PERMISSIONS: u16 = 0o755;

/// A plan in progress.
#[derive(Drop)]
pub(crate) struct Draft {
    /// The paths of directories that exist or that the calls make.
    pub(crate) known: BTreeSet<StepPath>,
    /// The calls.
    pub(crate) calls: Vec<Call>,
}

impl Draft {
    /// Returns a plan without calls.
    pub(crate) fn new(alloc: Global) -> Draft
        ensures { drafted result ≡ ([], []) }
    {
        Draft {
            known: BTreeSet::new(alloc),
            calls: Vec::new(alloc),
        }
    }

    /// Appends a call.
    pub(crate) fn push(&mut self, call: Call) -> Result<(), AllocError>
        ensures { OnOk result (drafted self.new ≡ with_calls (drafted self.old) (call ∷ [])) }
    {
        self.calls.push(call)?;
        Ok(())
    }

    /// True if more directories are known than a volume has i-nodes.
    #[tactic(auto, unfolding(vol_dir::specs::Tree::tree))]
    pub(crate) fn is_crowded(&self, volume: &Volume) -> bool
        ensures { result ≡ is_crowded (reads_as volume.now.edition volume.now.image).tree (drafted self.now) }
    {
        self.known.len() > usize::from(volume.geometry().last_inode)
    }

    /// Returns the calls.
    pub(crate) fn into_calls(self) -> Vec<Call>
        ensures { result.items ≡ self.calls.items }
    {
        let Draft { known, calls } = self;
        drop(known);
        calls
    }
}

/// Adds a path to the known ones. Returns true if it wasn't known.
pub(crate) fn note_known(
    alloc: Global,
    path: &[u8],
    known: &mut BTreeSet<StepPath>,
) -> Result<bool, AllocError>
    ensures added { IfOk result (λ added. added ≡ not (is_known known.old.keys path.now)) }
    ensures known { OnOk result (known.new.keys ≡ with_path known.old.keys path.now) }
{
    Ok(known.insert(StepPath::from_vec(Vec::from_slice(alloc, path)?))?)
}

/// Adds the path of a directory below another to the known ones. Returns true if the directory is missing: it wasn't known, and doesn't exist.
///
/// Costs a walk if it wasn't known.
pub(crate) fn note_directory(
    alloc: Global,
    volume: &Volume,
    base: &[u8],
    path: &[u8],
    known: &mut BTreeSet<StepPath>,
) -> Result<bool, AllocError>
    ensures missing { IfOk result (λ missing. missing ≡ is_missing (reads_as volume.now.edition volume.now.image).tree base.now known.old.keys path.now) }
    ensures known { OnOk result (known.new.keys ≡ with_path known.old.keys path.now) }
{
    if !note_known(alloc, path, known)? {
        return Ok(false);
    }
    Ok(!is_there(alloc, volume, base, path)?)
}

/// Returns the concatenation of two paths.
fn behind(alloc: Global, base: &[u8], path: &[u8]) -> Result<Bytes, AllocError>
    ensures { IfOk result (λ whole. whole ≡ base.now ++ path.now) }
{
    let mut bytes = Vec::from_slice(alloc, base)?;
    bytes.extend_from_slice(path)?;
    Ok(Bytes::from_vec(bytes))
}

/// True if there is a directory at a path below another.
pub(crate) fn is_there(
    alloc: Global,
    volume: &Volume,
    base: &[u8],
    path: &[u8],
) -> Result<bool, AllocError>
    ensures { IfOk result (λ there. there ≡ is_there (reads_as volume.now.edition volume.now.image).tree base.now path.now) }
{
    Ok(is_directory(alloc, volume, behind(alloc, base, path)?))
}

/// True if a path leads to a directory.
pub(crate) fn is_directory(alloc: Global, volume: &Volume, path: Bytes) -> bool
    ensures { result ≡ is_directory (answer (reads_as volume.now.edition volume.now.image).tree (questions.Stat user path)) }
{
    match volume.ask(
        alloc,
        &Query::Stat {
            cred: Cred::ROOT,
            path,
        },
    ) {
        Ok(Reply::Stat(stat)) => is_directory_kind(stat.kind),
        Ok(_) => false,
        Err(_) => false,
    }
}

/// True if a node is a directory.
pub(crate) fn is_directory_kind(kind: Kind) -> bool
    ensures { result ≡ is_directory_kind kind }
{
    match kind {
        Kind::Directory => true,
        Kind::Free | Kind::Regular | Kind::Special | Kind::Odd => false,
    }
}

/// Returns the steps of a path: its components except `.`, which leads nowhere else.
pub(crate) fn steps_of<'a>(alloc: Global, path: &'a [u8]) -> Result<Vec<&'a [u8]>, AllocError>
    ensures { IfOk result (λ steps. map (λ step. step.now) steps.items ≡ steps_of path.now) }
{
    let mut steps = Vec::new(alloc);
    let mut left = path;
    while let Some((step, rest)) = first_step(left) {
        steps.push(step)?;
        left = rest;
    }
    Ok(steps)
}

/// True if the last component of a path is `.`.
pub(crate) fn ends_in_dot(path: &[u8]) -> bool
    ensures { result ≡ ends_in_dot (components path.now) }
{
    let mut left = path;
    let mut is_dot = false;
    'names: while let Some((name, rest)) = split_component(left) {
        is_dot = !is_step(name);
        left = rest;
    }
    is_dot
}

/// Returns the first step of a path and the rest of the path, or `None` if the path has no step.
pub(crate) fn first_step(path: &[u8]) -> Option<(&[u8], &[u8])>
    ensures parts { MatchOption result (steps_of path.now ≡ [])
        (λ parts. steps_of path.now ≡ parts.0.now ∷ steps_of parts.1.now) }
    ensures shorter { IfSome result (λ parts. length parts.1.now < length path.now) }
{
    let mut left = path;
    'names: while let Some((name, rest)) = split_component(left) {
        if is_step(name) {
            return Some((name, rest));
        }
        left = rest;
    }
    None
}

/// True if a name leads to another directory.
fn is_step(name: &[u8]) -> bool
    ensures { result ≡ is_step name.now }
{
    name != b".".as_slice()
}

/// Returns the path made of steps, each after a slash.
pub(crate) fn joined(alloc: Global, steps: &[&[u8]]) -> Result<Vec<u8>, AllocError>
    ensures { IfOk result (λ path. path.items ≡ joined (map (λ step. step.now) steps.now)) }
{
    let mut path = Vec::new(alloc);
    for step in steps {
        push_step(&mut path, step)?;
    }
    Ok(path)
}

/// Appends a step to a path.
fn push_step(path: &mut Vec<u8>, step: &[u8]) -> Result<(), AllocError>
    ensures { OnOk result (path.new.items ≡ path.old.items ++ 47 ∷ step.now) }
{
    path.push(b'/')?;
    path.extend_from_slice(step)?;
    Ok(())
}

/// Appends the calls that make the missing directories on a path, in order; the path is given by its steps.
pub(crate) fn push_way(
    alloc: Global,
    volume: &Volume,
    base: &[u8],
    now: u32,
    steps: &[&[u8]],
    draft: &mut Draft,
) -> Result<(), AllocError>
    ensures { OnOk result (drafted draft.new ≡ with_way (reads_as volume.now.edition volume.now.image).tree base.now now [] (map (λ step. step.now) steps.now) (drafted draft.old)) }
{
    let mut path = Vec::new(alloc);
    for step in steps {
        push_step(&mut path, step)?;
        push_way_directory(alloc, volume, base, now, &path, draft)?;
    }
    Ok(())
}

/// Appends the call that makes a directory on the path of a member, if it is missing.
fn push_way_directory(
    alloc: Global,
    volume: &Volume,
    base: &[u8],
    now: u32,
    path: &[u8],
    draft: &mut Draft,
) -> Result<(), AllocError>
    ensures { OnOk result (drafted draft.new ≡ with_way_directory (reads_as volume.now.edition volume.now.image).tree base.now now path.now (drafted draft.old)) }
{
    if note_directory(alloc, volume, base, path, &mut draft.known)? {
        draft.push(Call::Mkdir {
            cred: Cred::ROOT,
            now,
            path: behind(alloc, base, path)?,
            perm: PERMISSIONS,
        })?;
    }
    Ok(())
}
