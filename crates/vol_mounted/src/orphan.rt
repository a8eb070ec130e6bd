//! Files without a name that are still open.
ghost use Rattle.std.specs.Prelude.{◌≡◌, ◌≤◌, ◌-◌, ◌++◌, length, take, drop};
ghost use Rattle.vol_mounted.specs.Orphans.{KeptFile};

use crate::attribute_plan::time_of;
use crate::refusal::MountedRefusal;
use fuse_words::{AttributeChanges, Attributes};
use std::alloc::{AllocError, Global};
use std::marker::Model;
use vol_dir::Refusal;

/// The type bits of a mode.
const TYPE_BITS: u32 = 0o170000;

/// A file that lost its last name while it was open. It is no longer in the volume, but kept in memory. Contracts see it as a `KeptFile`.
#[derive(Drop)]
pub struct Orphan {
    /// The number that the kernel has for its node.
    pub(crate) node: u64,
    /// Its attributes; its link count is 0.
    pub(crate) attributes: Attributes,
    /// Its bytes.
    pub(crate) content: Vec<u8>,
    /// The number of times that it is open.
    pub(crate) opened: u32,
}

impl Model for Orphan {
    ghost Value = { KeptFile };

    ghost view = { λ file. record { node = file.node; attributes = file.attributes; content = file.content.items; opened = file.opened } };
}

/// All files without a name that are still open.
#[derive(Drop)]
pub struct Orphans {
    pub(crate) files: Vec<Orphan>,
}

/// The limits of a file without a name.
#[derive(Clone, Copy)]
pub(crate) struct Limits {
    /// The greatest size of a file in the edition.
    pub(crate) greatest: u32,
    /// The number of further bytes that the files without a name can take together.
    pub(crate) spare: usize,
}

impl Orphan {
    ghost use Rattle.std.specs.Prelude.{◌≡◌, ◌≢◌, ◌≤◌, ◌+◌, ◌-◌, ◌++◌, nat_le, length, take, drop, replicate, Ok, Err, OnOk, IfOk, IfErr, OnErr};
    ghost use Rattle.vol_mounted.specs.Orphans.{size_of, fitted, resized, sized, written, given_attributes, present_attributes};
    ghost use Rattle.vol_mounted.specs.Refusals.{no_memory};

    /// Returns its attributes, with its present size.
    pub(crate) fn attributes(&self) -> Attributes
        ensures { result ≡ present_attributes self.now }
    {
        let size = self.content.len() as u64;
        Attributes {
            size,
            blocks: (size + 511) / 512,
            ..self.attributes
        }
    }

    /// Returns at most `size` bytes of the file, starting at byte `offset`.
    pub(crate) fn read(&self, offset: u64, size: usize) -> &[u8]
        ensures { result.now ≡ take size (drop offset self.now.content) }
    {
        let content = self.content.as_slice();
        let len = content.len();
        let start = len.min(usize::try_from(offset).unwrap_or(len));
        let end = len.min(start.saturating_add(size));
        &content[start..end]
    }

    /// Changes the file's size: cuts it, or appends zeros. If it is refused, the file is unchanged.
    pub(crate) fn resize(&mut self, size: Option<u64>, limits: Limits) -> Result<(), MountedRefusal>
        ensures resized { OnOk result (sized limits size self.old ≡ Ok self.new) }
        ensures refused { IfErr result (λ refusal. refusal ≢ no_memory → sized limits size self.old ≡ Err refusal) }
        ensures same { OnErr result (self.new ≡ self.old) }
        ensures bounded { size_of self.new ≤ size_of self.old + limits.spare }
    {
        let Some(size) = size else {
            return Ok(());
        };
        let size = self.reach(size, limits)?;
        self.content.truncate(size);
        Ok(())
    }

    /// Writes bytes into the file at byte `offset`; the bytes between its end and the offset become zeros. If it is refused, the file is unchanged.
    #[tactic(auto, using(crate::proofs::WrittenBytes::spliced_grown))]
    pub(crate) fn write(
        &mut self,
        offset: u64,
        bytes: &[u8],
        limits: Limits,
    ) -> Result<(), MountedRefusal>
        ensures written { OnOk result (written limits offset bytes.now self.old ≡ Ok self.new) }
        ensures refused { IfErr result (λ refusal. refusal ≢ no_memory → written limits offset bytes.now self.old ≡ Err refusal) }
        ensures same { OnErr result (self.new ≡ self.old) }
        ensures bounded { size_of self.new ≤ size_of self.old + limits.spare }
    {
        if bytes.is_empty() {
            return Ok(());
        }
        let end = self.reach(offset.saturating_add(bytes.len() as u64), limits)?;
        put_before(&mut self.content, end, bytes);
        Ok(())
    }

    /// Appends zeros up to a size, if the file has fewer bytes. Returns the size. Returns TooBig if no file can have this size, or NoSpace if there
    /// is no room.
    fn reach(&mut self, size: u64, limits: Limits) -> Result<usize, MountedRefusal>
        ensures reached { OnOk result (fitted limits self.old.content size ≡ Ok size) }
        ensures end { IfOk result (λ end. (end ≡ size) × (end ≤ limits.greatest) × (end ≤ size_of self.new)) }
        ensures refused { IfErr result (λ refusal. refusal ≢ no_memory → fitted limits self.old.content size ≡ Err refusal) }
        ensures content { OnOk result (self.new ≡ record self.old { content = self.old.content ++ replicate (size - length self.old.content) 0 }) }
        ensures same { OnErr result (self.new ≡ self.old) }
        ensures bounded { size_of self.new ≤ size_of self.old + limits.spare }
    {
        if size > u64::from(limits.greatest) {
            return Err(MountedRefusal::Call(Refusal::TooBig));
        }
        let size = size as usize;
        let len = self.content.len();
        if size > len {
            if size - len > limits.spare {
                return Err(MountedRefusal::Call(Refusal::NoSpace));
            }
            self.content.resize(size, 0)?;
        }
        Ok(size)
    }

    /// True if it is open once at most.
    fn is_open_once(&self) -> bool
        ensures { result ≡ nat_le self.now.opened 1 }
    {
        self.opened <= 1
    }

    /// Counts one close of the file.
    fn close(&mut self)
        ensures { self.new ≡ record self.old { opened = self.old.opened - 1 } }
    {
        self.opened = self.opened.saturating_sub(1);
    }

    /// Sets each of the file's permissions, owner, group and times that `changes` has.
    pub(crate) fn set(&mut self, now: u32, changes: &AttributeChanges)
        ensures { self.new ≡ record self.old { attributes = given_attributes now changes.now self.old.attributes } }
    {
        if let Some(mode) = changes.mode {
            let kind = self.attributes.mode & TYPE_BITS;
            self.attributes.mode = kind | (mode % 0o10000);
        }
        if let Some(uid) = changes.uid {
            self.attributes.uid = uid;
        }
        if let Some(gid) = changes.gid {
            self.attributes.gid = gid;
        }
        if let Some(time) = changes.accessed {
            self.attributes.accessed = u64::from(time_of(now, time));
        }
        if let Some(time) = changes.modified {
            self.attributes.modified = u64::from(time_of(now, time));
        }
    }
}

impl Orphans {
    ghost use Rattle.std.specs.Prelude.{◌≡◌, ◌≤◌, ◌<◌, ◌+◌, ◌-◌, ◌==◌, ◌∷◌, ◌++◌, [], ℕ, length, OnOk, IsTrue};
    ghost use Rattle.std.specs.List.{list_any};
    ghost use Rattle.std.specs.Vec.{vec_capacity};
    ghost use Rattle.vol_mounted.specs.Orphans.{held_by, place_of, closed_once};

    /// Returns an empty list.
    pub(crate) fn new(alloc: Global) -> Orphans {
        Orphans {
            files: Vec::new(alloc),
        }
    }

    /// True if one of the files has this node number.
    pub(crate) fn has(&self, node: u64) -> bool
        ensures { result ≡ list_any (λ (file : KeptFile). file.node == node) self.now.files.items }
    {
        self.files.iter().any(|file| file.node == node)
    }

    /// Returns the index of the file with this node number.
    pub(crate) fn place(&self, node: u64) -> Option<usize>
        ensures { result ≡ place_of node self.now.files.items }
    {
        self.files.iter().position(|file| file.node == node)
    }

    /// Returns the number of further bytes that the files can take, if they can take `most` in all.
    #[tactic(auto, using(crate::proofs::Held::next_held))]
    pub(crate) fn spare(&self, most: usize) -> usize
        ensures { result ≡ most - held_by self.now.files.items }
    {
        let mut spare = most;
        let files = self.files.as_slice();
        'files: for file in files {
            spare = spare.saturating_sub(file.content.len());
        }
        spare
    }

    /// Reserves room for one more file, if it is needed.
    pub(crate) fn reserve(&mut self, is_needed: bool) -> Result<(), AllocError>
        ensures files { self.new.files.items ≡ self.old.files.items }
        ensures room { OnOk result (IsTrue is_needed → length self.new.files.items < vec_capacity self.new.files) }
    {
        if !is_needed {
            return Ok(());
        }
        self.files.reserve(1)
    }

    /// Adds a file, for which room is reserved.
    pub(crate) fn keep(&mut self, file: Orphan)
        requires { length self.old.files.items < vec_capacity self.old.files }
        ensures { self.new.files.items ≡ self.old.files.items ++ file ∷ [] }
    {
        let _ = self.files.push(file);
    }

    /// Closes a file once; the last time frees it.
    #[tactic(auto, using(crate::proofs::ClosedFiles::freed, crate::proofs::ClosedFiles::counted))]
    pub(crate) fn close(&mut self, node: u64)
        ensures closed { self.new.files.items ≡ closed_once node self.old.files.items }
        ensures held { held_by self.new.files.items ≤ held_by self.old.files.items }
    {
        let Some(place) = self.place(node) else {
            return;
        };
        let Some(file) = self.files.get(place) else {
            return;
        };
        if file.is_open_once() {
            let _ = self.files.remove(place);
        } else if let Some(file) = self.files.get_mut(place) {
            file.close();
        }
    }
}

/// Writes bytes over as many bytes of a file, which end at byte `end`.
fn put_before(content: &mut Vec<u8>, end: usize, bytes: &[u8])
    requires within { end ≤ length content.old.items }
    requires room { length bytes.now ≤ end }
    ensures { content.new.items ≡ take (end - length bytes.now) content.old.items ++ (bytes.now ++ drop end content.old.items) }
{
    let start = end - bytes.len();
    content[start..end].copy_from_slice(bytes);
}
