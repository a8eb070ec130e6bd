//! The calls of RENAME.
use crate::calls::Calls;
use crate::refusal::MountedRefusal;
use crate::scene::Scene;
use pdp_words::Bytes;
use std::alloc::AllocError;
use vol_dir::Refusal;
use vol_layout::Kind;
use vol_serve::nodes::{NodeFault, look_up};
use vol_volume::Stat;

/// The arguments of a rename.
#[derive(Clone, Copy)]
pub(crate) struct Renaming<'a> {
    /// The directory of the old name.
    pub(crate) dir: u16,
    /// The old name.
    pub(crate) name: &'a [u8],
    /// The directory of the new name.
    pub(crate) new_dir: u16,
    /// The new name.
    pub(crate) new_name: &'a [u8],
    /// The flags of renameat2(2).
    pub(crate) flags: u32,
}

impl Scene<'_> {
    ghost use Rattle.std.specs.Prelude.{◌≡◌, ◌∷◌, [], IfOk};
    ghost use Rattle.vol_dir.specs.Access.{user};
    ghost use Rattle.vol_volume.specs.declared.calls.Call.TheVariants as calls;
    ghost use Rattle.vol_mounted.specs.Plans.{rename_calls, named_calls, over_calls, replace_calls, move_calls};
    ghost use Rattle.vol_mounted.specs.Refusals.{Gives};
    ghost use Rattle.vol_mounted.specs.Scenes.{sight_of};

    /// Returns the calls of RENAME and RENAME2. The calls are checked first: once the first one is made, the others can fail only if memory runs out.
    pub(crate) fn rename(&self, renaming: &Renaming<'_>) -> Result<Calls, MountedRefusal>
        ensures { Gives (rename_calls (sight_of self.now) renaming.now.flags renaming.now.dir renaming.now.name.now renaming.now.new_dir renaming.now.new_name.now) result }
    {
        if renaming.flags > 1 {
            return Err(MountedRefusal::Flags);
        }
        let source = self.path_of_name(renaming.dir, renaming.name)?;
        let target = self.path_of_name(renaming.new_dir, renaming.new_name)?;
        let i = self.find(renaming.dir, renaming.name)?;
        let stat = self.stat(i)?;
        if matches!(stat.kind, Kind::Directory) {
            return Err(MountedRefusal::IsDirectory);
        }
        match look_up(
            self.volume.image(),
            self.geometry,
            renaming.new_dir,
            renaming.new_name,
        ) {
            Ok(j) => self.rename_over(renaming.flags, &stat, j, source, target),
            Err(NodeFault::NoEntry) => self.move_to(source, target),
            Err(fault) => Err(MountedRefusal::from(fault)),
        }
    }

    /// Returns the calls of a rename to a name that doesn't exist.
    fn move_to(&self, source: Bytes, target: Bytes) -> Result<Calls, MountedRefusal>
        ensures { Gives (move_calls (sight_of self.now) source target) result }
    {
        let again = Bytes::from_slice(self.alloc, source.as_slice())?;
        let mut calls = Calls::one(self.alloc, self.call_link(source, target))?;
        calls.push(self.call_unlink(again))?;
        self.ask(calls.as_slice())?;
        Ok(calls)
    }

    /// Returns the calls of a rename to an existing name, which is node `j`'s.
    fn rename_over(
        &self,
        flags: u32,
        stat: &Stat,
        j: u16,
        source: Bytes,
        target: Bytes,
    ) -> Result<Calls, MountedRefusal>
        ensures { Gives (over_calls (sight_of self.now) flags stat.now j source target) result }
    {
        if flags == 1 {
            return Err(MountedRefusal::Call(Refusal::Exists));
        }
        if j == stat.number {
            return Ok(Calls::none(self.alloc));
        }
        let there = self.stat(j)?;
        self.replace(stat, &there, source, target)
    }

    /// Returns the calls of a rename to the name of another node.
    fn replace(
        &self,
        stat: &Stat,
        there: &Stat,
        source: Bytes,
        target: Bytes,
    ) -> Result<Calls, MountedRefusal>
        ensures { Gives (replace_calls (sight_of self.now) stat.now there.now source target) result }
    {
        if matches!(there.kind, Kind::Directory) {
            return Err(MountedRefusal::Call(Refusal::IsDirectory));
        }
        if self.geometry.edition.constants().link_limit <= stat.links {
            return Err(MountedRefusal::Call(Refusal::TooManyLinks));
        }
        let tests = self.two_unlinks(&target, &source)?;
        self.ask(tests.as_slice())?;
        Ok(self.three_calls(source, target)?)
    }

    /// Returns the calls that remove two names.
    fn two_unlinks(&self, first: &Bytes, second: &Bytes) -> Result<Calls, AllocError>
        ensures { IfOk result (λ all. all ≡ calls.Unlink user self.now.moment first.now ∷ calls.Unlink user self.now.moment second.now ∷ []) }
    {
        let first = Bytes::from_slice(self.alloc, first.as_slice())?;
        let second = Bytes::from_slice(self.alloc, second.as_slice())?;
        let mut calls = Calls::one(self.alloc, self.call_unlink(first))?;
        calls.push(self.call_unlink(second))?;
        Ok(calls)
    }

    /// Returns the calls that replace one node's name by another's.
    fn three_calls(&self, source: Bytes, target: Bytes) -> Result<Calls, AllocError>
        ensures { IfOk result (λ all. all ≡ calls.Unlink user self.now.moment target ∷ calls.Link user self.now.moment source target ∷ calls.Unlink user self.now.moment source ∷ []) }
    {
        let first = Bytes::from_slice(self.alloc, target.as_slice())?;
        let last = Bytes::from_slice(self.alloc, source.as_slice())?;
        let mut calls = Calls::one(self.alloc, self.call_unlink(first))?;
        calls.push(self.call_link(source, target))?;
        calls.push(self.call_unlink(last))?;
        Ok(calls)
    }
}
