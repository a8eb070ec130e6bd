//! Chooses the calls for an operation by its kind.
use crate::calls::Calls;
use crate::refusal::MountedRefusal;
use crate::rename::Renaming;
use crate::scene::Scene;
use fuse_words::{Header, Name, Operation};

impl Scene<'_> {
    ghost use Rattle.vol_mounted.specs.Refusals.{Gives};
    ghost use Rattle.vol_mounted.specs.Replies.{calls_of, renamed};
    ghost use Rattle.vol_mounted.specs.Scenes.{sight_of};

    /// Returns the calls that an operation makes; no calls if it changes nothing.
    #[tactic(auto, unfolding(crate::specs::Replies::calls_of))]
    pub(crate) fn plan(
        &self,
        header: &Header,
        operation: &Operation<'_>,
    ) -> Result<Calls, MountedRefusal>
        ensures { Gives (calls_of (sight_of self.now) header.now operation.now) result }
    {
        match operation {
            Operation::MkNod { mode, device, name } => {
                let dir = self.number(header.node)?;
                self.make_file(header, dir, name.as_slice(), *mode, *device)
            }
            Operation::MkDir { mode, name } => {
                self.make_directory(header, self.number(header.node)?, name.as_slice(), *mode)
            }
            Operation::Unlink { name } => self.unlink(self.number(header.node)?, name.as_slice()),
            Operation::RmDir { name } => {
                self.remove_directory(self.number(header.node)?, name.as_slice())
            }
            Operation::Link { node, name } => {
                let dir = self.number(header.node)?;
                let i = self.number(*node)?;
                self.link(i, dir, name.as_slice())
            }
            Operation::Rename {
                directory,
                name,
                new_name,
            } => self.renamed(header, *directory, 0, name, new_name),
            Operation::Rename2 {
                directory,
                flags,
                name,
                new_name,
            } => self.renamed(header, *directory, *flags, name, new_name),
            Operation::Write {
                offset,
                content,
                ..
            } => self.write(self.number(header.node)?, *offset, content.as_slice()),
            Operation::SetAttr { changes } => {
                self.set_attributes(self.number(header.node)?, changes)
            }
            _ => Ok(Calls::none(self.alloc)),
        }
    }

    /// Returns the calls of a rename from one directory to another, both given by their node numbers.
    fn renamed(
        &self,
        header: &Header,
        directory: u64,
        flags: u32,
        name: &Name<'_>,
        new_name: &Name<'_>,
    ) -> Result<Calls, MountedRefusal>
        ensures { Gives (renamed (sight_of self.now) header.now directory flags name.now new_name.now) result }
    {
        let dir = self.number(header.node)?;
        let new_dir = self.number(directory)?;
        self.rename(&Renaming {
            dir,
            name: name.as_slice(),
            new_dir,
            new_name: new_name.as_slice(),
            flags,
        })
    }
}
