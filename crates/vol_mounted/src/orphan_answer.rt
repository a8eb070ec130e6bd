//! Replies to operations on files without a name that are still open.
ghost use Rattle.std.specs.Prelude.{◌≡◌};
ghost use Rattle.vol_mounted.specs.Orphans.{is_release};

use crate::orphan::{Limits, Orphan, Orphans};
use crate::refusal::MountedRefusal;
use crate::reply::count_of;
use crate::server::MountedServer;
use fuse_words::{Header, KEEP_CACHE, MOST_DATA, Operation};
use vol_serve::errno::RequestRefusal;
use vol_serve::memory::Room;
use vol_serve::nodes::NodeFault;

/// The number of seconds for which the kernel may keep the attributes.
const SECONDS: u64 = 3600;

impl MountedServer {
    ghost use Rattle.std.specs.Prelude.{◌≡◌};
    ghost use Rattle.vol_mounted.specs.Servers.{Kept};
    ghost use Rattle.vol_mounted.specs.Turns.{IsReplied, put_by};

    /// Puts the reply to an operation on a file without a name into `room`. The volume isn't changed.
    pub(crate) fn answer_orphan(
        &mut self,
        now: u32,
        header: &Header,
        operation: &Operation<'_>,
        room: &mut Room,
    ) -> Result<(), MountedRefusal>
        ensures volume { self.new.volume ≡ self.old.volume }
        ensures nodes { self.new.nodes ≡ self.old.nodes }
        ensures replied { IsReplied self.old self.new now header.now operation.now (put_by result room.new.reply) }
        ensures kept { Kept self.old self.new }
    {
        if is_release(operation) {
            self.orphans.close(header.node);
            room.reply.put_status(header.unique, 0);
            return Ok(());
        }
        let limits = Limits {
            greatest: self.volume.edition().constants().greatest,
            spare: self.spare(),
        };
        self.orphans.answer(now, header, operation, limits, room)
    }
}

impl Orphans {
    ghost use Rattle.std.specs.Prelude.{◌≡◌, ◌≢◌, ◌≤◌, ◌+◌, Ok, Err, OnOk, IfErr, OnErr};
    ghost use Rattle.vol_serve.specs.declared.nodes.fault.NodeFault.TheVariants as faults;
    ghost use Rattle.vol_mounted.specs.Orphans.{held_by, with_file, replied_at};
    ghost use Rattle.vol_mounted.specs.Refusals.{no_node, no_memory};

    /// Puts the reply to an operation on a file other than RELEASE into `room`. If it is refused, no file is changed.
    fn answer(
        &mut self,
        now: u32,
        header: &Header,
        operation: &Operation<'_>,
        limits: Limits,
        room: &mut Room,
    ) -> Result<(), MountedRefusal>
        ensures replied { OnOk result (with_file header.now.node self.old.files.items (Err (no_node faults.Stale))
            (replied_at limits now header.now.unique operation.now self.old.files.items) ≡ Ok (record { files = self.new.files.items; reply = room.new.reply })) }
        ensures refused { IfErr result (λ refusal. refusal ≢ no_memory → with_file header.now.node self.old.files.items (Err (no_node faults.Stale))
            (replied_at limits now header.now.unique operation.now self.old.files.items) ≡ Err refusal) }
        ensures same { OnErr result (self.new.files.items ≡ self.old.files.items) }
        ensures held { held_by self.new.files.items ≤ held_by self.old.files.items + limits.spare }
    {
        let Some(place) = self.place(header.node) else {
            return Err(MountedRefusal::STALE);
        };
        match self.files.get_mut(place) {
            Some(file) => file.answer(now, header.unique, operation, limits, room),
            None => Err(MountedRefusal::STALE),
        }
    }
}

impl Orphan {
    ghost use Rattle.std.specs.Prelude.{◌≡◌, ◌≢◌, ◌≤◌, ◌+◌, Ok, Err, OnOk, IfErr, OnErr};
    ghost use Rattle.fuse_words.specs.Replies.{attributes_message};
    ghost use Rattle.vol_mounted.specs.Orphans.{size_of, file_after, file_reply, present_attributes};
    ghost use Rattle.vol_mounted.specs.Refusals.{no_memory};

    /// Puts the reply to an operation on this file other than RELEASE into `room`. If it is refused, the file is unchanged.
    #[tactic(auto, unfolding(crate::specs::Orphans::file_after, crate::specs::Orphans::file_reply))]
    fn answer(
        &mut self,
        now: u32,
        unique: u64,
        operation: &Operation<'_>,
        limits: Limits,
        room: &mut Room,
    ) -> Result<(), MountedRefusal>
        ensures after { OnOk result (file_after limits now operation.now self.old ≡ Ok self.new) }
        ensures replied { OnOk result (room.new.reply ≡ file_reply unique operation.now self.new) }
        ensures refused { IfErr result (λ refusal. refusal ≢ no_memory → file_after limits now operation.now self.old ≡ Err refusal) }
        ensures same { OnErr result (self.new ≡ self.old) }
        ensures bounded { size_of self.new ≤ size_of self.old + limits.spare }
    {
        match operation {
            Operation::GetAttr => self.put_attributes(unique, room),
            Operation::SetAttr { changes } => {
                self.resize(changes.size, limits)?;
                self.set(now, changes);
                self.put_attributes(unique, room);
            }
            Operation::Read { offset, size, .. } => {
                let size = MOST_DATA.min(*size as usize);
                room.reply.put_data(unique, self.read(*offset, size));
            }
            Operation::Write {
                offset,
                content,
                ..
            } => {
                self.write(*offset, content.as_slice(), limits)?;
                room.reply.put_written(unique, count_of(content.as_slice()));
            }
            Operation::Open { .. } => {
                self.opened = self.opened.saturating_add(1);
                room.reply.put_open(unique, 0, KEEP_CACHE);
            }
            Operation::Fsync { .. } => room.reply.put_status(unique, 0),
            Operation::Link { .. } => return Err(MountedRefusal::from(NodeFault::NoEntry)),
            _ => return Err(MountedRefusal::Request(RequestRefusal::Unserved)),
        }
        Ok(())
    }

    /// Puts its attributes into `room`.
    fn put_attributes(&self, unique: u64, room: &mut Room)
        ensures { room.new.reply ≡ attributes_message unique 3600 (present_attributes self.now) }
    {
        room.reply
            .put_attributes(unique, SECONDS, &self.attributes());
    }
}

/// True for RELEASE.
fn is_release(operation: &Operation<'_>) -> bool
    ensures { result ≡ is_release operation.now }
{
    matches!(operation, Operation::Release { .. })
}
