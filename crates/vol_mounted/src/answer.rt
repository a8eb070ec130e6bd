//! The answer to one request.
ghost use Rattle.std.specs.Prelude.{◌≡◌, Some, None, if◌then◌else◌};
ghost use Rattle.fuse_words.specs.Replies.{status_message};
ghost use Rattle.vol_mounted.specs.Errno.{errno};
ghost use Rattle.vol_mounted.specs.Turns.{is_sync, malformed_reply};

use crate::calls::Calls;
use crate::host::Host;
use crate::loss::Loss;
use crate::refusal::{MountedRefusal, errno};
use crate::server::MountedServer;
use crate::settle::settle_loss;
use fuse_words::{Header, Operation, Request, RequestFault, read_request};
use std::alloc::Global;
use vol_serve::errno::RequestRefusal;
use vol_serve::memory::Room;

impl MountedServer {
    ghost use Rattle.std.specs.Prelude.{◌≡◌, ◌≢◌, ◌<◌, ◌≤◌, ◌+◌, ℕ, List, length, nat_lt, IsSome, Some, None, Ok, Err, if◌then◌else◌, IfOk, OnOk, IfErr};
    ghost use Rattle.fuse_words.specs.Requests.{request_of};
    ghost use Rattle.vol_serve.specs.Messages.{Grows};
    ghost use Rattle.vol_mounted.specs.Losses.{loss_size, lost_node, lost_file, kept_after, node_of, file_of};
    ghost use Rattle.std.specs.Vec.{vec_capacity};
    ghost use Rattle.vol_layout.specs.Geometry.{geometry_of};
    ghost use Rattle.vol_mounted.specs.Records.{after_loss, settled};
    ghost use Rattle.vol_mounted.specs.Refusals.{Puts, no_memory};
    ghost use Rattle.vol_mounted.specs.Replies.{reply_of};
    ghost use Rattle.vol_mounted.specs.Servers.{sight_at, files_in, held_in, spare_in, Kept};
    ghost use Rattle.vol_mounted.specs.Turns.{planned, IsMade, IsUnmade, IsAnswered, IsServed, HasOutcome, Answers, put_by};

    /// Puts the reply to a request into `room`; returns false if none is sent.
    pub(crate) fn answer<H: Host>(
        &mut self,
        alloc: Global,
        now: u32,
        request: &[u8],
        room: &mut Room,
        host: &mut H,
    ) -> bool
        ensures { (images : List (List ℕ)) × Grows (H.saved host.old) (H.saved host.new) images
            × Answers self.old self.new now (request_of request.now) (if result then Some room.new.reply else None) images }
    {
        match read_request(request) {
            Ok(request) => self.answer_request(alloc, now, request, room, host),
            Err(RequestFault::NoHeader) => false,
            Err(RequestFault::Length(header)) => refuse_malformed(&header, room),
            Err(RequestFault::Body(header)) => refuse_malformed(&header, room),
        }
    }

    /// Puts the reply to a well-formed request into `room`; returns false if the kernel waits for none.
    fn answer_request<H: Host>(
        &mut self,
        alloc: Global,
        now: u32,
        request: Request<'_>,
        room: &mut Room,
        host: &mut H,
    ) -> bool
        ensures { (images : List (List ℕ)) × Grows (H.saved host.old) (H.saved host.new) images
            × Answers self.old self.new now (Ok request.entry) (if result then Some room.new.reply else None) images }
    {
        let Request { header, operation } = request;
        if !header.wants_reply() {
            return false;
        }
        match self.answer_operation(alloc, now, &header, &operation, room, host) {
            Ok(()) => true,
            Err(refusal) => {
                refuse(&header, refusal, room);
                true
            }
        }
    }

    /// Puts the reply to an operation into `room`, unless it is refused. FSYNC and FSYNCDIR save the image first.
    fn answer_operation<H: Host>(
        &mut self,
        alloc: Global,
        now: u32,
        header: &Header,
        operation: &Operation<'_>,
        room: &mut Room,
        host: &mut H,
    ) -> Result<(), MountedRefusal>
        ensures { (images : List (List ℕ)) × Grows (H.saved host.old) (H.saved host.new) images
            × HasOutcome self.old self.new now header.now operation.now (put_by result room.new.reply) images }
    {
        if !is_sync(operation) {
            return self.answer_saved(alloc, now, header, operation, room);
        }
        if !self.save(host) {
            return Err(MountedRefusal::Unsaved);
        }
        self.answer_saved(alloc, now, header, operation, room)
    }

    /// Puts the reply to an operation into `room`, unless it is refused. Saves nothing.
    fn answer_saved(
        &mut self,
        alloc: Global,
        now: u32,
        header: &Header,
        operation: &Operation<'_>,
        room: &mut Room,
    ) -> Result<(), MountedRefusal>
        ensures { IsServed self.old self.new now header.now operation.now (put_by result room.new.reply) }
    {
        if self.orphans.has(header.node) {
            return self.answer_orphan(now, header, operation, room);
        }
        self.operate(alloc, now, header, operation, room)
    }

    /// Makes the calls of an operation, records their effects, and puts the reply into `room`.
    fn operate(
        &mut self,
        alloc: Global,
        now: u32,
        header: &Header,
        operation: &Operation<'_>,
        room: &mut Room,
    ) -> Result<(), MountedRefusal>
        ensures answered { IsAnswered self.old self.new now header.now operation.now (put_by result room.new.reply) }
        ensures kept { Kept self.old self.new }
    {
        match self.change(alloc, now, header, operation) {
            Ok(()) => self.put_reply(alloc, now, header, operation, room),
            Err(refusal) => Err(refusal),
        }
    }

    /// Puts the reply to an operation on the present tree into `room`.
    fn put_reply(
        &self,
        alloc: Global,
        now: u32,
        header: &Header,
        operation: &Operation<'_>,
        room: &mut Room,
    ) -> Result<(), MountedRefusal>
        ensures { Puts (reply_of (sight_at self.now now) header.now operation.now) result room.new.reply }
    {
        self.scene(alloc, now).put_reply(header, operation, room)
    }

    /// Makes the calls of an operation, and records their effects.
    fn change(
        &mut self,
        alloc: Global,
        now: u32,
        header: &Header,
        operation: &Operation<'_>,
    ) -> Result<(), MountedRefusal>
        ensures made { OnOk result (IsMade self.old self.new now header.now operation.now) }
        ensures unmade { IfErr result (IsUnmade self.old self.new now header.now operation.now) }
        ensures kept { Kept self.old self.new }
    {
        let (calls, loss) = self.plan(alloc, now, header, operation)?;
        self.orphans.reserve(loss.is_some())?;
        let count = self.volume.journal().len();
        match self.make(alloc, calls) {
            Ok(()) => {
                self.nodes.settle(&self.volume, header, operation);
                self.lose(loss);
                Ok(())
            }
            Err(refusal) => {
                // A new node has a new number, even if it couldn't be given to its owner.
                self.settle_if_grown(count, header, operation);
                self.lose(loss);
                Err(refusal)
            }
        }
    }

    /// Returns the calls of an operation, and the file that loses a name through them.
    fn plan(
        &self,
        alloc: Global,
        now: u32,
        header: &Header,
        operation: &Operation<'_>,
    ) -> Result<(Calls, Option<Loss>), MountedRefusal>
        ensures planned { IfOk result (λ (calls, loss). planned self.now now header.now operation.now ≡ Ok calls) }
        ensures refused { IfErr result (λ refusal. refusal ≢ no_memory → planned self.now now header.now operation.now ≡ Err refusal) }
        ensures room { IfOk result (λ (calls, loss). loss_size loss ≤ spare_in self.now) }
        ensures node { IfOk result (λ (calls, loss). node_of loss ≡ lost_node (sight_at self.now now) header.now operation.now) }
        ensures file { IfOk result (λ (calls, loss). file_of loss ≡ lost_file (sight_at self.now now) header.now operation.now) }
    {
        let scene = self.scene(alloc, now);
        let calls = scene.plan(header, operation)?;
        let loss = scene.loss(header, operation, self.spare())?;
        Ok((calls, loss))
    }

    /// Records the effect of an operation on the nodes that the kernel knows, if the journal has more than `count` records.
    fn settle_if_grown(&mut self, count: usize, header: &Header, operation: &Operation<'_>)
        ensures volume { self.new.volume ≡ self.old.volume }
        ensures orphans { self.new.orphans ≡ self.old.orphans }
        ensures owner { self.new.owner ≡ self.old.owner }
        ensures is_changed { self.new.is_changed ≡ self.old.is_changed }
        ensures weight { self.new.weight ≡ self.old.weight }
        ensures nodes { self.new.nodes ≡ (if nat_lt count (length self.old.volume.journal)
            then settled (geometry_of self.old.volume.edition self.old.volume.image) self.old.volume.image self.old.nodes header.now operation.now
            else self.old.nodes) }
    {
        if count < self.volume.journal().len() {
            self.nodes.settle(&self.volume, header, operation);
        }
    }

    /// Records that a file lost a name, if one did.
    fn lose(&mut self, loss: Option<Loss>)
        requires { IsSome loss → length (files_in self.old) < vec_capacity self.old.orphans.files }
        ensures volume { self.new.volume ≡ self.old.volume }
        ensures owner { self.new.owner ≡ self.old.owner }
        ensures is_changed { self.new.is_changed ≡ self.old.is_changed }
        ensures weight { self.new.weight ≡ self.old.weight }
        ensures nodes { self.new.nodes ≡ after_loss (geometry_of self.old.volume.edition self.old.volume.image) self.old.volume.image self.old.nodes (node_of loss) }
        ensures files { files_in self.new ≡ kept_after (geometry_of self.old.volume.edition self.old.volume.image) self.old.volume.image (files_in self.old) (node_of loss) (file_of loss) }
        ensures held { held_in self.new ≤ held_in self.old + loss_size loss }
    {
        if let Some(loss) = loss {
            settle_loss(&mut self.nodes, &mut self.orphans, &self.volume, loss);
        }
    }
}

/// Puts the error reply for a refusal into `room`.
fn refuse(header: &Header, refusal: MountedRefusal, room: &mut Room)
    ensures { room.new.reply ≡ status_message header.now.unique (errno refusal) }
{
    room.reply.put_status(header.unique, errno(refusal));
}

/// Puts the reply to a malformed request into `room`; returns false if the kernel waits for none.
fn refuse_malformed(header: &Header, room: &mut Room) -> bool
    ensures { (if result then Some room.new.reply else None) ≡ malformed_reply header.now }
{
    refuse(
        header,
        MountedRefusal::Request(RequestRefusal::Malformed),
        room,
    );
    header.wants_reply()
}

/// True if an operation requests saving the image.
fn is_sync(operation: &Operation<'_>) -> bool
    ensures { result ≡ is_sync operation.now }
{
    matches!(
        operation,
        Operation::Fsync { .. } | Operation::FsyncDir { .. }
    )
}
