//! The loop over requests.
ghost use Rattle.std.specs.Prelude.{◌≡◌, ◌≢◌, ◌∷◌, [], ℕ, List, true, None, Err, OnOk, MatchBool};
ghost use Rattle.vol_serve.specs.Messages.{Grows};
ghost use Rattle.vol_mounted.specs.Servers.{volume_in};
ghost use Rattle.vol_mounted.specs.Services.{Runs, Serves, Stores, IsStored, replies_of};
ghost use Rattle.vol_mounted.specs.Turns.{Turn, Turns};

use crate::host::Host;
use crate::server::MountedServer;
use std::alloc::{AllocError, Global};
use vol_serve::memory::{MOST_REQUEST, Room};
use vol_serve::{Replies, Requests, ServeFault};

/// The reason why serving ended before the requests did, or why the image isn't saved.
#[derive(Clone, Copy)]
pub enum MountedFault {
    /// Serving ended before the requests did.
    Serve(ServeFault),
    /// The image couldn't be saved at the end.
    Unsaved,
}

/// The room for a request and for its reply.
#[derive(Drop)]
struct Memory {
    request: Vec<u8>,
    room: Room,
}

impl Memory {
    /// Allocates the room.
    fn new(alloc: Global) -> Result<Memory, AllocError> {
        let request = vec![in alloc; 0u8; MOST_REQUEST]?;
        let room = Room::new(alloc)?;
        Ok(Memory { request, room })
    }
}

/// Serves a volume until there are no more requests, and then saves it, if it was changed since it was last saved. Takes 390 KiB at the
/// start; a request that changes something takes memory for the journal, and for the bytes of a file that loses its last name while it
/// is open. If memory runs out, the reply is ENOMEM, and serving continues.
pub fn serve<Q: Requests, P: Replies, H: Host>(
    alloc: Global,
    server: &mut MountedServer,
    requests: &mut Q,
    replies: &mut P,
    host: &mut H,
) -> Result<(), MountedFault>
    ensures turns { Serves server.old server.new (Q.taken requests.old) (Q.taken requests.new) (P.sent replies.old) (P.sent replies.new)
        (H.saved host.old) (H.saved host.new) result }
    ensures ended { OnOk result (Q.has_ended requests.new ≡ true) }
    ensures failed { result ≡ Err (MountedFault.Serve ServeFault.Send) → P.has_failed replies.new ≡ true }
    ensures stored { (file : List ℕ) → Stores file (H.saved host.old) server.old → result ≢ Err MountedFault.Unsaved
        → IsStored file (H.saved host.new) (volume_in server.new).image }
{
    let ended = run(alloc, server, requests, replies, host);
    if !server.save(host) {
        return Err(MountedFault::Unsaved);
    }
    match ended {
        Ok(()) => Ok(()),
        Err(fault) => Err(MountedFault::Serve(fault)),
    }
}

/// Answers requests until there are no more. Returns NoMemory only before the first request.
fn run<Q: Requests, P: Replies, H: Host>(
    alloc: Global,
    server: &mut MountedServer,
    requests: &mut Q,
    replies: &mut P,
    host: &mut H,
) -> Result<(), ServeFault>
    ensures turns { Runs server.old server.new (Q.taken requests.old) (Q.taken requests.new) (P.sent replies.old) (P.sent replies.new)
        (H.saved host.old) (H.saved host.new) result }
    ensures ended { OnOk result (Q.has_ended requests.new ≡ true) }
    ensures failed { result ≡ Err ServeFault.Send → P.has_failed replies.new ≡ true }
    ensures stored { (file : List ℕ) → Stores file (H.saved host.old) server.old → Stores file (H.saved host.new) server.new }
{
    let Ok(
        Memory {
            mut request,
            mut room,
        },
    ) = Memory::new(alloc)
    else {
        return Err(ServeFault::NoMemory);
    };
    let buffer = request.as_mut_slice();
    'requests: for turn in 0..u64::MAX {
        let Some(count) = requests.take(buffer) else {
            return Ok(());
        };
        if !take_turn(alloc, server, &buffer[..count], &mut room, replies, host) {
            return Err(ServeFault::Send);
        }
    }
    Err(ServeFault::Requests)
}

/// Answers a request, and sends the reply, if the kernel waits for one. Returns false if it couldn't be sent.
fn take_turn<P: Replies, H: Host>(
    alloc: Global,
    server: &mut MountedServer,
    request: &[u8],
    room: &mut Room,
    replies: &mut P,
    host: &mut H,
) -> bool
    ensures { (turn : Turn) × (turn.request ≡ request.now) × Turns server.old server.new turn
        × Grows (H.saved host.old) (H.saved host.new) turn.images
        × MatchBool result (Grows (P.sent replies.old) (P.sent replies.new) (replies_of (turn ∷ [])))
        (Grows (P.sent replies.old) (P.sent replies.new) [] × (turn.reply ≢ None) × (P.has_failed replies.new ≡ true)) }
{
    let now = host.seconds();
    if !server.answer(alloc, now, request, room, host) {
        server.cut_if_heavy(request);
        return true;
    }
    server.cut_if_heavy(request);
    replies.send(room.reply.as_slice())
}
