//! The loop over requests.
ghost use Rattle.std.specs.Prelude.{◌≡◌, ◌≢◌, ◌∷◌, [], true, None, Err, OnOk};
ghost use Rattle.std.specs.Bool.{OnTrue, OnFalse};
ghost use Rattle.std.specs.List.{filter_map};
ghost use Rattle.vol_serve.specs.Answers.{reply_to};
ghost use Rattle.vol_serve.specs.Messages.{Grows};
ghost use Rattle.vol_serve.specs.Serve.{Serves};
ghost use Rattle.vol_layout.specs.Geometry.{Fits};

use crate::answer::answer;
use crate::memory::{Memory, Room};
use crate::messages::{Replies, Requests};
use crate::served::Served;
use pdp_words::Image;
use std::alloc::Global;
use vol_layout::Geometry;

/// The reason why serving ended before the requests did.
#[derive(Clone, Copy)]
pub enum ServeFault {
    /// Out of memory, before the first request.
    NoMemory,
    /// A reply couldn't be sent.
    Send,
    /// 2^64 - 1 requests were taken.
    Requests,
}

/// Serves an image read-only until there are no more requests. Takes 390 KiB, and, while it counts the free blocks, a byte for each block of the
/// volume and four bytes for each free one. After that, requests take no memory.
pub fn serve<Q: Requests, P: Replies>(
    alloc: Global,
    image: &Image,
    geometry: &Geometry,
    requests: &mut Q,
    replies: &mut P,
) -> Result<(), ServeFault>
    requires { Fits geometry.now image.now }
    ensures replies { Serves (reply_to geometry.now image.now) (Q.taken requests.old) (Q.taken requests.new)
        (P.sent replies.old) (P.sent replies.new) result }
    ensures ended { OnOk result (Q.has_ended requests.new ≡ true) }
    ensures failed { result ≡ Err ServeFault.Send → P.has_failed replies.new ≡ true }
{
    let Ok(mut memory) = Memory::new(alloc, image, geometry) else {
        return Err(ServeFault::NoMemory);
    };
    let served = Served {
        image,
        geometry,
        sizes: &memory.sizes,
    };
    run(
        &served,
        &mut memory.request,
        &mut memory.room,
        requests,
        replies,
    )
}

/// Replies to requests until there are no more.
fn run<Q: Requests, P: Replies>(
    served: &Served<'_>,
    buffer: &mut [u8],
    room: &mut Room,
    requests: &mut Q,
    replies: &mut P,
) -> Result<(), ServeFault>
    ensures replies { Serves (reply_to served.now.geometry.now served.now.image.now) (Q.taken requests.old) (Q.taken requests.new)
        (P.sent replies.old) (P.sent replies.new) result }
    ensures ended { OnOk result (Q.has_ended requests.new ≡ true) }
    ensures failed { result ≡ Err ServeFault.Send → P.has_failed replies.new ≡ true }
{
    'requests: for turn in 0..u64::MAX {
        let Some(count) = requests.take(buffer) else {
            return Ok(());
        };
        if !answer_one(served, &buffer[..count], room, replies) {
            return Err(ServeFault::Send);
        }
    }
    Err(ServeFault::Requests)
}

/// Sends the reply to a request, if it has one. Returns false if the reply couldn't be sent.
fn answer_one<P: Replies>(
    served: &Served<'_>,
    request: &[u8],
    room: &mut Room,
    replies: &mut P,
) -> bool
    ensures sent { OnTrue result (Grows (P.sent replies.old) (P.sent replies.new)
        (filter_map (reply_to served.now.geometry.now served.now.image.now) (request.now ∷ []))) }
    ensures kept { OnFalse result (Grows (P.sent replies.old) (P.sent replies.new) []) }
    ensures missing { OnFalse result (reply_to served.now.geometry.now served.now.image.now request.now ≢ None) }
    ensures failed { OnFalse result (P.has_failed replies.new ≡ true) }
{
    if answer(served, request, room) {
        replies.send(room.reply.as_slice())
    } else {
        true
    }
}
