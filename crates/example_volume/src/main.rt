//! A program that uses `unix_volumes`. It makes a volume, mounts it and makes four calls; shares it between two sessions and a
//! view, and confirms their receipts; checks the image, and prints the results. Ends with status 1 if anything is refused.
#![tactic(auto)]

ghost use Rattle.std.specs.Prelude.{◌≡◌, ◌≤◌, Some, length, All};

use std::alloc::Global;
use std::process::ExitCode;
use std::sync::Wait;
use std::thread::Threads;
use unix_volumes::{
    Bytes, Call, Closed, Cred, DeviceId, DeviceKind, Edition, Open, Query, Receipt, Shared, Volume,
    icheck, judge, mkfs,
};

/// The time of all calls, in seconds since the beginning of 1970: the 10th of January 1979.
const NOW: u32 = 284_774_400;

/// The path of the file.
const HELLO: &[u8] = b"/home/hello";

fn main(rt: HostRuntime) -> ExitCode {
    match run(&rt) {
        Some(()) => ExitCode::SUCCESS,
        None => ExitCode::FAILURE,
    }
}

/// Runs all steps. Returns `None` if anything is refused.
fn run<R: AllocGlobal + Print + Threads + Wait + Sync>(rt: &R) -> Option<()> {
    let alloc = rt.alloc();
    let image = mkfs(alloc, Edition::V7, 100, 2, 0, 0, NOW).ok()?;
    let mut volume = Volume::mount(alloc, Edition::V7, image).ok()?;
    make_hello(alloc, &mut volume)?;
    make_console(alloc, &mut volume)?;
    println!(rt; "{} calls in the journal", volume.journal().len()).ok()?;
    let (closed, receipts) = share(rt, alloc, volume)?;
    'receipts: for receipt in &receipts {
        let receipt = receipt.as_ref()?;
        let agrees = closed.confirm(alloc, receipt).ok()?;
        println!(rt; "receipt after {} records: {agrees}", receipt.at).ok()?;
    }
    let volume = closed.into_volume();
    let broken = judge(alloc, Edition::V7, volume.image(), true).ok()?;
    println!(rt; "sound: {}", broken.is_none()).ok()?;
    let report = icheck(rt, rt, alloc, Edition::V7, volume.image(), 4, &Open).ok()?;
    let mut text = Vec::new(alloc);
    report.push_text(&mut text).ok()?;
    print!(rt; "{}", str::from_utf8(&text).ok()?).ok()
}

/// Makes the directory `/home`, a file in it, and the file's bytes.
fn make_hello(alloc: Global, volume: &mut Volume) -> Option<()> {
    let mkdir = Call::Mkdir {
        cred: Cred::ROOT,
        now: NOW,
        path: Bytes::from_slice(alloc, b"/home").ok()?,
        perm: 0o755,
    };
    make(alloc, volume, mkdir)?;
    let create = Call::Create {
        cred: Cred::ROOT,
        now: NOW,
        path: Bytes::from_slice(alloc, HELLO).ok()?,
        perm: 0o644,
    };
    make(alloc, volume, create)?;
    let write = Call::Write {
        cred: Cred::ROOT,
        now: NOW,
        path: Bytes::from_slice(alloc, HELLO).ok()?,
        offset: 0,
        bytes: Bytes::from_slice(alloc, b"hello, world\n").ok()?,
    };
    make(alloc, volume, write)
}

/// Makes the special file of the console.
fn make_console(alloc: Global, volume: &mut Volume) -> Option<()> {
    let mknod = Call::Mknod {
        cred: Cred::ROOT,
        now: NOW,
        path: Bytes::from_slice(alloc, b"/console").ok()?,
        perm: 0o622,
        device: DeviceId {
            kind: DeviceKind::Character,
            major: 0,
            minor: 0,
        },
    };
    make(alloc, volume, mknod)
}

/// Makes a call. Returns `None` if it is refused.
fn make(alloc: Global, volume: &mut Volume, call: Call) -> Option<()> {
    volume.call(alloc, call).ok()?;
    Some(())
}

/// Returns a query for the file's attributes.
fn stat(alloc: Global) -> Option<Query> {
    Some(Query::Stat {
        cred: Cred::ROOT,
        path: Bytes::from_slice(alloc, HELLO).ok()?,
    })
}

/// Shares a volume between two sessions and a view: the first session changes the file's owner, and then the second session and
/// the view query its attributes. A receipt is `None` if memory ran out.
fn share<R: Wait>(rt: &R, alloc: Global, volume: Volume) -> Option<(Closed, [Option<Receipt>; 3])> {
    let chown = Call::Chown {
        cred: Cred::ROOT,
        now: NOW,
        path: Bytes::from_slice(alloc, HELLO).ok()?,
        uid: 3,
        gid: 1,
    };
    let (asked, seen) = (stat(alloc)?, stat(alloc)?);
    let (shared, mut sessions, mut views) = match Shared::open_with(rt, alloc, volume, 2, 1) {
        Ok(opened) => opened,
        Err(_) => return None,
    };
    let mut second = sessions.take_last();
    let mut first = sessions.take_last();
    let mut view = views.take_last();
    let changed = shared.call(rt, alloc, &mut first, chown).ok();
    let answered = shared.ask(rt, alloc, &mut second, asked).ok();
    view.learn(&mut first);
    let shown = view.ask(alloc, seen).ok();
    sessions.push_reserved(first);
    sessions.push_reserved(second);
    views.push_reserved(view);
    let closed = shared.close_with(rt, sessions, views);
    Some((closed, [changed, answered, shown]))
}
