//! A view that learns from a session, lists a directory and reads a file, and does so again after the session has changed both.
ghost use Rattle.std.specs.Prelude.{◌≡◌, Some};

use crate::fixtures::{bytes_of, create, new_volume, write};
use crate::threads::make;
use std::alloc::Global;
use std::process::Abort;
use std::sync::Wait;
use vol_dir::Cred;
use vol_layout::Edition;
use vol_shared::{Outcome, Receipt, Session, Shared};
use vol_views::View;
use vol_volume::{Bytes, Query, Reply};

/// Opens a new volume with a session and a view.
fn open_one<R: Wait + Abort>(rt: &R, alloc: Global) -> (Shared, Session, View)
    ensures session { result.1.of ≡ result.0.of }
    ensures view { result.0.of.book ≡ Some result.2.book }
    ensures sessions { result.0.sessions ≡ 1 }
    ensures views { result.0.views ≡ 1 }
{
    let volume = new_volume(rt, alloc, Edition::V7);
    let Ok((shared, mut sessions, mut views)) = Shared::open_with(rt, alloc, volume, 1, 1) else {
        panic!(rt; "memory for a session and a view")
    };
    let session = sessions.take_last();
    let view = views.take_last();
    (shared, session, view)
}

/// Closes a volume with a session and a view.
fn close_one<R: Wait + Abort>(rt: &R, alloc: Global, shared: Shared, session: Session, view: View)
    requires sessions { shared.sessions ≡ 1 }
    requires views { shared.views ≡ 1 }
    requires session { session.of ≡ shared.of }
    requires view { shared.of.book ≡ Some view.book }
{
    let mut sessions = Vec::with_capacity(alloc, 1).expect(rt, "memory for a session");
    sessions.push_reserved(session);
    let mut views = Vec::with_capacity(alloc, 1).expect(rt, "memory for a view");
    views.push_reserved(view);
    shared.close_with(rt, sessions, views);
}

/// Runs a query on a view, and returns the reply.
fn ask(rt: &impl Abort, alloc: Global, view: &mut View, query: Query) -> Reply
    ensures { view.new.book ≡ view.old.book }
{
    let Ok(receipt) = view.ask(alloc, query) else {
        panic!(rt; "a query without an answer")
    };
    let Receipt { outcome, .. } = receipt;
    match outcome {
        Outcome::Answered(reply) => reply,
        _ => panic!(rt; "a refused query"),
    }
}

/// Checks that a view lists these names in the root, and reads these bytes in the file `/a`.
fn check_seen(rt: &impl Abort, alloc: Global, view: &mut View, names: &[(Bytes, u16)], bytes: &[u8])
    ensures { view.new.book ≡ view.old.book }
{
    let list = Query::List {
        cred: Cred::ROOT,
        path: bytes_of(rt, alloc, b"/"),
    };
    match ask(rt, alloc, view, list) {
        Reply::Names(listing) => assert!(rt; listing.as_slice() == names),
        _ => panic!(rt; "a list without names"),
    }
    let read = Query::Read {
        cred: Cred::ROOT,
        path: bytes_of(rt, alloc, b"/a"),
        offset: 0,
        len: 100,
    };
    match ask(rt, alloc, view, read) {
        Reply::Bytes(all) => assert_eq!(rt; all.as_slice(), bytes),
        _ => panic!(rt; "a read without bytes"),
    }
}

#[test]
fn a_view_lists_and_reads_what_it_learned(rt: HostRuntime) {
    let alloc = rt.alloc();
    let (shared, mut session, mut view) = open_one(&rt, alloc);
    let (here, above) = (bytes_of(&rt, alloc, b"."), bytes_of(&rt, alloc, b".."));
    let (a, b) = (bytes_of(&rt, alloc, b"a"), bytes_of(&rt, alloc, b"b"));
    let names = [(here, 2), (above, 2), (a, 16), (b, 15)];

    make(&rt, alloc, &shared, &mut session, create(&rt, alloc, b"/a"));
    let first = write(&rt, alloc, b"/a", 0, b"first\n");
    make(&rt, alloc, &shared, &mut session, first);
    view.learn(&mut session);
    check_seen(&rt, alloc, &mut view, &names[..3], b"first\n");

    make(&rt, alloc, &shared, &mut session, create(&rt, alloc, b"/b"));
    let second = write(&rt, alloc, b"/a", 6, b"second\n");
    make(&rt, alloc, &shared, &mut session, second);
    view.learn(&mut session);
    check_seen(&rt, alloc, &mut view, &names, b"first\nsecond\n");
    close_one(&rt, alloc, shared, session, view);
}
