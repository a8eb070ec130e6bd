//! Commands as functions with streams for their output and faults. The program calls the functions beside these, and prints the faults itself.
use crate::fixtures::{Stream, copied, stream, taken};
use command_changes::{
    GivenFile, Kept, NewFile, do_change, migrate_command, mkfs_command, put_all,
};
use command_copies::{NodeContent, TreesRead, ending_of, get_trees};
use command_faults::Answer;
use command_reads::cat::cat;
use command_reads::checkers::check;
use command_reads::{get_files, look};
use command_terms::{Change, Look, Migration, NodeName, OutputForm};
use pdp_words::FromRead;
use pdp_words::test_streams::ScriptedReader;
use std::alloc::Global;
use std::process::Abort;
use std::sync::Wait;
use std::thread::Threads;
use vol_check::Checker;
use vol_layout::Edition;
use vol_listing::Screen;
use vol_migrate::Devices;
use vol_mkfs::NewVolume;

/// The time of the volume and of all calls.
const NOW: u32 = 0x0A0B_0C0D;

/// The bytes of the file.
const HELLO: &[u8] = b"hello\n";

/// The beginning of the trace of making the directory.
const MADE: &[u8] = b"168496141 0 0 mkdir /d 0755\n  ";

/// The block report of the volume with a directory and a file.
const REPORT: &[u8] = b"files 1\ndirectories 2\nspecial 0\nodd 0\nused 3\nfree 13\nmissing 0\n";

/// The slots of the directory.
const SLOTS: &[u8] = b"    0    32 .\n    1     1 ..\n    2    31 hello\n";

/// Checks what a command printed.
fn check_printed(rt: &impl Abort, stream: Stream, wanted: &[u8]) {
    assert_eq!(rt; taken(stream).as_slice(), wanted);
}

/// Makes a volume of 20 blocks, which prints nothing.
fn made(rt: &impl Abort, alloc: Global) -> Vec<u8> {
    let volume = NewVolume {
        edition: Edition::V6,
        blocks: 20,
        list_blocks: 2,
        uid: 0,
        gid: 0,
        now: NOW,
    };
    let (mut output, mut errors) = (stream(alloc), stream(alloc));
    let made = mkfs_command(alloc, volume, &mut output, &mut errors);
    check_printed(rt, output, b"");
    check_printed(rt, errors, b"");
    let blank = made.volume.expect(rt, "a volume");
    blank.to_bytes(alloc).expect(rt, "memory for the volume")
}

/// Makes the directory `/d`, and returns the answer and what the command said.
fn make_directory(rt: &impl Abort, alloc: Global, image: Vec<u8>) -> (Answer, Stream) {
    let given = GivenFile {
        bytes: Vec::new(alloc),
        kept: Kept::Nothing,
    };
    let mkdir = Change::Mkdir {
        path: "/d",
        owner: None,
        now: NOW,
    };
    let (mut output, mut errors) = (stream(alloc), stream(alloc));
    let answer = do_change(
        alloc,
        Edition::V6,
        image,
        given,
        mkdir,
        true,
        &mut output,
        &mut errors,
    );
    check_printed(rt, output, b"");
    (answer, errors)
}

/// Puts the file `hello` into `/d`, which prints nothing.
fn put_hello(rt: &impl Abort, alloc: Global, image: Vec<u8>) -> Vec<u8> {
    let content = GivenFile {
        bytes: copied(rt, alloc, HELLO),
        kept: Kept::Nothing,
    };
    let mut files = Vec::new(alloc);
    let pushed = files.push(NewFile {
        name: "hello",
        content,
    });
    assert!(rt; pushed.is_ok());
    let (mut output, mut errors) = (stream(alloc), stream(alloc));
    let answer = put_all(
        alloc,
        Edition::V6,
        image,
        "/d",
        files,
        None,
        NOW,
        false,
        &mut output,
        &mut errors,
    );
    check_printed(rt, output, b"");
    check_printed(rt, errors, b"");
    answer.image.expect(rt, "an image")
}

/// Checks the bytes that `get` and `cat` read of the file.
fn check_read(rt: &impl Abort, alloc: Global, edition: Edition, image: &[u8]) {
    let copy = copied(rt, alloc, image);
    let read = get_files(alloc, edition, copy, &["/d/hello"]);
    let files = read.ok().expect(rt, "files");
    assert_eq!(rt; files.len(), 1);
    for file in &files {
        assert_eq!(rt; file.bytes.as_slice(), HELLO);
    }
    let mut output = stream(alloc);
    let node = NodeName::Path("/d/hello");
    let mut reader = FromRead::new(ScriptedReader::new(image, 512));
    let printed = cat(alloc, edition, node, &mut reader, &mut output);
    assert!(rt; printed.is_ok());
    check_printed(rt, output, HELLO);
}

/// Checks what `get -r` reads of the directory with the file.
fn check_copied(rt: &impl Abort, alloc: Global, edition: Edition, image: &[u8]) {
    let copy = copied(rt, alloc, image);
    let read = get_trees(alloc, edition, copy, &["/d"]);
    let TreesRead { nodes, lines } = read.ok().expect(rt, "trees");
    assert_eq!(rt; nodes.len(), 2);
    for node in &nodes {
        match &node.content {
            NodeContent::Directory => assert_eq!(rt; node.path.as_str(), "d"),
            NodeContent::File(body) => {
                assert_eq!(rt; node.path.as_str(), "d/hello");
                assert_eq!(rt; body.as_slice(), HELLO);
            }
        }
    }
    assert_eq!(rt; ending_of(lines).status, 0);
}

/// Checks what `ls --slots` and `icheck` print.
fn check_shown<R: Threads + Wait + Sync + Abort>(rt: &R, alloc: Global, image: &[u8]) {
    let (mut output, mut errors) = (stream(alloc), stream(alloc));
    let shown = Look::Slots {
        path: "/d",
        form: OutputForm::Text,
    };
    let status = look(
        alloc,
        Edition::V6,
        copied(rt, alloc, image),
        shown,
        Screen::Stream,
        &mut output,
        &mut errors,
    );
    assert_eq!(rt; status, 0);
    check_printed(rt, output, SLOTS);
    let mut output = stream(alloc);
    let status = check(
        rt,
        alloc,
        Edition::V6,
        copied(rt, alloc, image),
        Checker::Blocks,
        1,
        OutputForm::Text,
        Screen::Stream,
        &mut output,
        &mut errors,
    );
    assert_eq!(rt; status, 0);
    check_printed(rt, output, REPORT);
    check_printed(rt, errors, b"");
}

#[test]
fn commands_print_and_return_what_the_program_does(rt: HostRuntime) {
    let alloc = rt.alloc();
    let (answer, errors) = make_directory(&rt, alloc, made(&rt, alloc));
    check_printed(&rt, errors, b"");
    let trace = answer.trace.expect(&rt, "a trace");
    assert!(rt; trace.starts_with(MADE));
    let image = answer.image.expect(&rt, "an image");
    let (again, errors) = make_directory(&rt, alloc, copied(&rt, alloc, &image));
    check_printed(&rt, errors, b"unixvol: 17 Exists\n");
    assert_eq!(rt; (again.status, again.trace.is_none()), (1, true));
    let image = put_hello(&rt, alloc, image);
    check_read(&rt, alloc, Edition::V6, &image);
    check_copied(&rt, alloc, Edition::V6, &image);
    check_shown(&rt, alloc, &image);
    let migration = Migration {
        blocks: 60,
        list_blocks: 8,
        now: NOW,
        devices: Devices::Refuse,
    };
    let (mut output, mut errors) = (stream(alloc), stream(alloc));
    let answer = migrate_command(alloc, image, migration, &mut output, &mut errors);
    check_printed(&rt, output, b"");
    check_printed(&rt, errors, b"");
    let migrated = answer.image.expect(&rt, "an image");
    check_read(&rt, alloc, Edition::V7, &migrated);
    check_copied(&rt, alloc, Edition::V7, &migrated);
}
