//! Headers of GNU tar 1.34 with fields that no command shows, from `tar --owner=3 --group=5 --mtime=@1000000000 -b1 -cf` with `--format=ustar` and
//! `--format=gnu`. `tests/archives.sh` imports other headers.
use crate::fixtures::{Piece, put_all};
use std::alloc::Global;
use std::process::Abort;
use ustar::{
    HeaderFault, MemberKind, ReadHeader, TypeFlag, is_zeros, link_of, path_of, read_header,
};

/// A directory whose path has more than 100 bytes, in POSIX's format.
static POSIX_LONG: [Piece; 5] = [
    (
        0,
        b"qqqqqqqqqqqqqqqqqqqqqqqqqqqqqqqqqqqqqqqqqqqqqqqqqqqqqqqqqqqq/",
    ),
    (
        100,
        b"0000755\x000000003\x000000005\x0000000000000\x0007346545000\x00042137\x00 5",
    ),
    (257, b"ustar\x0000"),
    (329, b"0000000\x000000000"),
    (
        345,
        b"d2/pppppppppppppppppppppppppppppppppppppppppppppppppppppppppppp",
    ),
];

/// The header that precedes the header of the same directory, in GNU tar's format.
static GNU_LONG: [Piece; 3] = [
    (0, b"././@LongLink"),
    (
        100,
        b"0000644\x000000000\x000000000\x0000000000176\x0000000000000\x00007777\x00 L",
    ),
    GNU_MAGIC,
];

/// A hard link to the file `readme`, in GNU tar's format.
static GNU_LINK: [Piece; 3] = [
    (0, b"hard"),
    (
        100,
        b"0000640\x000000003\x000000005\x0000000000000\x0007346545000\x00007761\x00 1readme",
    ),
    GNU_MAGIC,
];

/// A symbolic link to the file `readme`, in GNU tar's format.
static GNU_SYMBOLIC: [Piece; 3] = [
    (0, b"sl"),
    (
        100,
        b"0000777\x000000003\x000000005\x0000000000000\x0007346545000\x00007475\x00 2readme",
    ),
    GNU_MAGIC,
];

/// A FIFO, in GNU tar's format.
static GNU_FIFO: [Piece; 3] = [
    (0, b"ff"),
    (
        100,
        b"0000600\x000000003\x000000005\x0000000000000\x0007346545000\x00006261\x00 6",
    ),
    GNU_MAGIC,
];

/// A file of 9 GiB, whose owner is 2097152, in GNU tar's format: both numbers are in base 256.
static GNU_LARGE: [Piece; 5] = [
    (0, b"big.sparse"),
    (100, b"0000644\x00\x80"),
    (113, b" \x00\x000000005\x00\x80"),
    (131, b"\x02@\x00\x00\x0007346545000\x00006724\x00 0"),
    GNU_MAGIC,
];

/// The magic and the version of GNU tar.
const GNU_MAGIC: Piece = (257, b"ustar  \x00");

/// Checks the fields that are read from a header.
fn check_read(
    rt: &impl Abort,
    alloc: Global,
    pieces: &[Piece],
    path: &[u8],
    link: &[u8],
    header: ReadHeader,
) {
    let mut block = [0; 512];
    put_all(&mut block, pieces);
    assert!(rt; read_header(&block) == Ok(header));
    let read = path_of(alloc, &block).expect(rt, "memory for a path");
    assert_eq!(rt; read.as_slice(), path);
    assert_eq!(rt; link_of(&block), link);
    assert!(rt; !is_zeros(&block));
}

/// Returns the fields of a member that belongs to user 3 and group 5.
fn header(flag: TypeFlag, permissions: u64) -> ReadHeader {
    ReadHeader {
        flag,
        permissions,
        uid: 3,
        gid: 5,
        size: 0,
        modified: 1_000_000_000,
        major: 0,
        minor: 0,
    }
}

#[test]
fn headers_are_read(rt: HostRuntime) {
    let alloc = rt.alloc();
    let path =
        b"d2/pppppppppppppppppppppppppppppppppppppppppppppppppppppppppppp/qqqqqqqqqqqqqqqqqqqqqqqqqqqqqqqqqqqqqqqqqqqqqqqqqqqqqqqqqqqq/";
    let directory = header(TypeFlag::Member(MemberKind::Directory), 0o755);
    check_read(&rt, alloc, &POSIX_LONG, path, b"", directory);
    let name = ReadHeader {
        flag: TypeFlag::LongName,
        permissions: 0o644,
        uid: 0,
        gid: 0,
        size: 126,
        modified: 0,
        major: 0,
        minor: 0,
    };
    check_read(&rt, alloc, &GNU_LONG, b"././@LongLink", b"", name);
    let link = header(TypeFlag::Member(MemberKind::Link), 0o640);
    check_read(&rt, alloc, &GNU_LINK, b"hard", b"readme", link);
    let symbolic = header(TypeFlag::SymbolicLink, 0o777);
    check_read(&rt, alloc, &GNU_SYMBOLIC, b"sl", b"readme", symbolic);
    let fifo = header(TypeFlag::Fifo, 0o600);
    check_read(&rt, alloc, &GNU_FIFO, b"ff", b"", fifo);
    let large = ReadHeader {
        uid: 2_097_152,
        size: 9_663_676_416,
        ..header(TypeFlag::Member(MemberKind::File), 0o644)
    };
    check_read(&rt, alloc, &GNU_LARGE, b"big.sparse", b"", large);
    let zeros = [0; 512];
    assert!(rt; is_zeros(&zeros));
    assert!(rt; read_header(&zeros) == Err(HeaderFault::Checksum));
    let ones = [1; 512];
    assert!(rt; read_header(&ones) == Err(HeaderFault::Magic));
}
