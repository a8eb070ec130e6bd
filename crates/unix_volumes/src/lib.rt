//! Disk images of Sixth and Seventh Edition Unix: everything that a program needs to work with them, in one crate.
//!
//! This crate has no code of its own. It re-exports other crates of the repository, so that a program names only this one in its
//! line of `crates.txt`. `example_volume` is such a program.
//!
//! **An image** is a list of bytes in memory. [`load`] reads one from a [`Source`] and [`save`] writes one to a [`Sink`], over
//! any reader ([`FromRead`]) and writer ([`IntoWrite`]). [`mkfs`] makes one with an empty root, and [`BlankVolume`] writes one
//! straight to a sink. No function opens a file.
//!
//! **A volume.** [`Volume::mount`] takes the bytes of an image and judges them: it mounts only a sound image, and reports the
//! first of twelve rules that a damaged one breaks ([`MountFault`], [`judge`]). [`Volume::call`] makes one [`Call`] for a user
//! ([`Cred`]) and at a given time. It returns what was [`Done`], or a [`Refusal`] with the call, after which nothing has changed.
//! [`Volume::ask`] answers a [`Query`] with a [`Reply`]. [`Volume::journal`] has the accepted calls, and [`Volume::unmount`]
//! returns the bytes. [`ask`] looks at an image once, without mounting it.
//!
//! **Sharing.** [`Shared::open`] puts a volume under a lock with 1 to 64 sessions, and [`Shared::open_with`] adds up to 16 views.
//! Each thread calls through a [`Session`] of its own, and gets a [`Receipt`] for each call and query. A [`View`] answers queries
//! without the lock, and knows at least what it learned from a session ([`View::learn`]). [`Shared::close_with`] ends the
//! sharing: it takes all sessions and views, and returns the volume as a [`Closed`], which confirms each receipt against the
//! journal.
//!
//! **Checking.** [`icheck`], [`dcheck`] and [`ncheck`] return the reports of the programs of these names, for any image, with 1 to 64 threads; a
//! [`Sweep`] is such a check in steps. [`judge`] returns the first broken rule, and [`rules`] lists what breaks each of them. [`salvage`] rebuilds
//! the free list if nothing else is wrong, and [`migrate`] turns a volume of the sixth edition into one of the seventh.
//!
//! **Archives.** [`export`] writes everything below a directory as a tar archive, and [`import`] adds an archive's members to a
//! volume; [`import_with`] may leave out special files, and give all members to one owner.
//!
//! Memory always comes from an allocator that the caller passes, and running out of it is an error like any other.
//!
//! The definitions that the contracts cite are re-exported too: `specs/Lib.antt` lists them.
#![tactic(auto)]

pub use pdp_words::{
    BLOCK, FromRead, Image, IntoWrite, LoadFault, SaveFault, Sink, Source, load, save, write_all,
};
pub use vol_archive::{WriteFault, export};
pub use vol_check::{
    CheckSeat, Checker, Gate, MOST_WORKERS, Open, Piece, SalvageFault, Sweep, dcheck, icheck,
    ncheck, salvage,
};
pub use vol_dir::{Cred, DirectoryFault, FoundDirectory, Refusal, find_directory};
pub use vol_findings as rules;
pub use vol_import::{ArchiveFault, ImportFault, ImportOptions, Imported, import, import_with};
pub use vol_layout::{DeviceId, DeviceKind, Edition, Geometry, GeometryFault, Kind};
pub use vol_migrate::{Devices, MigrateFault, migrate, migrate_with};
pub use vol_mkfs::mkfs::mkfs;
pub use vol_mkfs::{BlankVolume, MkfsFault, NewVolume};
pub use vol_receipts::{
    Asked, ConfirmFault, Confirmed, Outcome, Receipt, ReceiptStatus, confirm, confirm_all, find_all,
};
pub use vol_reports::{FreeFault, Line, Report, Total};
pub use vol_shared::{Closed, MOST_SESSIONS, OpenFault, Session, Shared};
pub use vol_views::{MOST_VIEWS, View, ViewFault};
pub use vol_volume::{
    Bytes, Call, Done, Listing, MountFault, Query, Record, Reply, Stat, TooManyRecords, Volume,
    ask, judge,
};
