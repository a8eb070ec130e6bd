//! The texts of refusals and faults.
use pdp_words::{LoadFault, SaveFault};
use std::alloc::Global;
use std::fmt::Display;
use std::process::Abort;
use vol_dir::Refusal;
use vol_migrate::MigrateFault;
use vol_volume::{MkfsFault, MountFault};

static REFUSALS: [(Refusal, u8, &str); 15] = [
    (Refusal::NotOwner, 1, "1 NotOwner"),
    (Refusal::NoEntry, 2, "2 NoEntry"),
    (Refusal::NoMemory, 12, "12 NoMemory"),
    (Refusal::Access, 13, "13 Access"),
    (Refusal::Exists, 17, "17 Exists"),
    (Refusal::NotDirectory, 20, "20 NotDirectory"),
    (Refusal::IsDirectory, 21, "21 IsDirectory"),
    (Refusal::Invalid, 22, "22 Invalid"),
    (Refusal::TooBig, 27, "27 TooBig"),
    (Refusal::NoSpace, 28, "28 NoSpace"),
    (Refusal::TooManyLinks, 31, "31 TooManyLinks"),
    (Refusal::NotEmpty, 101, "101 NotEmpty"),
    (Refusal::NotRegular, 102, "102 NotRegular"),
    (Refusal::NoInode, 103, "103 NoInode"),
    (Refusal::BadId, 104, "104 BadId"),
];

#[test]
fn refusals_have_their_number_and_words(rt: HostRuntime) {
    for (refusal, number, words) in &REFUSALS {
        assert_eq!(rt; refusal.number(), *number);
        check(&rt, rt.alloc(), refusal, words);
    }
}

#[test]
fn faults_have_their_words(rt: HostRuntime) {
    let alloc = rt.alloc();
    check(&rt, alloc, &MkfsFault::Bounds, "bounds");
    check(&rt, alloc, &MkfsFault::BadId, "104 BadId");
    check(&rt, alloc, &MkfsFault::NoMemory, "12 NoMemory");
    check(&rt, alloc, &MountFault::Unsound(12), "unsound, rule 12");
    check(&rt, alloc, &MountFault::NoMemory, "12 NoMemory");
    check(
        &rt,
        alloc,
        &LoadFault::Device,
        "the image could not be read",
    );
    check(&rt, alloc, &LoadFault::NoMemory, "out of memory");
    for (fault, words) in [
        (MigrateFault::Invalid, "22 Invalid"),
        (MigrateFault::Bounds, "bounds"),
        (MigrateFault::HasDevice, "105 HasDevice"),
        (MigrateFault::NoInode, "103 NoInode"),
        (MigrateFault::NoSpace, "28 NoSpace"),
        (MigrateFault::NoMemory, "12 NoMemory"),
    ] {
        check(&rt, alloc, &fault, words);
    }
    let fault = SaveFault { written: 513 };
    check(&rt, alloc, &fault, "the device failed after 513 bytes");
}

/// Checks the text of a refusal or a fault.
fn check(rt: &impl Abort, alloc: Global, fault: &impl Display, words: &str) {
    let shown = format!(in alloc; "{fault}").expect(rt, "memory for the words");
    assert_eq!(rt; shown.as_str(), words);
}
