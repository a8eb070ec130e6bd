//! A volume that is cut at each of its bytes.
use pdp_words::Image;
use std::alloc::{AllocError, Global};
use std::process::Abort;
use std::sync::Wait;
use std::thread::Threads;
use vol_check::{Open, Report, dcheck, icheck, ncheck};
use vol_layout::Edition;
use vol_volume::{MountFault, Volume, mkfs};

/// Checks that a report says that rule 1 is broken.
fn check_rule_1(rt: &impl Abort, alloc: Global, report: Result<Report, AllocError>) {
    let mut text = Vec::new(alloc);
    let report = report.expect(rt, "memory for the report");
    assert!(rt; report.push_text(&mut text).is_ok());
    assert_eq!(rt; text.as_slice(), b"rule 1\n".as_slice());
}

/// Checks that the first `len` bytes of a volume break rule 1, and returns them as the mount hands them back.
fn check_cut<R: Threads + Wait + Sync + Abort>(
    rt: &R,
    alloc: Global,
    mut bytes: Vec<u8>,
    len: usize,
) -> Vec<u8> {
    let edition = Edition::V6;
    bytes.truncate(len);
    let image = Image::from_bytes(bytes);
    check_rule_1(rt, alloc, icheck(rt, rt, alloc, edition, &image, 1, &Open));
    check_rule_1(rt, alloc, dcheck(rt, rt, alloc, edition, &image, 1, &Open));
    check_rule_1(rt, alloc, ncheck(rt, rt, alloc, edition, &image, 1, &Open));
    match Volume::mount(alloc, edition, image.into_bytes()) {
        Ok(_) => panic!(rt; "{len} bytes are mounted"),
        Err((fault, same)) => {
            assert_eq!(rt; (fault, same.len()), (MountFault::Unsound(1), len));
            same
        }
    }
}

#[test]
fn a_volume_that_is_cut_breaks_rule_1(rt: HostRuntime) {
    let alloc = rt.alloc();
    let made = mkfs(alloc, Edition::V6, 20, 2, 0, 0, 1);
    let Ok(volume) = Volume::mount(alloc, Edition::V6, made.expect(&rt, "a new volume")) else {
        panic!(rt; "a whole volume that isn't mounted")
    };
    let mut bytes = volume.unmount();
    assert_eq!(rt; bytes.len(), 10_240);
    for len in (0..10_240).rev() {
        bytes = check_cut(&rt, alloc, bytes, len);
    }
}
