//! Migrations of mounted volumes, which no command makes: the program judges an image and migrates that.
use crate::fixtures::{bytes_of, new_volume};
use std::alloc::Global;
use std::process::Abort;
use vol_dir::Cred;
use vol_layout::{DeviceId, DeviceKind, Edition};
use vol_migrate::{Devices, MigrateFault, migrate, migrate_with};
use vol_volume::{Call, Volume};

/// The time of the migration.
const NOW: u32 = 0x0304_0506;

/// Makes the special file of a device at `/tty`.
fn make_tty(rt: &impl Abort, alloc: Global, volume: &mut Volume) {
    let call = Call::Mknod {
        cred: Cred::ROOT,
        now: NOW,
        path: bytes_of(rt, alloc, b"/tty"),
        perm: 0o622,
        device: DeviceId {
            kind: DeviceKind::Character,
            major: 3,
            minor: 5,
        },
    };
    assert!(rt; volume.call(alloc, call).is_ok());
}

#[test]
fn a_mounted_volume_is_migrated(rt: HostRuntime) {
    let alloc = rt.alloc();
    let mut old = new_volume(&rt, alloc, Edition::V6);
    let plain = migrate(alloc, &old, 60, 8, NOW).expect(&rt, "a volume");
    let same = migrate_with(alloc, &old, 60, 8, NOW, Devices::Refuse).expect(&rt, "a volume");
    assert!(rt; plain == same);
    make_tty(&rt, alloc, &mut old);
    let refused = migrate(alloc, &old, 60, 8, NOW);
    assert!(rt; matches!(refused, Err(MigrateFault::HasDevice)));
    let kept = migrate_with(alloc, &old, 60, 8, NOW, Devices::Keep).expect(&rt, "a volume");
    assert!(rt; Volume::mount(alloc, Edition::V7, kept).is_ok());
}
