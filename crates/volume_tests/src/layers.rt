//! Functions of the lower crates that no command calls.
ghost use Rattle.std.specs.Prelude.{◌≡◌, ◌≤◌, length};
ghost use Rattle.vol_change.specs.Ready.{Rules1To12};
ghost use Rattle.vol_change.specs.Whole.{HasDirectory};
ghost use Rattle.vol_judge.specs.Sound.{IsSound};
ghost use Rattle.vol_layout.specs.Geometry.{Fits};

use crate::fixtures::{new_bytes, new_volume};
use pdp_words::Image;
use std::process::Abort;
use vol_dir::{add, find, place_for, remove};
use vol_file::{need, read, read_range};
use vol_free::{any_inode, free_count};
use vol_layout::{Edition, Flag, Geometry, Super};

/// The third slot of the root with an entry, and after the entry was removed.
const ADDED: &[u8] = b"\x20\0f\0\0\0\0\0\0\0\0\0\0\0\0\0";

const REMOVED: &[u8] = b"\0\0f\0\0\0\0\0\0\0\0\0\0\0\0\0";

/// Returns the i-number of the root, which is a directory.
fn root_of(image: &Image, geometry: &Geometry) -> u16
    requires { Rules1To12 geometry.now image.now }
    ensures { HasDirectory geometry.now image.now result }
{
    // Only the contract uses the image.
    let _ = image;
    geometry.edition.constants().root
}

/// Checks the third slot of the root.
fn check_slot(rt: &impl Abort, image: &Image, geometry: &Geometry, root: u16, wanted: &[u8])
    requires fits { Fits geometry.now image.now }
    requires first { 1 ≤ root }
    requires last { root ≤ geometry.now.last_inode }
{
    let mut slot = [0; 16];
    let count = read(image, geometry, root, 32, &mut slot);
    assert_eq!(rt; count, 16);
    assert_eq!(rt; slot.as_slice(), wanted);
}

/// Adds an entry for i-node 32 to a directory with two entries, and removes it again.
fn add_and_remove(rt: &impl Abort, image: &mut Image, geometry: &Geometry, root: u16, name: &[u8])
    requires directory { HasDirectory geometry.now image.old root }
    requires name { length name.now ≡ 1 }
{
    let place = place_for(image, geometry, root);
    assert!(rt; place == 32);
    assert!(rt; name[0] != 0);
    assert!(rt; find(image, geometry, root, name).is_none());
    assert!(rt; place + 16 <= geometry.edition.constants().greatest);
    assert!(rt; need(image, geometry, root, place, 16) <= free_count(image, geometry));
    add(image, geometry, root, name, 32);
    check_slot(rt, image, geometry, root, ADDED);
    assert!(rt; find(image, geometry, root, name).is_some());
    remove(image, geometry, root, name);
    check_slot(rt, image, geometry, root, REMOVED);
}

/// Counts the blocks of a range, and those that aren't zeros.
fn count_blocks(image: &Image, geometry: &Geometry, root: u16, first: u32, count: u32) -> (u32, u32)
    requires { HasDirectory geometry.now image.now root }
{
    let mut blocks: u32 = 0;
    let mut stored: u32 = 0;
    read_range(image, geometry, root, first, count, |bytes: &[u8]| {
        blocks = blocks.saturating_add(1);
        if bytes.iter().any(|byte| *byte != 0) {
            stored = stored.saturating_add(1);
        }
    });
    (blocks, stored)
}

/// Checks a new volume of the sixth edition, with 95 free blocks, and adds an entry to its root.
fn check_layers(rt: &impl Abort, image: &mut Image, geometry: &Geometry)
    requires { Rules1To12 geometry.now image.old }
{
    let root = root_of(image, geometry);
    assert_eq!(rt; free_count(image, geometry), 95);
    assert!(rt; any_inode(image, geometry));
    assert_eq!(rt; count_blocks(image, geometry, root, 0, 3), (3, 1));
    assert_eq!(rt;
        count_blocks(image, geometry, root, 4_294_967_295, 2),
        (2, 0)
    );
    add_and_remove(rt, image, geometry, root, b"f");
}

/// Checks a sound image.
fn check_sound(rt: &impl Abort, edition: Edition, image: &mut Image)
    requires { IsSound edition image.old }
{
    let Ok(geometry) = Geometry::read(edition, image) else {
        panic!(rt; "no geometry")
    };
    check_layers(rt, image, &geometry);
}

#[test]
fn layers_do_what_no_command_does(rt: HostRuntime) {
    let volume = new_volume(&rt, rt.alloc(), Edition::V6);
    let edition = volume.edition();
    check_sound(&rt, edition, &mut Image::from_bytes(volume.unmount()));
}

#[test]
fn a_flag_is_put_alone(rt: HostRuntime) {
    let alloc = rt.alloc();
    let mut image = Image::from_bytes(new_bytes(&rt, alloc, Edition::V6));
    let block = Super {
        edition: Edition::V6,
    };
    assert!(rt; image.len() == 51_200);
    block.put_flag(&mut image, Flag::Modified, 7);
    assert_eq!(rt; block.flag(&image, Flag::Modified), 7);
    assert_eq!(rt; block.flag(&image, Flag::InodeLock), 0);
    assert_eq!(rt; block.flag(&image, Flag::ReadOnly), 0);
}
