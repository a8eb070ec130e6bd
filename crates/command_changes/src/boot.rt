//! `boot` puts a program into the boot block of a volume, and returns the bytes to save.
ghost use Rattle.std.specs.Prelude.{◌≤◌, IfOk, IfErr, length};
ghost use Rattle.command_changes.specs.Boot.{HasProgram, IsBooted, IsUnbooted};

use command_faults::Fault;
use pdp_words::{BLOCK, Image};
use std::alloc::Global;
use vol_dir::Refusal;
use vol_judge::judge;
use vol_layout::Edition;

/// Puts a program into block 0 of a volume, and zeros after it; all other bytes stay. The fault is `TooBig` if a block has no room for the program; else
/// the first rule that the volume breaks, or out of memory.
///
/// Takes the memory of [`judge`]. The image isn't copied.
pub(crate) fn boot(
    alloc: Global,
    edition: Edition,
    image: Vec<u8>,
    program: &[u8],
) -> Result<Vec<u8>, Fault>
    ensures booted { IfOk result (λ bytes. IsBooted edition program.now image.items bytes.items) }
    ensures fault { IfErr result (IsUnbooted edition program.now image.items) }
{
    if program.len() > BLOCK {
        return Err(Fault::Refused(Refusal::TooBig));
    }
    if image.len() < BLOCK {
        return Err(Fault::Unsound(1));
    }
    let mut image = Image::from_bytes(image);
    put_program(&mut image, program);
    match judge(alloc, edition, &image, true)? {
        None => Ok(image.into_bytes()),
        Some(rule) => Err(Fault::Unsound(rule)),
    }
}

/// Puts a program into block 0, and zeros after it.
fn put_program(image: &mut Image, program: &[u8])
    requires room { 512 ≤ length image.old }
    requires small { length program.now ≤ 512 }
    ensures { HasProgram program.now image.old image.new }
{
    image.clear(0, BLOCK);
    image.put_bytes(0, program);
}
