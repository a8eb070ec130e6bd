//! The slots of a directory, converted for the seventh edition.
ghost use Rattle.std.specs.Prelude.{◌≡◌, ℕ, ◌+◌, ◌*◌, ◌/◌, ◌<◌, ◌≤◌, length, slice_index};
ghost use Rattle.pdp_words.specs.Words.{word};
ghost use Rattle.vol_migrate.specs.Raised.{raised_slot};
ghost use Rattle.vol_migrate.specs.Stages.{raised_byte};

use pdp_words::BLOCK;
use pdp_words::words::put_bytes;
use vol_layout::Slot;
use vol_layout::slot::{NAME, SLOT};

/// Returns the slot with the next i-number and zeros after its name; an empty slot gets an empty name.
fn raised_slot(slot: &Slot) -> Slot
    requires { slot.now.inode < 65535 }
    ensures { result ≡ raised_slot slot.now }
{
    if slot.inode == 0 {
        return Slot {
            inode: 0,
            name: [0; NAME],
        };
    }
    Slot::new(slot.inode + 1, slot.name())
}

/// Returns complete slots of a directory, at most a block of them, converted for the seventh edition and followed by zeros.
pub(crate) fn raised_slots(text: &[u8]) -> [u8; BLOCK]
    requires few { length text.now ≤ 512 }
    requires numbers { (s : ℕ) → 16 * s + 16 ≤ length text.now → word text.now (16 * s) < 65535 }
    ensures { (x : ℕ) → 16 * (x / 16) + 16 ≤ length text.now → slice_index result x ≡ raised_byte text.now x }
{
    let mut raised = [0; BLOCK];
    for s in 0..text.len() / SLOT {
        let slot = raised_slot(&Slot::read(text, SLOT * s));
        put_bytes(&mut raised, SLOT * s, &slot.to_bytes());
    }
    raised
}
