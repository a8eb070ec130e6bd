//! The slots of a directory.
ghost use Rattle.std.specs.Prelude.{◌≡◌, ◌+◌, ◌/◌, ◌%◌, ◌∷◌, ◌≤◌, ◌==◌, length, slice_index};
ghost use Rattle.std.specs.List.{position_or_len};
ghost use Rattle.pdp_words.specs.Words.{SameOutside};
ghost use Rattle.vol_layout.specs.Slot.{padded_name};

use pdp_words::words;

/// The number of bytes in a slot.
pub const SLOT: usize = 16;

/// The number of bytes of the name in a slot.
pub const NAME: usize = 14;

/// A directory slot: an i-number, which is 0 if the slot is empty, and 14 bytes of name.
#[derive(Clone, Copy)]
pub struct Slot {
    /// The i-number of the entry, or 0 if the slot is empty.
    pub inode: u16,
    /// The name, padded with zero bytes.
    pub name: [u8; NAME],
}

impl Slot {
    ghost use Rattle.vol_layout.specs.Slot.{slot_at, name_of};

    /// Reads the slot from the 16 bytes at index `at`.
    pub fn read(bytes: &[u8], at: usize) -> Slot
        requires { at + 16 ≤ length bytes.now }
        ensures { result ≡ slot_at bytes.now at }
    {
        let mut name = [0; NAME];
        name.copy_from_slice(&bytes[at + 2..at + SLOT]);
        Slot {
            inode: words::word(bytes, at),
            name,
        }
    }

    /// Writes the slot to the 16 bytes at index `at`.
    pub fn put(&self, bytes: &mut [u8], at: usize)
        requires { at + 16 ≤ length bytes.old }
        ensures put { slot_at bytes.new at ≡ self.now }
        ensures low { slice_index bytes.new at ≡ self.now.inode % 256 }
        ensures others { SameOutside bytes.old bytes.new at (at + 16) }
    {
        words::put_word(bytes, at, self.inode);
        words::put_bytes(bytes, at + 2, &self.name);
    }

    /// Returns the 16 bytes of the slot.
    pub fn to_bytes(&self) -> [u8; SLOT]
        ensures bytes { result ≡ (self.now.inode % 256) ∷ (self.now.inode / 256) ∷ self.now.name }
        ensures slot { slot_at result 0 ≡ self.now }
    {
        let mut bytes = [0; SLOT];
        self.put(&mut bytes, 0);
        bytes
    }

    /// Returns a slot with this i-number and this name, which has at most 14 bytes.
    pub fn new(inode: u16, name: &[u8]) -> Slot
        requires { length name.now ≤ 14 }
        ensures inode { result.inode ≡ inode }
        ensures name { result.name ≡ padded_name name.now }
    {
        let mut padded = [0; NAME];
        padded[..name.len()].copy_from_slice(name);
        Slot {
            inode,
            name: padded,
        }
    }

    /// Returns the name: the bytes before the first zero byte.
    pub fn name(&self) -> &[u8]
        ensures { result.now ≡ name_of self.now.name }
    {
        &self.name[..first_zero(&self.name)]
    }
}

/// Returns the index of the first zero byte, or the length if there is none.
#[tactic(auto, using(std::proofs::lemmas::List::Sums::position_or_len_is))]
fn first_zero(bytes: &[u8]) -> usize
    ensures place { result ≡ position_or_len (λ c. c == 0) bytes.now }
    ensures within { result ≤ length bytes.now }
{
    for (i, c) in bytes.iter().enumerate() {
        if *c == 0 {
            return i;
        }
    }
    bytes.len()
}
