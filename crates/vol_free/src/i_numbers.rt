//! Free i-numbers, and the super-block's cache of up to 100 of them. The cache only saves time: whether an i-number is free depends on the mode of
//! its i-node.
ghost use Rattle.std.specs.Prelude.{◌≡◌, ℕ, ◌+◌, ◌<◌, ◌≤◌, IsTrue, ◌↔◌, IfSome, None, length};
ghost use Rattle.pdp_words.specs.Words.{SameOutside};
ghost use Rattle.vol_layout.specs.Edition.{constants};
ghost use Rattle.vol_layout.specs.Geometry.{Fits};
ghost use Rattle.vol_layout.specs.Super.{cache_head};
ghost use Rattle.vol_free.specs.Numbers.{IsFreeNumber, cache_len, Cached};

use pdp_words::Image;
use vol_layout::i_list::mode;
use vol_layout::{Edition, Geometry, Super};

/// The number of i-numbers that the cache can hold.
const CACHE_SLOTS: u16 = 100;

/// Takes a free i-number above the root's: the last one in the cache or, if the cache has none, one from the i-list, which also refills the cache.
/// Cache entries that are no longer free are dropped. Returns `None` if and only if no such i-number is free; cache entries may be dropped even then.
/// The i-number counts as free until its i-node is written. Takes no memory.
pub fn take_inode(image: &mut Image, geometry: &Geometry) -> Option<u16>
    requires { Fits geometry.now image.old }
    ensures free { IfSome result (λ i. IsFreeNumber geometry.now image.old i) }
    ensures none { result ≡ None → (i : ℕ) → IsFreeNumber geometry.now image.old i → ⊥ }
    ensures others { SameOutside image.old image.new
        (cache_head geometry.now.edition) (cache_head geometry.now.edition + 202) }
{
    match take_cached(image, geometry) {
        Some(i) => Some(i),
        None => take_listed(image, geometry),
    }
}

/// Returns the i-number that [`take_inode`] would take, without changing the image: the last free one in the cache or, if none of these is free, the
/// last of the first hundred free ones in the i-list. Returns `None` if and only if no i-number above the root's is free.
pub fn next_inode(image: &Image, geometry: &Geometry) -> Option<u16>
    requires { Fits geometry.now image.now }
    ensures free { IfSome result (λ i. IsFreeNumber geometry.now image.now i) }
    ensures none { result ≡ None → (i : ℕ) → IsFreeNumber geometry.now image.now i → ⊥ }
{
    match next_cached(image, geometry) {
        Some(i) => Some(i),
        None => next_listed(image, geometry),
    }
}

/// True if an i-number above the root's is free. Costs as much as [`next_inode`].
pub fn any_inode(image: &Image, geometry: &Geometry) -> bool
    requires { Fits geometry.now image.now }
    ensures { IsTrue result ↔ ((i : ℕ) × IsFreeNumber geometry.now image.now i) }
{
    next_inode(image, geometry).is_some()
}

/// Adds i-number `i` to the cache if it has room; else changes nothing. Takes no memory.
pub fn give_inode(image: &mut Image, geometry: &Geometry, i: u16)
    requires { Fits geometry.now image.old }
    ensures cached { cache_len geometry.now.edition image.old < 100
        → Cached geometry.now.edition image.old image.new (cache_len geometry.now.edition image.old) i }
    ensures full { cache_len geometry.now.edition image.old ≡ 100 → image.new ≡ image.old }
{
    let super_block = Super {
        edition: geometry.edition,
    };
    let count = cache_len(image, geometry.edition);
    if count < CACHE_SLOTS {
        super_block.put_cached(image, count as usize, i);
        super_block.put_cache_count(image, count + 1);
    }
}

/// Removes i-numbers from the end of the cache until one of them is free, and returns it, or `None` if none is free.
fn take_cached(image: &mut Image, geometry: &Geometry) -> Option<u16>
    requires { Fits geometry.now image.old }
    ensures free { IfSome result (λ i. IsFreeNumber geometry.now image.old i) }
    ensures others { SameOutside image.old image.new
        (cache_head geometry.now.edition) (cache_head geometry.now.edition + 202) }
{
    let super_block = Super {
        edition: geometry.edition,
    };
    for n in (0..cache_len(image, geometry.edition)).rev() {
        let i = super_block.cached(image, n as usize);
        super_block.put_cache_count(image, n);
        if is_free_inode(image, geometry, i) {
            return Some(i);
        }
    }
    None
}

/// Fills the cache with the first free i-numbers of the i-list, in ascending order, and takes the last of them. Returns `None` if no i-number is
/// free.
fn take_listed(image: &mut Image, geometry: &Geometry) -> Option<u16>
    requires { Fits geometry.now image.old }
    ensures free { IfSome result (λ i. IsFreeNumber geometry.now image.old i) }
    ensures none { result ≡ None → (i : ℕ) → IsFreeNumber geometry.now image.old i → ⊥ }
    ensures others { SameOutside image.old image.new
        (cache_head geometry.now.edition) (cache_head geometry.now.edition + 202) }
{
    let super_block = Super {
        edition: geometry.edition,
    };
    let mut count = 0;
    let mut last_found = None;
    let last = geometry.last_inode;
    for i in geometry.edition.constants().root + 1..=last {
        if count == CACHE_SLOTS {
            break;
        }
        if is_free_inode(image, geometry, i) {
            super_block.put_cached(image, count as usize, i);
            count += 1;
            last_found = Some(i);
        }
    }
    super_block.put_cache_count(image, count.saturating_sub(1));
    last_found
}

/// Returns the last free i-number in the cache, or `None` if none of them is free.
fn next_cached(image: &Image, geometry: &Geometry) -> Option<u16>
    requires { Fits geometry.now image.now }
    ensures { IfSome result (λ i. IsFreeNumber geometry.now image.now i) }
{
    let super_block = Super {
        edition: geometry.edition,
    };
    for n in (0..cache_len(image, geometry.edition)).rev() {
        let i = super_block.cached(image, n as usize);
        if is_free_inode(image, geometry, i) {
            return Some(i);
        }
    }
    None
}

/// Returns the last of the first hundred free i-numbers in the i-list, or `None` if none is free.
fn next_listed(image: &Image, geometry: &Geometry) -> Option<u16>
    requires { Fits geometry.now image.now }
    ensures free { IfSome result (λ i. IsFreeNumber geometry.now image.now i) }
    ensures none { result ≡ None → (i : ℕ) → IsFreeNumber geometry.now image.now i → ⊥ }
{
    let mut count = 0;
    let mut last_found = None;
    let last = geometry.last_inode;
    for i in geometry.edition.constants().root + 1..=last {
        if count == CACHE_SLOTS {
            break;
        }
        if is_free_inode(image, geometry, i) {
            count += 1;
            last_found = Some(i);
        }
    }
    last_found
}

/// Returns the number of i-numbers in the cache; a count above 100 reads as 0.
fn cache_len(image: &Image, edition: Edition) -> u16
    requires { 1024 ≤ length image.now }
    ensures value { result ≡ cache_len edition image.now }
    ensures bound { result ≤ 100 }
{
    let count = Super { edition }.cache_count(image);
    if count > CACHE_SLOTS { 0 } else { count }
}

/// True if `i`, which may be any number, is an i-number of the volume above the root's, and is free.
pub fn is_free_inode(image: &Image, geometry: &Geometry, i: u16) -> bool
    requires { Fits geometry.now image.now }
    ensures { IsTrue result ↔ IsFreeNumber geometry.now image.now i }
{
    geometry.edition.constants().root < i
        && i <= geometry.last_inode
        && mode(image, geometry, i).bits == 0
}
