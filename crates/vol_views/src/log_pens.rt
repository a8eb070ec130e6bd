//! Pens, each the right to write one word of the log that a later entry will take.
ghost use Rattle.std.specs.Prelude.{◌≡◌, ◌+◌, ◌<◌, ◌^◌, IfSome};
ghost use Rattle.logbook.specs.Pages.{nib, may_write};
ghost use Rattle.vol_views.specs.LogRule.{head_of};

use crate::history::LogEntry;
use crate::log_rule::{Add, Beginning, Compare, Head, Nothing, OneOwner};
use logbook::{Offer, Pen};

/// Returns a pen for a new word, the next after `words` words, or `None` if the log doesn't have `words` words.
pub(crate) fn new_pen(head: &Head, seen: &Beginning, words: u64) -> Option<Pen>
    requires head { head.now ≡ head_of seen.now.book }
    requires room { words + 1 < 2 ^ 64 }
    ensures book { IfSome result (λ pen. pen.book ≡ seen.now.book) }
    ensures nib { IfSome result (λ pen. pen.nib ≡ nib may_write (words + 1) 0) }
{
    let mut seen = seen.again();
    let mut offer: Offer<LogEntry, u64, OneOwner, Nothing> = seen.plain::<Nothing, (), Compare>(
        &(),
    );
    let mut pen = seen.no_pen();
    let found = head.compare_exchange::<Add, Nothing>(
        words,
        words + 1,
        &mut seen,
        &mut offer,
        &mut pen,
    );
    if found != words {
        return None;
    }
    // The pen needs a word to write; nobody reads it.
    let _word: Head = Head::tracked(0, &mut pen);
    Some(pen)
}
