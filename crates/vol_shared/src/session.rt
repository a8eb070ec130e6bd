//! Sessions.
ghost use Rattle.std.specs.Prelude.{◌≡◌, ◌+◌, ◌<◌, ◌≤◌, ◌^◌, [], ◌∷◌, length, None, false};
ghost use Rattle.vol_receipts.specs.Agrees.{place_of, next_of};
ghost use Rattle.vol_shared.specs.Plays.{Took};
ghost use Rattle.vol_shared.specs.Sessions.{knowledge_of};

use crate::lock::take;
use crate::lock_contents::Stock;
use crate::lock_rule::{Knowledge, Lock, SessionSeat};
use atomic_table::Badge;
use std::marker::Model;
use std::mem::replace;
use std::sync::Wait;
use vol_receipts::{Outcome, Receipt};
use vol_views::{Informed, LogPrefix};

/// A session on a shared volume, for one thread at a time. It keeps the least number that its next receipt
/// may have and the number of its accepted calls. If the volume has views, it also keeps the log prefix that
/// was published when it last got a receipt or cut the journal.
#[derive(Drop)]
pub struct Session {
    pub(crate) badge: Badge<Knowledge>,
    pub(crate) next: u64,
    pub(crate) count: u64,
    pub(crate) reported: Option<LogPrefix>,
}

impl Model for Session {
    ghost use Rattle.vol_shared.specs.Sessions.{Known, known_by, knowledge_of, IsIdle};

    ghost Value = { Known };

    ghost view = { λ s. known_by s.badge.table_id s.next (knowledge_of s.badge.views) };

    ghost invariant = { λ s. IsIdle s.badge.views s.next s.count s.reported };
}

impl Informed for Session {
    ghost book = { λ s. s.of.book };

    ghost next = { λ s. s.next };

    fn reported(&self) -> Option<LogPrefix> {
        match &self.reported {
            Some(reported) => Some(reported.again()),
            None => None,
        }
    }
}

/// Takes the volume for a session. The session's badge is replaced by its seat until the volume is given back.
pub(crate) fn lock_volume<R: Wait>(
    rt: &R,
    lock: &Lock,
    badge: &mut Badge<Knowledge>,
) -> (SessionSeat, Stock)
    requires own { badge.old.table_id ≡ lock.now.table_id }
    requires words { lock.now.table_id.words ≡ 1 }
    requires slots { lock.now.table_id.slots ≡ 1 }
    requires one { badge.old.views ≡ knowledge_of badge.old.views ∷ [] }
    requires free { (knowledge_of badge.old.views).holds ≡ false }
    requires part { (knowledge_of badge.old.views).parts ≡ 1 }
    ensures own { result.0.table_id ≡ lock.now.table_id }
    ensures took { Took (knowledge_of badge.old.views, []) result.0.me result.1 None }
{
    let mut place = replace(badge, Badge::blank()).into_seat();
    let stock = take(rt, lock, &mut place);
    (place, stock)
}

/// Counts the receipt of a session's call or query.
pub(crate) fn note(next: &mut u64, count: &mut u64, receipt: &Receipt)
    requires numbered { next_of receipt.now.at receipt.now.outcome < 2 ^ 64 }
    requires counted { count.old ≤ receipt.now.at }
    ensures next { next.new ≡ next_of receipt.now.at receipt.now.outcome }
    ensures count { count.new ≡ count.old + length (place_of receipt.now.at receipt.now.outcome) }
{
    match receipt.outcome {
        Outcome::Accepted(_) => {
            *next = receipt.at + 1;
            *count += 1;
        }
        Outcome::Refused(_) | Outcome::Answered(_) => *next = receipt.at,
    }
}
