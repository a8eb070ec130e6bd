//! Adding operations and showing the next version.
ghost use Rattle.std.specs.Prelude.{◌≡◌, ◌++◌, ◌∷◌, [], drop, fold};
ghost use Rattle.left_right.specs.Sides.{view};
ghost use Rattle.vol_views.specs.Absorb.{absorbed};
ghost use Rattle.vol_views.specs.PublishedRule.{IsRight, MayShow};

use crate::published::Operation;
use crate::published_rule::{Copies, Show};
use std::sync::Wait;
use std::thread;

/// Adds an operation. At most two are pending, and there is room for two, but no contract states this; without room this would try again forever.
pub(crate) fn add<R: Wait>(rt: &R, copies: &mut Copies, operation: Operation)
    ensures desk { copies.new.desk ≡ copies.old.desk }
    ensures pending { drop copies.new.behind copies.new.log.items ≡ drop copies.old.behind copies.old.log.items ++ operation ∷ [] }
{
    let mut operation = operation;
    for _ in rt.forever() {
        match copies.append(operation) {
            Ok(()) => return,
            Err(same) => operation = same,
        }
        thread::yield_now();
    }
    unreachable!()
}

/// Shows readers the version that all pending operations make.
pub(crate) fn show<R: Wait>(rt: &R, copies: Copies) -> Copies
    requires { MayShow copies.desk.shown.value (drop copies.behind copies.log.items) }
    ensures shown { result.desk.shown.value ≡ fold absorbed copies.desk.shown.value (drop copies.behind copies.log.items) }
    ensures right { IsRight result.desk.shown.value }
    ensures pending { drop result.behind result.log.items ≡ [] }
    ensures view { view result.desk.place ≡ result.desk.shown.value.prefix }
{
    let (copies, shown) = copies.publish_as::<Show, R>(rt);
    if shown.is_err() {
        unreachable!();
    }
    copies
}
