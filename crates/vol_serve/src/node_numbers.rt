//! The kernel's numbers of a volume's nodes.
ghost use Rattle.std.specs.Prelude.{◌≡◌, Some, IfSome};
ghost use Rattle.vol_serve.specs.NodeNumbers.{node_number, i_number};

use fuse_words::ROOT;
use vol_layout::Edition;

/// The node number that i-number 0 would have. Numbers from this one up are never reused for another node.
const FIRST: u64 = 0x1_0000;

/// Returns the number of the node with i-number `i`.
pub fn node_number(edition: Edition, i: u16) -> u64
    ensures exact { result ≡ node_number edition i }
    ensures back { i_number edition result ≡ Some i }
{
    if i == edition.constants().root {
        ROOT
    } else {
        FIRST + u64::from(i)
    }
}

/// Returns the i-number of the node with number `node`, or `None` if no i-number has this node number.
pub fn i_number(edition: Edition, node: u64) -> Option<u16>
    ensures exact { result ≡ i_number edition node }
    ensures back { IfSome result (λ i. node_number edition i ≡ node) }
{
    let root = edition.constants().root;
    if node == ROOT {
        return Some(root);
    }
    let i = u16::try_from(node.checked_sub(FIRST)?).ok()?;
    if i == root { None } else { Some(i) }
}
