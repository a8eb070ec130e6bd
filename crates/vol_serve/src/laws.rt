//! Laws of a volume served read-only. The functions do nothing; their proved contracts are the laws.
ghost use Rattle.vol_serve.specs.Laws.{ListingsAreWhole};

/// READDIRs from offset 0, each from the last offset of the reply before, give each entry exactly once, in order.
pub fn listings_are_whole()
    ensures { ListingsAreWhole }
{}
