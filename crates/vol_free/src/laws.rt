//! Laws about the definition of the free list. These functions do nothing: their purpose is the contract, which is proved.
ghost use Rattle.vol_free.specs.Laws.{HasOneList, EndsAtStack, MeetsFree};

/// A volume has only one list of free blocks: any two lists that satisfy the definition are equal.
pub fn free_blocks_are_one_list()
    ensures { HasOneList }
{}

/// The walk over the free list of any image ends without a fault if and only if the list is a stack of free blocks. The walk then visits exactly the
/// blocks of this stack.
pub fn the_walk_without_a_fault_is_the_stack()
    ensures ends { EndsAtStack }
    ensures met { MeetsFree }
{}
