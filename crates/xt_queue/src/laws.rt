//! What the rules imply, each as the contract of a function that does nothing.

ghost use Rattle.xt_queue.specs.Laws.{GoesOnceInOrder, ShutForGood};

/// Wherever the rule of the queue holds, of each slot: the waiting names are the last of those posted, none was posted
/// twice, each earlier one was taken by one worker, once, and each worker took the slot's names in the order of posting.
pub fn once_in_order()
    ensures law { GoesOnceInOrder }
{}

/// A seat that saw a life shut sees that life shut, or a later one, for good: what it sees never goes down.
pub fn shut_for_good()
    ensures law { ShutForGood }
{}
