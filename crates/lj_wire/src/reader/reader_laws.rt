//! Laws of what a reader hands out: the contracts of functions with empty bodies.
ghost use Rattle.lj_wire.specs.LineReader.{HandedComeFirst, HandedAreAll, LostIsMarked};

/// Promise: a reader hands out a prefix of the stream's items, in order. A load is marked if there was no memory for its body.
pub fn handed_come_first()
    ensures { HandedComeFirst }
{}

/// Promise: a reader at the end of the input has handed out all items of the stream.
pub fn handed_are_all()
    ensures { HandedAreAll }
{}

/// A load whose body is lost gets the reply of a load that is refused memory.
pub fn lost_is_marked()
    ensures { LostIsMarked }
{}
