//! Laws of a plan: each is called where it is wanted, and its clause is a fact from there on.

ghost use Rattle.chare_base.specs.Laws.{SourcesAndTargets, Waits, FirstStepIsFree, SendsAreDeclared, PartsAreApart, UsesAreWithin};

/// The element that gets what an element sends at an entry has that one as its source, and the other way round.
pub fn sources_and_targets()
    ensures { SourcesAndTargets }
{}

/// What a part of an element's step needs is received in this step alone, once. It is sent in an earlier step: for an
/// entry by the element that is its source there, and for a total by each element of the array, each time once.
pub fn waits()
    ensures { Waits }
{}

/// No part of an element's first step needs anything.
pub fn first_step_is_free()
    ensures { FirstStepIsFree }
{}

/// Each statement of a part sends to an entry whose source is the element's array, with as many values as the entry
/// has, or contributes to a reduction of that array; and within an `if` or a loop nothing is sent.
pub fn sends_are_declared()
    ensures { SendsAreDeclared }
{}

/// No part of a step uses a cell that another part of it writes.
pub fn parts_are_apart()
    ensures { PartsAreApart }
{}

/// Each cell that a part reads or writes is one of the element's.
pub fn uses_are_within()
    ensures { UsesAreWithin }
{}
