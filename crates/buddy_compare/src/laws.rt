//! What verdicts tell.

ghost use Rattle.buddy_compare.specs.Laws.{AllEqual, EqualExactly, LeastOfAll, NamesTheLeast};

/// The verdict on two pieces is that they are equal exactly where their bytes are.
pub fn equal_exactly()
    ensures { EqualExactly }
{}

/// The verdict on the records of the same elements, in element order, names the least of these whose records differ.
pub fn names_the_least()
    ensures { NamesTheLeast }
{}

/// All nodes' verdicts tell whether the states of all elements differ, and at which element first.
pub fn verdicts_tell()
    ensures differ { LeastOfAll }
    ensures equal { AllEqual }
{}
