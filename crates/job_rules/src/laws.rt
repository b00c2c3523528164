//! Laws of acceptance.

ghost use Rattle.job_rules.specs.Accepted.{OnePlan, OneRefusal, RefusedHasNone};
ghost use Rattle.job_rules.specs.Checked.{UnbrokenIsSealed};

/// A text has one plan at most: two plans of it have the same parts.
pub fn one_plan()
    ensures { OnePlan }
{}

/// A text that is refused has no plan.
pub fn refused_has_none()
    ensures { RefusedHasNone }
{}

/// A text that is refused is refused at one place, with one word.
pub fn one_refusal()
    ensures { OneRefusal }
{}

/// Where a tree breaks no rule, its plan keeps the rules of its type: each number names what is there, the limits hold,
/// each port is sent to once and received from once, in a later step, and no part of a step uses a state that another
/// one writes. The tree is one that an `Ast` carries.
pub fn unbroken_is_sealed()
    ensures { UnbrokenIsSealed }
{}
