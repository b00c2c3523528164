//! Laws of the language's text.

ghost use Rattle.job_tree.specs.Accepted.{OneJob};
ghost use Rattle.job_tree.specs.Text.{OneFault, OneTree};
ghost use Rattle.job_tree.specs.Tokens.{EndsOnce};

/// A text's tokens end once: the last one, and no other, is `End`, `Bad` or `TooLarge`.
pub fn tokens_end_once()
    ensures { EndsOnce }
{}

/// Tokens are those of one job at most.
pub fn one_job()
    ensures { OneJob }
{}

/// A text is that of one job at most.
pub fn one_tree()
    ensures { OneTree }
{}

/// A text has one fault at most: any two that it has are equal, but for `Memory`.
pub fn one_fault()
    ensures { OneFault }
{}
