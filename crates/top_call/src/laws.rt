//! Laws of what is due.

ghost use Rattle.top_call.specs.Laws.{LongIsExact, SplitByLines, WholeWithout};

/// Of a source that tells its bytes, and was read, `long` is answered exactly where they are more than 262,144.
pub fn long_is_exact()
    ensures { LongIsExact }
{}

/// Of an input with a line that is exactly `faults`, the lines before the first of these are the job's text, and those
/// behind it are the script's. Without one all is the job's text.
pub fn texts_are_split()
    ensures lines { SplitByLines }
    ensures whole { WholeWithout }
{}
