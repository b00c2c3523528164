//! Which lines of a script are live at the opening.

ghost use Rattle.std.specs.Prelude.{◌≡◌, ◌≤◌, ◌<◌, ◌^◌, ℕ, length};
ghost use Rattle.fault_script.specs.Lines.{faults_of};
ghost use Rattle.conductor_core.specs.Openings.{all_lines};

use chare_base::slots::LineSet;
use fault_script::fault::FaultLine;
use fault_script::script::Script;

/// All lines, none of which is spent.
pub fn all_lines(script: &Script) -> LineSet
    ensures { result.0 ≡ all_lines (faults_of script.now) }
{
    LineSet(set_of_all(script.as_slice()))
}

// The set of these lines: a bit for each, the lowest for the first.
fn set_of_all(lines: &[FaultLine]) -> u64
    requires { length lines.now ≤ 64 }
    ensures exact { result ≡ all_lines (faults_of lines.now) }
    ensures small { (n : ℕ) → length lines.now ≤ n → result < 2 ^ n }
{
    match lines.split_first() {
        None => 0,
        Some((_, more)) => 1 + 2 * set_of_all(more),
    }
}
