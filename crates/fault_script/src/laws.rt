//! Laws of scripts, as functions with an empty body: where one is called, its law is known.

ghost use Rattle.fault_script.specs.Laws.{ScriptsFit, ScriptsFollow};

/// The law that a script has at most 64 lines, and that each is a line of its text, with its number, in the text's
/// order.
pub fn scripts_follow()
    ensures { ScriptsFollow }
{}

/// The law that each fault of a script is one that there can be: a flip names a replica, an element, a cell of it and
/// an iteration of the plan and changes a bit, and a crash names a slot and an iteration.
pub fn scripts_fit()
    ensures { ScriptsFit }
{}
