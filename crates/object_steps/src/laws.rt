//! Laws of objects and of reductions: each is called where it is wanted, and its clause is a fact from there on.

ghost use Rattle.object_steps.specs.Laws.{ObjectsFollow, TurnsFollow};
ghost use Rattle.object_steps.specs.Totals.{NodesMakeWhole};
ghost use Rattle.object_steps.specs.Turns.{ElementStays, ReadyTells};

use chare_eval::laws::{fold_is_shaped, parts_run_in_any_order, steps_follow, strikes_are_local};
use ref_messages::laws::keys_are_told;

/// An object that starts with the definition's cells follows the definition, in whatever order its messages come and
/// its parts run. With each part that it runs and each iteration that it begins, and with each of the definition's
/// messages that comes, its cells and its messages are the definition's; and so is what its parts send.
pub fn objects_follow()
    ensures { ObjectsFollow }
{
    keys_are_told();
    fold_is_shaped();
    strikes_are_local();
    steps_follow();
    parts_run_in_any_order();
}

/// An object that follows the definition does so after every list of allowed turns: parts that it runs as `ready`
/// answers them, iterations that it begins between two, and messages of the definition that come.
pub fn turns_follow()
    ensures { TurnsFollow }
{
    objects_follow();
}

/// A part that `ready` answers is one of the object's step that isn't done, and what it needs is there. An object that
/// waits has no such part, and waits at the port of its first part that isn't done. It is at its top exactly where no
/// iteration is begun.
pub fn ready_tells()
    ensures { ReadyTells }
{}

/// Running a part leaves an object its element and its place.
pub fn element_stays()
    ensures { ElementStays }
{}

/// The totals of several nodes make the total of all contributions, wherever each element lies.
pub fn nodes_make_whole()
    ensures { NodesMakeWhole }
{}
