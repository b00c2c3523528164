//! Laws of nodes: each is called where it is wanted, and its clauses are facts from there on.

ghost use Rattle.node_core.specs.Costs.{EachRuns, FirstRuns, HearsLower, PacksLower, RunsLower, StartLeaves};
ghost use Rattle.node_core.specs.Keeps.{HearsKeep, KeepsFits, OrdersRest, PacksKeep, RunsKeep, StartsKeep, TurnsKeep};
ghost use Rattle.node_core.specs.LoadLaws.{LoadsTell, RecordsLoad};
ghost use Rattle.node_core.specs.Loads.{LoadsBack};
ghost use Rattle.node_core.specs.Mail.{HearsMove, PacksMove, RunsMove, SharesAreSent, TotalsAreSent, TurnsMove};

use chare_base::laws::{first_step_is_free, sends_are_declared};
use chare_eval::laws::{earlier_flips_decide, later_flips_decide, totals_are_true};
use object_steps::laws::{element_stays, nodes_make_whole, objects_follow, ready_tells};
use run_ledger::laws::folds_are_lawful;

/// Whatever a node's elements run, whatever true letters it hears and whenever it packs: its elements' cells and
/// messages stay the definition's, under the flips of its stamp, and so do what it gathers of contributions and its
/// pieces. An order that follows its last one gives it a stamp, and under the flips of that all this holds again. Each
/// letter that it sends is true. What it keeps is what its calls ask of their callers. After an order that gives it a
/// base a node waits, all its elements are where the base is, and it has no fresh piece.
pub fn nodes_keep()
    ensures starts { StartsKeep }
    ensures runs { RunsKeep }
    ensures turns { TurnsKeep }
    ensures packs { PacksKeep }
    ensures hears { HearsKeep }
    ensures orders { OrdersRest }
    ensures fits { KeepsFits }
{
    objects_follow();
    element_stays();
    totals_are_true();
    nodes_make_whole();
    earlier_flips_decide();
    later_flips_decide();
    pieces_load();
}

/// Nothing that is sent is lost, as long as no order comes. What a letter asked of a node stays done, and what a node
/// hears is done; a node has sent whatever it owes: the messages of each part that its elements are past, its share of a
/// reduction or the contributions to it that it gathers, the totals or the shares that it counts, its piece and its
/// verdict. So a node all whose elements contributed has sent its share, and node 0, once it has heard all shares, the
/// totals.
pub fn nodes_move()
    ensures runs { RunsMove }
    ensures turns { TurnsMove }
    ensures packs { PacksMove }
    ensures hears { HearsMove }
    ensures shares { SharesAreSent }
    ensures totals { TotalsAreSent }
{
    objects_follow();
    element_stays();
    ready_tells();
    sends_are_declared();
}

/// What a node can still do gets less with each of its events, what the letters that it sends can set off counted: with
/// each part that it runs, once it packs, and with each letter that it hears, which weighs as much as hearing it can set
/// off; but not with an order, which may send it back. An element that can run runs a part, as does the one that is named as
/// the first of these. At the opening a node has all iterations of its elements before it, and its pack.
pub fn nodes_cost()
    ensures first { FirstRuns }
    ensures each { EachRuns }
    ensures runs { RunsLower }
    ensures packs { PacksLower }
    ensures hears { HearsLower }
    ensures start { StartLeaves }
{
    objects_follow();
    ready_tells();
    first_step_is_free();
}

/// What is loaded from a piece are the objects whose records its bytes are, each between two iterations in a state that
/// a job can have then; and the records of such objects are loaded as these objects. So a true piece of a node gives back
/// its elements between two iterations of the fold.
pub fn pieces_load()
    ensures tells { LoadsTell }
    ensures records { RecordsLoad }
    ensures back { LoadsBack }
{
    folds_are_lawful();
}
