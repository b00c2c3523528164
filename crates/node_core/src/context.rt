//! What travels together through a node's calls.

ghost use Rattle.std.specs.Prelude.{◌≡◌, length};
ghost use Rattle.chare_base.specs.Elements.{elements};

use crate::roster::Seats;
use chare_base::placement::Placement;
use chare_base::plan::Plan;
use chare_base::slots::SlotId;
use fault_script::script::Script;
use letter_post::stamp::Stamp;

/// What a run is of: its plan, its script, and the node on which each element lives.
#[derive(Drop)]
pub(crate) struct Context<'a, M: Placement> {
    pub(crate) plan: &'a Plan,
    pub(crate) script: &'a Script,
    pub(crate) map: &'a M,
    // Each element lives on a node.
    pub(crate) ghost placed: { length (M.place map.now) ≡ elements plan.now },
}

/// Whose event it is: the node's slot, its stamp, and which elements live on it.
#[derive(Drop)]
pub(crate) struct Here<'a> {
    pub(crate) slot: SlotId,
    pub(crate) stamp: Stamp,
    pub(crate) roster: &'a Seats,
}
