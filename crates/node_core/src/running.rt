//! Which of a node's elements can run, asked for one of them at a time.

ghost use Rattle.std.specs.Prelude.{◌≡◌, length, slice_get};
ghost use Rattle.node_core.specs.Keeps.{Fitted};
ghost use Rattle.node_core.specs.Nodes.{awaits_by, can_run_by, completed_by, element_in, objects_of};
ghost use Rattle.node_core.specs.Rosters.{seat_of};

use crate::node::Node;
use crate::object::can_run;
use chare_base::message::EntryId;
use chare_base::plan::{ElementId, Plan};

impl Node {
    /// How many elements it has: none once it is spent.
    pub fn count(&self) -> usize
        ensures { result ≡ length (objects_of self.now.body) }
    {
        match self.live() {
            None => 0,
            Some(body) => body.objects.len(),
        }
    }

    /// The seat of an element: its number among the node's elements, in element order; None where it lives elsewhere.
    pub fn seat(&self, e: ElementId) -> Option<u32>
        ensures { result ≡ seat_of self.now.roster e.0 }
    {
        self.seats().seat(e)
    }

    /// The element of a seat.
    pub fn element_of_seat(&self, seat: usize) -> Option<ElementId>
        ensures { result ≡ element_in (slice_get (objects_of self.now.body) seat) }
    {
        match self.live() {
            None => None,
            Some(body) => match body.objects.get(seat) {
                None => None,
                Some(object) => Some(object.element()),
            },
        }
    }

    /// Whether the element of a seat has a ready part, or would begin an iteration below the limit and of the plan;
    /// false where the seat is nobody's. A node that waits for Resume runs nothing, whatever this says.
    pub fn can_run_seat(&self, plan: &Plan, limit: u64, seat: usize) -> bool
        requires { Fitted plan.now self.now }
        ensures { result ≡ can_run_by plan.now limit (slice_get (objects_of self.now.body) seat) }
    {
        match self.live() {
            None => false,
            Some(body) => match body.objects.get(seat) {
                None => false,
                Some(object) => can_run(plan, limit, object),
            },
        }
    }

    /// Whether the element of a seat is in this iteration, and a part of its step that isn't done needs the message of this
    /// entry; false where the seat is nobody's.
    pub fn awaits_seat(&self, plan: &Plan, iteration: u64, entry: EntryId, seat: usize) -> bool
        requires { Fitted plan.now self.now }
        ensures { result ≡ awaits_by plan.now iteration entry
            (slice_get (objects_of self.now.body) seat) }
    {
        match self.live() {
            None => false,
            Some(body) => match body.objects.get(seat) {
                None => false,
                Some(object) => object.awaits(plan, iteration, entry),
            },
        }
    }

    /// How many iterations the element of a seat has completed, where it is between two; None where it is inside one, and
    /// where the seat is nobody's.
    pub fn completed_seat(&self, seat: usize) -> Option<u64>
        ensures { result ≡ completed_by (slice_get (objects_of self.now.body) seat) }
    {
        match self.live() {
            None => None,
            Some(body) => match body.objects.get(seat) {
                None => None,
                Some(object) => {
                    if object.is_at_top() {
                        Some(object.done())
                    } else {
                        None
                    }
                }
            },
        }
    }
}
