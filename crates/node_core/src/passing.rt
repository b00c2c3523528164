//! What an element sends, as letters.

ghost use Rattle.std.specs.Prelude.{◌≡◌, ◌++◌, ◌<◌, length, map, OnOk};
ghost use Rattle.std.specs.Option.{option_copied};
ghost use Rattle.chare_base.specs.Elements.{elements};
ghost use Rattle.node_core.specs.Nodes.{contributed_to, node_at, partial_sent, passed, passed_one, total_sent, total_to};

use crate::context::Context;
use crate::roster::Seats;
use crate::tallies::{Tally, count_in};
use crate::turn::Sender;
use chare_base::memory::Memory;
use chare_base::message::ReductionId;
use chare_base::placement::Placement;
use chare_base::plan::{ElementId, Plan, Reduction};
use chare_base::slots::SlotId;
use chare_eval::effects::Outgoing;
use letter_post::letter::{BoxId, Letter};
use letter_post::outbox::Outbox;
use letter_post::stamp::Stamp;
use std::alloc::Global;

// All that an element sent goes out, in its order.
pub(crate) fn pass_all<M: Placement>(
    alloc: Global,
    context: &Context<'_, M>,
    roster: &Seats,
    sender: Sender,
    sent: &[Outgoing],
    gatherings: &mut Vec<Tally>,
    out: &mut Outbox,
) -> Result<(), Memory>
    ensures { OnOk result (record { gatherings = gatherings.new.items; out = out.new }
        ≡ passed context.now.plan.now (M.place context.now.map.now) roster.now sender sent.now
        (record { gatherings = gatherings.old.items; out = out.old })) }
{
    if sent.is_empty() {
        return Ok(());
    }
    // Which takes a look at each array, so once for all messages.
    let elements = context.plan.elements();
    pass_each(
        alloc, context, elements, roster, sender, sent, gatherings, out,
    )
}

fn pass_each<M: Placement>(
    alloc: Global,
    context: &Context<'_, M>,
    elements: u32,
    roster: &Seats,
    sender: Sender,
    sent: &[Outgoing],
    gatherings: &mut Vec<Tally>,
    out: &mut Outbox,
) -> Result<(), Memory>
    requires { length (M.place context.now.map.now) ≡ elements }
    ensures { OnOk result (record { gatherings = gatherings.new.items; out = out.new }
        ≡ passed context.now.plan.now (M.place context.now.map.now) roster.now sender sent.now
        (record { gatherings = gatherings.old.items; out = out.old })) }
{
    for message in sent {
        pass_one(
            alloc, context, elements, roster, sender, message, gatherings, out,
        )?;
    }
    Ok(())
}

// A message goes to the slot of its receiver, a contribution is gathered.
fn pass_one<M: Placement>(
    alloc: Global,
    context: &Context<'_, M>,
    elements: u32,
    roster: &Seats,
    sender: Sender,
    message: &Outgoing,
    gatherings: &mut Vec<Tally>,
    out: &mut Outbox,
) -> Result<(), Memory>
    requires { length (M.place context.now.map.now) ≡ elements }
    ensures { OnOk result (record { gatherings = gatherings.new.items; out = out.new }
        ≡ passed_one context.now.plan.now (M.place context.now.map.now) roster.now sender message.now
        (record { gatherings = gatherings.old.items; out = out.old })) }
{
    match message {
        Outgoing::Parcel { entry, to, payload } => {
            let slot = SlotId {
                replica: sender.slot.replica,
                node: node_of(context.map, elements, *to),
            };
            let letter = Letter::Parcel {
                stamp: sender.stamp,
                entry: *entry,
                iteration: sender.iteration,
                to: *to,
                payload: *payload,
            };
            out.send(BoxId::Slot(slot), letter)?;
            Ok(())
        }
        Outgoing::Contribution { reduction, value } => {
            let found = context.plan.reductions.get(reduction.0 as usize);
            contribute(
                alloc, roster, sender, *reduction, *value, found, gatherings, out,
            )
        }
    }
}

// The node of an element, 0 where it is none of the `elements`.
fn node_of<M: Placement>(map: &M, elements: u32, e: ElementId) -> u16
    requires { length (M.place map.now) ≡ elements }
    ensures { result ≡ node_at (M.place map.now) e.0 }
{
    if e.0 < elements { map.node_of(e) } else { 0 }
}

// A contribution is gathered, and once none is missing the node's share goes to node 0.
fn contribute(
    alloc: Global,
    roster: &Seats,
    sender: Sender,
    reduction: ReductionId,
    value: i64,
    found: Option<&Reduction>,
    gatherings: &mut Vec<Tally>,
    out: &mut Outbox,
) -> Result<(), Memory>
    ensures { OnOk result (record { gatherings = gatherings.new.items; out = out.new }
        ≡ contributed_to roster.now sender reduction value
        (record { gatherings = gatherings.old.items; out = out.old }) (option_copied found.entry)) }
{
    match found {
        None => Ok(()),
        Some(x) => {
            if x.owner != sender.array {
                return Ok(());
            }
            let members = roster.count(x.owner);
            let total = count_in(
                alloc,
                x.how,
                members,
                sender.rank,
                reduction,
                sender.iteration,
                value,
                gatherings,
            )?;
            send_share(sender, reduction, total, out)
        }
    }
}

fn send_share(
    sender: Sender,
    reduction: ReductionId,
    total: Option<i64>,
    out: &mut Outbox,
) -> Result<(), Memory>
    ensures { OnOk result (out.new ≡ out.old ++ partial_sent sender reduction total) }
{
    if let Some(value) = total {
        let slot = SlotId {
            replica: sender.slot.replica,
            node: 0,
        };
        let letter = Letter::Partial {
            stamp: sender.stamp,
            reduction,
            iteration: sender.iteration,
            node: sender.slot.node,
            value,
        };
        out.send(BoxId::Slot(slot), letter)?;
    }
    Ok(())
}

// Once it is there, a total goes to each of these nodes.
pub(crate) fn send_totals(
    replica: u8,
    stamp: Stamp,
    reduction: ReductionId,
    iteration: u64,
    nodes: &[u16],
    total: Option<i64>,
    out: &mut Outbox,
) -> Result<(), Memory>
    ensures { OnOk result (out.new ≡ out.old
        ++ total_sent replica stamp reduction iteration nodes.now total) }
{
    match total {
        None => Ok(()),
        Some(value) => send_each(replica, stamp, reduction, iteration, nodes, value, out),
    }
}

fn send_each(
    replica: u8,
    stamp: Stamp,
    reduction: ReductionId,
    iteration: u64,
    nodes: &[u16],
    value: i64,
    out: &mut Outbox,
) -> Result<(), Memory>
    ensures { OnOk result (out.new ≡ out.old
        ++ map (total_to replica stamp reduction iteration value) nodes.now) }
{
    for node in nodes {
        let slot = SlotId {
            replica,
            node: *node,
        };
        let letter = Letter::Total {
            stamp,
            reduction,
            iteration,
            value,
        };
        out.send(BoxId::Slot(slot), letter)?;
    }
    Ok(())
}
