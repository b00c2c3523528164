//! Orders to all slots.

ghost use Rattle.std.specs.Prelude.{◌≡◌, ◌<◌, ◌+◌, ◌^◌, ◌++◌, ◌↔◌, IfOk, IsTrue, OnOk};
ghost use Rattle.letter_post.specs.declared.letter.Letter.{Letter};
ghost use Rattle.conductor_core.specs.Orders.{all_back, all_taken, can_rise, letter_of, letters_to, ordered, raised, relined};

use chare_base::memory::Memory;
use chare_base::slots::{LineSet, SlotId};
use letter_post::letter::{BoxId, Letter};
use letter_post::outbox::Outbox;
use letter_post::stamp::Stamp;
use std::alloc::Global;

// A letter that every slot of a replica is sent.
#[derive(Clone, Copy)]
pub(crate) enum ToAll {
    Restore {
        stamp: Stamp,
        iteration: u64,
        live: LineSet,
    },
    Commit {
        stamp: Stamp,
        iteration: u64,
        live: LineSet,
    },
    Resume {
        stamp: Stamp,
    },
    Stop,
}

fn letter_of(all: ToAll) -> Letter
    ensures { result ≡ letter_of all }
{
    match all {
        ToAll::Restore {
            stamp,
            iteration,
            live,
        } => Letter::Restore {
            stamp,
            iteration,
            live,
        },
        ToAll::Commit {
            stamp,
            iteration,
            live,
        } => Letter::Commit {
            stamp,
            iteration,
            live,
        },
        ToAll::Resume { stamp } => Letter::Resume { stamp },
        ToAll::Stop => Letter::Stop,
    }
}

// A letter to each slot of a replica.
fn send_all(replica: u8, all: ToAll, nodes: u16, out: &mut Outbox) -> Result<(), Memory>
    ensures { OnOk result (out.new ≡ out.old ++ letters_to replica (letter_of all) nodes) }
{
    for node in 0..nodes {
        let slot = SlotId { replica, node };
        out.send(BoxId::Slot(slot), letter_of(all))?;
    }
    Ok(())
}

// Stop to every slot.
pub(crate) fn stop_all(nodes: u16, out: &mut Outbox) -> Result<(), Memory>
    ensures { OnOk result (out.new ≡ (out.old ++ letters_to 0 Letter.Stop nodes)
        ++ letters_to 1 Letter.Stop nodes) }
{
    send_all(0, ToAll::Stop, nodes, out)?;
    send_all(1, ToAll::Stop, nodes, out)?;
    Ok(())
}

// An order to each slot of each replica, and behind all of these Resume.
fn order_all(
    alloc: Global,
    nodes: u16,
    a: ToAll,
    b: ToAll,
    first: Stamp,
    second: Stamp,
) -> Result<Outbox, Memory>
    ensures { IfOk result (λ out. out ≡ ordered nodes (letter_of a) (letter_of b) first second) }
{
    let mut out = Outbox::new(alloc);
    send_all(0, a, nodes, &mut out)?;
    send_all(1, b, nodes, &mut out)?;
    send_all(0, ToAll::Resume { stamp: first }, nodes, &mut out)?;
    send_all(1, ToAll::Resume { stamp: second }, nodes, &mut out)?;
    Ok(out)
}

// All slots go back to the base, and then go on.
pub(crate) fn order_back(
    alloc: Global,
    nodes: u16,
    iteration: u64,
    live: LineSet,
    first: Stamp,
    second: Stamp,
) -> Result<Outbox, Memory>
    ensures { IfOk result (λ out. out ≡ all_back nodes iteration live.0 first second) }
{
    let a = ToAll::Restore {
        stamp: first,
        iteration,
        live,
    };
    let b = ToAll::Restore {
        stamp: second,
        iteration,
        live,
    };
    order_all(alloc, nodes, a, b, first, second)
}

// All slots take their fresh piece as the base, and then go on.
pub(crate) fn order_on(
    alloc: Global,
    nodes: u16,
    iteration: u64,
    live: LineSet,
    first: Stamp,
    second: Stamp,
) -> Result<Outbox, Memory>
    ensures { IfOk result (λ out. out ≡ all_taken nodes iteration live.0 first second) }
{
    let a = ToAll::Commit {
        stamp: first,
        iteration,
        live,
    };
    let b = ToAll::Commit {
        stamp: second,
        iteration,
        live,
    };
    order_all(alloc, nodes, a, b, first, second)
}

// A stamp of the next epoch.
pub(crate) fn raised(stamp: Stamp, lines: LineSet) -> Stamp
    requires { IsTrue (can_rise stamp) }
    ensures { result ≡ raised lines stamp }
{
    Stamp {
        replica: stamp.replica,
        epoch: stamp.epoch + 1,
        lines,
    }
}

// A stamp of the same epoch.
pub(crate) fn relined(stamp: Stamp, lines: LineSet) -> Stamp
    ensures { result ≡ relined lines stamp }
{
    Stamp {
        replica: stamp.replica,
        epoch: stamp.epoch,
        lines,
    }
}

// Whether a stamp has a next epoch.
pub(crate) fn can_rise(stamp: Stamp) -> bool
    ensures { result ≡ can_rise stamp }
{
    stamp.epoch < u32::MAX
}
