//! Entries and reductions that aren't sent to once, at top level, and received from once, in a later step.

ghost use Rattle.std.specs.Prelude.{◌≡◌, slice_get};
ghost use Rattle.job_rules.specs.Faults.{first_of};
ghost use Rattle.job_rules.specs.Ports.{arrays_found, declared_at, early_fault, extra_fault, members_found, nested_fault, once_fault, port_fault, ports_found, too_few, too_many, uses_of};
ghost use Rattle.job_rules.specs.Tables.{no_counts};

use crate::tables::counts_after;
use job_rules::fault::{CheckFault, fault_if, sooner};
use job_rules::notes::{Notes, PortUse};
use job_rules::tables::Counts;
use job_tree::tree::{ArrayDecl, Job, MemberDecl};

/// Of what was found and what is wrong with the ports of a job, the fault that is named. The notes have all its
/// sends, contributions and receipts.
#[tactic(auto, unfolding(job_rules::specs::Ports::ports_found))]
pub(crate) fn ports_fault(job: &Job, notes: &Notes, found: Option<CheckFault>) -> Option<CheckFault>
    ensures { result ≡ ports_found job.now notes.now.sent notes.now.received found }
{
    let sent = notes.sent.as_slice();
    let received = notes.received.as_slice();
    arrays_fault(job.arrays.as_slice(), sent, received, found)
}

/// The place of a port's declaration.
pub(crate) fn declared_at(member: MemberDecl) -> u32
    ensures { result ≡ declared_at member }
{
    match member {
        MemberDecl::Entry(entry) => entry.at,
        MemberDecl::Reduce(reduction) => reduction.at,
    }
}

fn arrays_fault(
    arrays: &[ArrayDecl],
    sent: &[PortUse],
    received: &[PortUse],
    found: Option<CheckFault>,
) -> Option<CheckFault>
    ensures { result ≡ arrays_found sent.now received.now no_counts found arrays.now }
{
    let mut found = found;
    let mut counts = Counts::NONE;
    for array in arrays {
        let members = array.members.as_slice();
        found = members_fault(members, counts.ports, sent, received, found);
        counts = counts_after(counts, members);
    }
    found
}

// The faults of an array's ports, whose numbers begin with this one.
fn members_fault(
    members: &[MemberDecl],
    first: usize,
    sent: &[PortUse],
    received: &[PortUse],
    found: Option<CheckFault>,
) -> Option<CheckFault>
    ensures { result ≡ members_found sent.now received.now first found members.now }
{
    let mut found = found;
    let mut port = first;
    for member in members {
        found = sooner(
            found,
            port_fault(declared_at(*member), port, sent, received),
        );
        port = port.saturating_add(1);
    }
    found
}

fn port_fault(
    declared: u32,
    port: usize,
    sent: &[PortUse],
    received: &[PortUse],
) -> Option<CheckFault>
    ensures { result ≡ port_fault declared (uses_of port sent.now) (uses_of port received.now) }
{
    let send = use_at(sent, port, 0);
    let receipt = use_at(received, port, 0);
    let once = match too_many(declared, port, sent, received) {
        Some(fault) => Some(fault),
        None => too_few(declared, send, receipt),
    };
    sooner(once, early_fault(declared, send, receipt))
}

// The use of a port that stands behind `before` others of it.
fn use_at(uses: &[PortUse], port: usize, before: usize) -> Option<PortUse>
    ensures { result ≡ slice_get (uses_of port uses.now) before }
{
    let mut left = before;
    for port_use in uses {
        if port_use.port == port {
            if left == 0 {
                return Some(*port_use);
            }
            left -= 1;
        }
    }
    None
}

// A second send, one that isn't at top level, or a second receipt.
fn too_many(
    declared: u32,
    port: usize,
    sent: &[PortUse],
    received: &[PortUse],
) -> Option<CheckFault>
    ensures { result ≡ too_many declared (uses_of port sent.now) (uses_of port received.now) }
{
    let second = extra_fault(declared, use_at(sent, port, 1));
    let found = nested_faults(declared, port, sent, second);
    sooner(found, extra_fault(declared, use_at(received, port, 1)))
}

fn extra_fault(declared: u32, port_use: Option<PortUse>) -> Option<CheckFault>
    ensures { result ≡ extra_fault declared port_use }
{
    match port_use {
        Some(port_use) => Some(CheckFault::NotOnce {
            entry: declared,
            at: port_use.at,
        }),
        None => None,
    }
}

fn nested_faults(
    declared: u32,
    port: usize,
    sent: &[PortUse],
    found: Option<CheckFault>,
) -> Option<CheckFault>
    ensures { result ≡ first_of (nested_fault declared) found (uses_of port sent.now) }
{
    let mut found = found;
    for send in sent {
        if send.port == port {
            found = sooner(found, nested_fault(declared, *send));
        }
    }
    found
}

fn nested_fault(declared: u32, send: PortUse) -> Option<CheckFault>
    ensures { result ≡ nested_fault declared send }
{
    let not_once = CheckFault::NotOnce {
        entry: declared,
        at: send.at,
    };
    fault_if(send.nested, not_once)
}

fn too_few(declared: u32, send: Option<PortUse>, receipt: Option<PortUse>) -> Option<CheckFault>
    ensures { result ≡ too_few declared send receipt }
{
    let not_once = CheckFault::NotOnce {
        entry: declared,
        at: declared,
    };
    fault_if(send.is_none() || receipt.is_none(), not_once)
}

// A send in a step that isn't before the receiving one.
fn early_fault(declared: u32, send: Option<PortUse>, receipt: Option<PortUse>) -> Option<CheckFault>
    ensures { result ≡ early_fault declared send receipt }
{
    match (send, receipt) {
        (Some(send), Some(receipt)) => {
            let too_early = CheckFault::TooEarly {
                entry: declared,
                at: send.at,
            };
            fault_if(receipt.step <= send.step, too_early)
        }
        _ => None,
    }
}
