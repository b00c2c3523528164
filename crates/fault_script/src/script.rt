//! Scripts, and what strikes where.

ghost use Rattle.std.specs.Prelude.{◌≡◌, ◌≤◌, ◌==◌, ◌&&◌, if◌then◌else◌, length, map, []};
ghost use Rattle.fault_script.specs.Lines.{faults_of};
ghost use Rattle.fault_script.specs.Strikes.{first_place, kills, mask_by, mask_of};

use crate::fault::{Fault, FaultLine};
use chare_base::plan::ElementId;
use chare_base::slots::{LineSet, SlotId};
use std::alloc::Global;
use std::marker::Model;

/// A fault script: at most 64 fault lines, in the text's order. Contracts see it as the list of its lines.
#[derive(Drop)]
pub struct Script {
    lines: Vec<FaultLine>,
    ghost few: { length lines.items ≤ 64 },
}

impl Model for Script {
    ghost use Rattle.std.specs.Prelude.{List};
    ghost use Rattle.fault_script.specs.declared.fault.FaultLine.{FaultLine};

    ghost Value = { List FaultLine };

    ghost view = { λ s. s.lines.items };
}

impl Script {
    /// The script without fault lines. It takes no memory.
    pub fn none(alloc: Global) -> Script
        ensures { result ≡ [] }
    {
        Script {
            lines: Vec::new(alloc),
        }
    }

    /// The script of these fault lines. It takes no memory.
    pub fn from_vec(lines: Vec<FaultLine>) -> Script
        requires { length lines.items ≤ 64 }
        ensures { result ≡ lines.items }
    {
        Script { lines }
    }

    /// The fault lines, in order.
    pub fn as_slice(&self) -> &[FaultLine]
        ensures lines { result.now ≡ self.now }
        ensures few { length self.now ≤ 64 }
    {
        self.lines.as_slice()
    }

    /// How many fault lines there are.
    pub fn len(&self) -> usize
        ensures exact { result ≡ length self.now }
        ensures few { result ≤ 64 }
    {
        self.lines.len()
    }

    /// Whether there is no fault line.
    pub fn is_empty(&self) -> bool
        ensures { result ≡ (length self.now == 0) }
    {
        self.lines.is_empty()
    }

    /// What the flips of a set of lines change in a cell of an element of a replica as the element begins iteration
    /// `at`: their masks, by exclusive or. 0 where none of them strikes there. It takes no memory.
    pub fn mask(&self, replica: u8, e: ElementId, cell: u32, at: u64, live: LineSet) -> u64
        ensures { result ≡ mask_of replica e.0 cell at (faults_of self.now) live.0 }
    {
        mask_of(self.lines.as_slice(), replica, e, cell, at, live.0)
    }

    /// The place in the script, from 0, of the first line of a set by which the slot's node dies as it is about to
    /// begin iteration `at`. None exactly where there is none. It takes no memory.
    pub fn dies(&self, slot: SlotId, at: u64, live: LineSet) -> Option<u32>
        ensures { result ≡ first_place (kills slot at) 0 (faults_of self.now) live.0 }
    {
        first_death(self.lines.as_slice(), slot, at, live.0)
    }
}

fn mask_of(lines: &[FaultLine], replica: u8, e: ElementId, cell: u32, at: u64, set: u64) -> u64
    ensures { result ≡ mask_of replica e.0 cell at (faults_of lines.now) set }
{
    let mut mask = 0u64;
    let mut left = set;
    for line in lines {
        mask ^= mask_if(left % 2 == 1, line.fault, replica, e, cell, at);
        left /= 2;
    }
    mask
}

// What a line changes, if it is in the set.
fn mask_if(on: bool, fault: Fault, replica: u8, e: ElementId, cell: u32, at: u64) -> u64
    ensures { result ≡ (if on then mask_by replica e.0 cell at fault else 0) }
{
    if on {
        mask_by(fault, replica, e, cell, at)
    } else {
        0
    }
}

fn mask_by(fault: Fault, replica: u8, e: ElementId, cell: u32, at: u64) -> u64
    ensures { result ≡ mask_by replica e.0 cell at fault }
{
    match fault {
        Fault::Flip {
            replica: r,
            element,
            cell: c,
            mask,
            at: k,
        } => {
            if r == replica && element.0 == e.0 && c == cell && k == at {
                mask
            } else {
                0
            }
        }
        Fault::Crash { .. } => 0,
    }
}

fn first_death(lines: &[FaultLine], slot: SlotId, at: u64, set: u64) -> Option<u32>
    requires { length lines.now ≤ 64 }
    ensures { result ≡ first_place (kills slot at) 0 (faults_of lines.now) set }
{
    let mut left = set;
    for i in 0..lines.len() {
        if kills_if(left % 2 == 1, lines[i].fault, slot, at) {
            return Some(i as u32);
        }
        left /= 2;
    }
    None
}

// Whether a line kills the slot, if it is in the set.
fn kills_if(on: bool, fault: Fault, slot: SlotId, at: u64) -> bool
    ensures { result ≡ (on && kills slot at fault) }
{
    on && kills(fault, slot, at)
}

fn kills(fault: Fault, slot: SlotId, at: u64) -> bool
    ensures { result ≡ kills slot at fault }
{
    match fault {
        Fault::Flip { .. } => false,
        Fault::Crash { slot: s, at: k } => {
            s.replica == slot.replica && s.node == slot.node && k == at
        }
    }
}
