//! One turn of one object.

ghost use Rattle.std.specs.Prelude.{◌≡◌, ◌&&◌, ◌<◌, None, [], ◌∷◌, if◌then◌else◌, ⊤, IfOk, MatchOption, OnOk, OnErr};
ghost use Rattle.chare_base.specs.declared.plan.Plan.{Plan};
ghost use Rattle.chare_eval.specs.Stage.{one_value};
ghost use Rattle.fault_script.specs.Lines.{faults_of, flips_among, flips_in};
ghost use Rattle.object_steps.specs.Laws.{struck_by};
ghost use Rattle.object_steps.specs.Objects.{Fits, key_of};
ghost use Rattle.node_core.specs.Nodes.{total_taken};
ghost use Rattle.node_core.specs.Turns.{begins, can_run, goes, is_at, turned, takes};

use chare_base::memory::Memory;
use chare_base::message::{Payload, Port, ReductionId};
use chare_base::plan::{Plan, Spot};
use chare_base::slots::LineSet;
use chare_eval::effects::Effects;
use fault_script::fault::{Fault, FaultLine};
use fault_script::script::Script;
use object_steps::object::Object;
use object_steps::ready::Ready;
use ref_messages::fault::PutFault;
use ref_messages::key::RefKey;
use std::alloc::Global;

// One turn of an object: its ready part, or between two iterations the beginning of one below a limit, with its flips
// and its first part. Some where a part ran; nothing is sent elsewhere.
pub(crate) fn turn(
    alloc: Global,
    plan: &Plan,
    script: &Script,
    lines: LineSet,
    limit: u64,
    object: &mut Object,
    effects: &mut Effects,
) -> Result<Option<Spot>, Memory>
    requires fits { Fits plan.now object.old }
    requires none { effects.old ≡ [] }
    ensures ok { IfOk result (λ spot.
        record { object = object.new; spot = spot; sent = effects.new }
        ≡ turned plan.now (flips_in (faults_of script.now) lines.0) limit object.old) }
    ensures idle { IfOk result (λ spot. MatchOption spot (effects.new ≡ []) (λ _. ⊤)) }
{
    if object.is_at_top() {
        if object.done() < limit && object.done() < plan.iterations() {
            strike_lines(script.as_slice(), lines.0, object);
            object.begin();
            return go(alloc, plan, object, effects);
        }
        Ok(None)
    } else {
        go(alloc, plan, object, effects)
    }
}

// Its ready part, where it has one.
fn go(
    alloc: Global,
    plan: &Plan,
    object: &mut Object,
    effects: &mut Effects,
) -> Result<Option<Spot>, Memory>
    requires fits { Fits plan.now object.old }
    requires none { effects.old ≡ [] }
    ensures ok { IfOk result (λ spot.
        record { object = object.new; spot = spot; sent = effects.new }
        ≡ goes plan.now object.old) }
    ensures idle { IfOk result (λ spot. MatchOption spot (effects.new ≡ []) (λ _. ⊤)) }
{
    match object.ready(plan) {
        Ready::Step { spot } => {
            object.advance(alloc, plan, spot, effects)?;
            Ok(Some(spot))
        }
        Ready::Await { .. } => Ok(None),
        Ready::AtTop => Ok(None),
    }
}

// The flips of a set of lines strike an object as it begins an iteration.
fn strike_lines(lines: &[FaultLine], set: u64, object: &mut Object)
    requires { object.old.step ≡ None }
    ensures struck { object.new ≡ struck_by (flips_in (faults_of lines.now) set) object.old }
    ensures top { object.new.step ≡ None }
    ensures fits { (p : Plan) → Fits p object.old → Fits p object.new }
{
    let mut left = set;
    for line in lines {
        strike_if(left % 2 == 1, line.fault, object);
        left /= 2;
    }
}

fn strike_if(on: bool, fault: Fault, object: &mut Object)
    requires { object.old.step ≡ None }
    ensures struck { object.new
        ≡ struck_by (flips_among (if on then fault ∷ [] else [])) object.old }
    ensures top { object.new.step ≡ None }
    ensures fits { (p : Plan) → Fits p object.old → Fits p object.new }
{
    if on {
        strike(fault, object);
    }
}

fn strike(fault: Fault, object: &mut Object)
    requires { object.old.step ≡ None }
    ensures struck { object.new ≡ struck_by (flips_among (fault ∷ [])) object.old }
    ensures top { object.new.step ≡ None }
    ensures fits { (p : Plan) → Fits p object.old → Fits p object.new }
{
    match fault {
        Fault::Flip {
            replica: _,
            element,
            cell,
            mask,
            at,
        } => {
            if at == object.done() && element.0 == object.element().0 {
                if (cell as usize) < object.cells().len() {
                    object.strike(cell, mask);
                }
            }
        }
        Fault::Crash { .. } => {}
    }
}

// A message comes to an object. One whose iteration is over is dropped, and one that is held already.
pub(crate) fn take(object: &mut Object, key: RefKey, payload: &Payload) -> Result<(), Memory>
    ensures ok { OnOk result (object.new ≡ takes object.old key payload.now) }
{
    match object.mail(key, *payload) {
        Ok(()) => Ok(()),
        Err(PutFault::Memory) => Err(Memory),
        Err(PutFault::Old { .. }) => Ok(()),
        Err(PutFault::Held) => Ok(()),
    }
}

// Whether it has a ready part, or would begin an iteration below the limit and of the plan.
pub(crate) fn can_run(plan: &Plan, limit: u64, object: &Object) -> bool
    requires { Fits plan.now object.now }
    ensures { result ≡ can_run plan.now limit object.now }
{
    if object.is_at_top() {
        object.done() < limit && object.done() < plan.iterations()
    } else {
        matches!(object.ready(plan), Ready::Step { .. })
    }
}

// Whether it is before one of the `iterations`.
pub(crate) fn begins(iterations: u64, object: &Object) -> bool
    ensures { result ≡ begins iterations object.now }
{
    object.is_at_top() && object.done() < iterations
}

// Whether it has completed k iterations and hasn't begun the next.
pub(crate) fn is_at(k: u64, object: &Object) -> bool
    ensures { result ≡ is_at k object.now }
{
    object.is_at_top() && object.done() == k
}
