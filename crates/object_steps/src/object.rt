//! An element's object.

ghost use Rattle.std.specs.Prelude.{◌≡◌, ◌<◌, ◌≤◌, ◌++◌, ◌^◌, length, None, is_none, OnOk, OnErr, IfErr};
ghost use Rattle.chare_base.specs.Elements.{cells_of, cols_at, elements, parts_at, place_of, steps_of};
ghost use Rattle.chare_eval.specs.Block.{quiet};
ghost use Rattle.chare_eval.specs.Stage.{part_runs};
ghost use Rattle.ref_messages.specs.Refusal.{Takes, Refuses};
ghost use Rattle.chare_base.specs.declared.plan.Plan.{Plan};
ghost use Rattle.object_steps.specs.declared.ready.Ready.TheVariants as ready_as;
ghost use Rattle.object_steps.specs.Objects.{Fits, advanced, all_done, arrived_at, awaits, begun, gone_on, is_surrounded, mailed, ran, ready, started, struck, taken};

use crate::ready::{Ready, Standpoint, awaited, chosen, edge_given, given, is_done, is_surrounded};
use chare_base::cells::Cells;
use chare_base::elements::StepPart;
use chare_base::memory::Memory;
use chare_base::message::{EntryId, Need, Payload};
use chare_base::plan::{ElementId, Part, Place, Plan, Spot};
use chare_eval::block::run_part;
use chare_eval::effects::Effects;
use ref_messages::fault::PutFault;
use ref_messages::key::RefKey;
use ref_messages::queue::RefQueue;
use std::alloc::Global;
use std::marker::Model;

/// An element with its cells, the messages that came for it, and how far it is.
///
/// Contracts see a `Progress` of `specs/Objects`. Each call that takes a plan is given the one that the object was
/// started with; `Fits` is what holds of the object by it.
#[derive(Drop)]
pub struct Object {
    element: ElementId,
    place: Place,
    // Whether some element sends to it at each entry of its array: kept, since it never changes.
    surrounded: bool,
    cells: Cells,
    done: u64,
    step: Option<u8>,
    parts: [bool; 8],
    mail: RefQueue,
}

impl Model for Object {
    ghost use Rattle.object_steps.specs.Objects.{Progress};

    ghost Value = { Progress };

    ghost view = { λ o. record { element = o.element; place = o.place; surrounded = o.surrounded; cells = o.cells; done = o.done; step = o.step; parts = o.parts; mail = o.mail } };
}

impl Object {
    /// The object of an element that has completed `done` iterations: at its top, with no message. It takes no
    /// memory.
    pub fn start(alloc: Global, plan: &Plan, e: ElementId, cells: Cells, done: u64) -> Object
        requires element { e.0 < elements plan.now }
        requires cells { length cells.numbers ≡ cells_of plan.now e.0 }
        requires done { done ≤ plan.now.iterations }
        ensures exact { result ≡ started plan.now e.0 cells done }
        ensures fits { Fits plan.now result }
    {
        let place = plan.place(e);
        Object {
            element: e,
            place,
            surrounded: is_surrounded(plan, e, place),
            cells,
            done,
            step: None,
            parts: [false; 8],
            mail: RefQueue::start(alloc, done),
        }
    }

    /// The element.
    pub fn element(&self) -> ElementId
        ensures { result ≡ self.now.element }
    {
        self.element
    }

    /// Where the element stands in its array: a caller needn't look the array up by the plan.
    pub fn place(&self) -> Place
        ensures { result ≡ self.now.place }
    {
        self.place
    }

    /// The element's cells.
    pub fn cells(&self) -> &Cells
        ensures { result.now ≡ self.now.cells }
    {
        &self.cells
    }

    /// The element's cells, the object given up.
    pub fn into_cells(self) -> Cells
        ensures { result ≡ self.cells }
    {
        self.cells
    }

    /// How many iterations are completed.
    pub fn done(&self) -> u64
        ensures { result ≡ self.now.done }
    {
        self.done
    }

    /// Whether the object is between two iterations.
    pub fn is_at_top(&self) -> bool
        ensures { result ≡ is_none self.now.step }
    {
        self.step.is_none()
    }

    /// What the object can do next. `Step`: the first part of its step, in text order, that isn't done and that needs
    /// nothing, or a message that is held, or one from beyond an edge. `Await`: there is none, and this is the port
    /// that the first part which isn't done waits at. `AtTop`: no iteration is begun.
    #[tactic(auto, unfolding(crate::specs::Objects::ready))]
    pub fn ready(&self, plan: &Plan) -> Ready
        requires { Fits plan.now self.now }
        ensures { result ≡ ready plan.now self.now }
    {
        match self.step {
            Some(step) => {
                let at = Standpoint {
                    element: self.element,
                    place: self.place,
                    surrounded: self.surrounded,
                    iteration: self.done,
                    mail: &self.mail,
                };
                let parts = parts_at(plan, self.element, self.place, step);
                chosen(plan, at, step, &self.parts, parts)
            }
            None => Ready::AtTop,
        }
    }

    /// Whether the element is in this iteration, and a part of its step that isn't done needs the message of this entry. It
    /// looks for no message: one that came to an element that waits lets a part run exactly where the element awaited it.
    pub fn awaits(&self, plan: &Plan, iteration: u64, entry: EntryId) -> bool
        requires { Fits plan.now self.now }
        ensures { result ≡ awaits plan.now self.now iteration entry.0 }
    {
        match self.step {
            Some(step) => {
                let parts = parts_at(plan, self.element, self.place, step);
                iteration == self.done && awaited(entry, &self.parts, parts)
            }
            None => false,
        }
    }

    /// A silent change of a cell: its 64 bits by exclusive or with a mask.
    pub fn strike(&mut self, cell: u32, mask: u64)
        requires top { self.old.step ≡ None }
        requires cell { cell < length self.old.cells.numbers }
        ensures exact { self.new ≡ struck self.old cell mask }
        ensures fits { (p : Plan) → Fits p self.old → Fits p self.new }
    {
        let at = cell as usize;
        let struck = self.cells.get(at).cast_unsigned() ^ mask;
        self.cells.set(at, struck.cast_signed());
    }

    /// Begins the next iteration. Where the plan has that iteration, the object fits the plan afterwards too.
    pub fn begin(&mut self)
        requires { self.old.step ≡ None }
        ensures exact { self.new ≡ begun self.old }
        ensures fits { (p : Plan) → Fits p self.old → self.old.done < p.iterations
            → Fits p self.new }
    {
        self.step = Some(0);
    }

    /// Holds a message under its key until a part takes it.
    ///
    /// `Old`: its iteration is completed. `Held`: it isn't, and a message is held under its key. `Memory`: neither,
    /// and an allocation was refused. After each, all is as before.
    pub fn mail(&mut self, key: RefKey, payload: Payload) -> Result<(), PutFault>
        ensures taken { OnOk result (Takes self.old.mail key) }
        ensures refused { IfErr result (Refuses self.old.mail key) }
        ensures ok { OnOk result (self.new ≡ mailed self.old key payload) }
        ensures err { OnErr result (self.new ≡ self.old) }
        ensures fits { (p : Plan) → Fits p self.old → Fits p self.new }
    {
        self.mail.put(key, payload)
    }

    /// Runs the part of the step that `ready` answers: on the object's cells, with the message that it needs, which
    /// is taken out. What it sends is put behind what was sent before. After the last part of a step comes the next
    /// step, and after the last step an iteration more is completed.
    ///
    /// `Memory`: an allocation was refused; all is as before.
    #[tactic(auto, unfolding(crate::specs::Objects::advanced))]
    pub fn advance(
        &mut self,
        alloc: Global,
        plan: &Plan,
        spot: Spot,
        effects: &mut Effects,
    ) -> Result<(), Memory>
        requires fits { Fits plan.now self.old }
        requires ready { ready plan.now self.old ≡ ready_as.Step spot }
        ensures ok { OnOk result (self.new ≡ advanced plan.now self.old spot) }
        ensures sent { OnOk result
            (effects.new ≡ effects.old ++ (ran plan.now self.old spot).sent) }
        ensures fits { Fits plan.now self.new }
        ensures err { OnErr result ((self.new ≡ self.old) × (effects.new ≡ effects.old)) }
    {
        let _ = alloc;
        let found = plan.part_at(self.element, self.place, spot);
        let need = found.part.need;
        let at = Standpoint {
            element: self.element,
            place: self.place,
            surrounded: self.surrounded,
            iteration: self.done,
            mail: &self.mail,
        };
        run(plan, at, spot.step, found, &mut self.cells, effects)?;
        take(&mut self.mail, self.done, need);
        self.parts[spot.part as usize] = true;
        self.go_on(found.steps, found.parts, spot.step);
        Ok(())
    }

    // Once all parts of the step are done: to the next step, or behind the last one.
    fn go_on(&mut self, steps: u8, parts: u8, step: u8)
        requires done { self.old.done < 2 ^ 32 }
        requires step { step < steps }
        requires since { self.old.mail.since ≤ self.old.done }
        ensures { self.new ≡ gone_on steps parts step self.old }
    {
        if !all_done(&self.parts, parts) {
            return;
        }
        self.parts = [false; 8];
        if step + 1 == steps {
            self.done += 1;
            self.step = None;
            self.mail.drop_below(self.done);
        } else {
            self.step = Some(step + 1);
        }
    }
}

// The parts of a step of the element that stands at a place.
#[tactic(auto, using(crate::proofs::Kept::few_parts))]
fn parts_at(plan: &Plan, e: ElementId, place: Place, step: u8) -> &[Part]
    requires element { e.0 < elements plan.now }
    requires place { place ≡ place_of plan.now e.0 }
    requires step { step < length (steps_of plan.now e.0) }
    ensures exact { result.now ≡ parts_at plan.now e.0 step }
    ensures few { length result.now ≤ 8 }
{
    let array = plan.array_at(e, place);
    let step = &array.steps.as_slice()[step as usize];
    step.parts.as_slice()
}

// Whether the first `count` parts are done.
fn all_done(parts: &[bool], count: u8) -> bool
    ensures { result ≡ all_done parts.now count }
{
    let mut all = true;
    for i in 0..count {
        let here = is_done(parts, i as usize);
        all = all && here;
    }
    all
}

// Runs a part on the element's cells, with what it needs. A message that is held is read where it lies.
#[tactic(auto, using(crate::proofs::Finding::read_given))]
fn run(
    plan: &Plan,
    at: Standpoint<'_>,
    step: u8,
    found: StepPart<'_>,
    cells: &mut Cells,
    effects: &mut Effects,
) -> Result<(), Memory>
    requires element { at.element.0 < elements plan.now }
    requires place { at.place ≡ place_of plan.now at.element.0 }
    requires surrounded { at.surrounded ≡ is_surrounded plan.now at.element.0 }
    requires cols { found.cols ≡ cols_at plan.now at.element.0 }
    ensures cells { OnOk result
        (cells.new ≡ (part_runs plan.now at.entry.element.0 step at.entry.iteration
        (arrived_at plan.now at.entry.element.0 at.entry.iteration at.entry.mail.now)
        found.entry.part.now (quiet cells.old)).cells) }
    ensures sent { OnOk result
        (effects.new ≡ effects.old ++ (part_runs plan.now at.entry.element.0 step at.entry.iteration
        (arrived_at plan.now at.entry.element.0 at.entry.iteration at.entry.mail.now)
        found.entry.part.now (quiet cells.old)).sent) }
    ensures err { OnErr result ((cells.new ≡ cells.old) × (effects.new ≡ effects.old)) }
{
    let edge = edge_given(plan, at, found.part.need);
    let payload = given(at, found.part.need, &edge);
    let block = found.part.block.as_slice();
    run_part(
        plan,
        at.element,
        at.place,
        step,
        at.iteration,
        found.cols,
        block,
        payload,
        cells,
        effects,
    )
}

// Takes out the message that was needed.
fn take(mail: &mut RefQueue, iteration: u64, need: Need)
    ensures { mail.new ≡ taken need iteration mail.old }
{
    if let Need::Port(port) = need {
        mail.take(RefKey { iteration, port });
    }
}
