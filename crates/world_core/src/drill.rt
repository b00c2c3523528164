//! Drills: whole runs by a schedule.

ghost use Rattle.std.specs.Prelude.{◌≡◌, ◌≢◌, ◌≤◌, ◌<◌, ◌+◌, ◌-◌, ◌++◌, [], suc, length, slice_get, OnOk, IfOk, Err, None, Some};
ghost use Rattle.std.specs.List.{AllByRecursion};
ghost use Rattle.chare_base.specs.Elements.{elements};
ghost use Rattle.fault_script.specs.Lines.{faults_of};
ghost use Rattle.world_core.specs.Bounds.{capped, turns_bound};
ghost use Rattle.conductor_core.specs.Endings.{IsEnding};
ghost use Rattle.world_core.specs.Drills.{drilled, scheduled};
ghost use Rattle.world_core.specs.Sound.{Sound};
ghost use Rattle.world_core.specs.Steps.{Fresh, setting};
ghost use Rattle.world_core.specs.Worlds.{actor_at, chosen_of, drawn, goes_on, opening_chooser, picked, reached, ready_from, stirred, with_event};

use crate::event::{Actor, Chooser, Event};
use crate::fault::DrillFault;
use crate::laws::{drills_end, sound_worlds_serve, worlds_are_sound};
use crate::setting::Setting;
use crate::turns::turns;
use crate::world::World;
use chare_base::memory::Memory;
use chare_base::options::Options;
use chare_base::placement::{BlockMap, Placement};
use chare_base::plan::Plan;
use chare_base::slots::SlotId;
use conductor_core::ending::Ending;
use conductor_core::laws::conductors_tell;
use fault_script::script::Script;
use letter_post::outbox::Outbox;
use std::alloc::Global;

/// Runs a job by a schedule, each node with a block of elements, to its ending. Schedule 0 goes round the actors;
/// another number draws among those that have an event.
///
/// `Still`: the run hasn't ended where no actor has an event, or where the turns that `turns_bound` allows have run out. A
/// run of a script without lines never answers so.
/// `Memory`: an allocation was refused.
#[tactic(auto, unfolding(crate::specs::Drills::drilled))]
pub fn drill(
    alloc: Global,
    plan: &Plan,
    script: &Script,
    options: &Options,
    schedule: u64,
) -> Result<Ending, DrillFault>
    requires some { 1 ≤ options.now.nodes }
    requires few { options.now.nodes ≤ elements plan.now }
    requires bounded { options.now.nodes ≤ 32 }
    ensures outcome { IfOk result
        (λ ending. (drilled plan.now script.now options.now schedule).conductor.outcome
        ≡ Some ending.outcome) }
    ensures records { IfOk result
        (λ ending. ending.records.items
        ≡ (drilled plan.now script.now options.now schedule).conductor.records) }
    ensures marks { IfOk result
        (λ ending. ending.marks ≡ (drilled plan.now script.now options.now
        schedule).conductor.marks) }
    ensures last { IfOk result
        (λ ending. ending.last ≡ (drilled plan.now script.now options.now
        schedule).conductor.last) }
    ensures still { result ≡ Err DrillFault.Still
        → (drilled plan.now script.now options.now schedule).conductor.outcome ≡ None }
    ensures ends { script.now ≡ [] → 1 ≤ options.now.every → result ≢ Err DrillFault.Still }
    ensures lawful { IfOk result
        (λ ending. IsEnding plan.now (faults_of script.now) options.now ending) }
{
    conductors_tell();
    drills_end();
    let map = BlockMap {
        elements: plan.elements(),
        nodes: options.nodes,
    };
    let world = run(alloc, plan, script, options, &map, schedule)?;
    match world.end() {
        Some(ending) => Ok(ending),
        None => Err(DrillFault::Still),
    }
}

/// The world that a schedule reaches, with elements placed in any way.
///
/// `Memory`: an allocation was refused.
pub fn run<M: Placement>(
    alloc: Global,
    plan: &Plan,
    script: &Script,
    options: &Options,
    map: &M,
    schedule: u64,
) -> Result<World, Memory>
    requires place { length (M.place map.now) ≡ elements plan.now }
    requires nodes { M.count map.now ≡ options.now.nodes }
    requires bounded { options.now.nodes ≤ 32 }
    ensures reached { IfOk result
        (λ w. w ≡ scheduled (setting plan.now (faults_of script.now) (M.place map.now)
        (M.count map.now)) options.now
        (capped (turns_bound plan.now (length script.now) (M.count map.now))) schedule) }
    ensures sound { IfOk result
        (λ w. Sound (setting plan.now (faults_of script.now) (M.place map.now) (M.count map.now))
        options.now w) }
{
    worlds_are_sound();
    let nodes = map.nodes();
    let turns = turns(plan, script.len(), nodes);
    let mut world = World::start(alloc, plan, script, options, map)?;
    let setting = Setting::new(plan, script, map);
    let chooser = opening_chooser(nodes, schedule);
    go(alloc, &setting, options, chooser, turns, &mut world)?;
    Ok(world)
}

// Takes the events that a chooser picks, at most `turns` of them.
fn go<M: Placement>(
    alloc: Global,
    setting: &Setting<'_, M>,
    options: &Options,
    chooser: Chooser,
    turns: u64,
    world: &mut World,
) -> Result<(), Memory>
    requires nodes { setting.now.nodes ≡ options.now.nodes }
    requires bounded { options.now.nodes ≤ 32 }
    requires sound { Sound setting.now options.now world.old }
    ensures reached { OnOk result
        (world.new ≡ reached setting.now world.old (picked setting.now turns chooser world.old)) }
    ensures sound { OnOk result (Sound setting.now options.now world.new) }
{
    worlds_are_sound();
    sound_worlds_serve();
    let _ = options;
    // Its contract says that each node has an element, which every event relies on.
    let _ = setting.map.nodes();
    let mut ready = Vec::new(alloc);
    let mut out = Outbox::new(alloc);
    let mut left = turns;
    let mut chooser = chooser;
    while left > 0 {
        let next = next_event(setting.plan, setting.map, world, chooser, &mut ready)?;
        let Some((i, event)) = next else {
            return Ok(());
        };
        world.happen(alloc, setting, event, &mut out)?;
        chooser = goes_on(chooser, i);
        left -= 1;
    }
    Ok(())
}

// The actor that is taken, and its event. Going round asks one actor after another, and no more of them than it must.
// It and what it asks are inlined, since each event begins with them.
#[inline(always)]
fn next_event<M: Placement>(
    plan: &Plan,
    map: &M,
    world: &World,
    chooser: Chooser,
    ready: &mut Vec<usize>,
) -> Result<Option<(usize, Event)>, Memory>
    requires { AllByRecursion (Fresh plan.now world.now.cut) world.now.posts.slots }
    ensures { IfOk result (λ next. next
        ≡ with_event plan.now (M.count map.now) world.now
        (chosen_of chooser (ready_from plan.now (M.count map.now) world.now 0
        (suc (M.count map.now + M.count map.now))))) }
{
    match chooser {
        Chooser::Round { last } => Ok(next_round(plan, map, world, last)),
        Chooser::Draw { random } => {
            ready.clear();
            find_ready(plan, map, world, ready)?;
            let drawn = draw(stirred(random), ready.as_slice());
            Ok(event_drawn(plan, map, world, drawn))
        }
    }
}

// The first actor behind the last one that has an event, else the first of all.
#[inline(always)]
fn next_round<M: Placement>(
    plan: &Plan,
    map: &M,
    world: &World,
    last: usize,
) -> Option<(usize, Event)>
    requires { AllByRecursion (Fresh plan.now world.now.cut) world.now.posts.slots }
    ensures { result ≡ with_event plan.now (M.count map.now) world.now
        (chosen_of (Chooser.Round last)
        (ready_from plan.now (M.count map.now) world.now 0
        (suc (M.count map.now + M.count map.now)))) }
{
    let actors = 2 * map.nodes() as usize + 1;
    match first_ready(plan, map, world, behind(last, actors), actors) {
        Some(next) => Some(next),
        None => first_ready(plan, map, world, 0, actors),
    }
}

// The actor behind the last one, of `actors`.
fn behind(last: usize, actors: usize) -> usize
    ensures next { last < actors → result ≡ last + 1 }
    ensures none { actors ≤ last → result ≡ actors }
    ensures within { result ≤ actors }
{
    if last < actors { last + 1 } else { actors }
}

// The first actor from one to another that has an event.
#[inline(always)]
fn first_ready<M: Placement>(
    plan: &Plan,
    map: &M,
    world: &World,
    from: usize,
    actors: usize,
) -> Option<(usize, Event)>
    requires fresh { AllByRecursion (Fresh plan.now world.now.cut) world.now.posts.slots }
    requires within { from ≤ actors }
    ensures { result ≡ with_event plan.now (M.count map.now) world.now
        (slice_get (ready_from plan.now (M.count map.now) world.now from (actors - from)) 0) }
{
    let nodes = map.nodes();
    for i in from..actors {
        if let Some(event) = world.enabled(plan, map, actor_at(nodes, i)) {
            return Some((i, event));
        }
    }
    None
}

// The event of an actor that was drawn.
fn event_drawn<M: Placement>(
    plan: &Plan,
    map: &M,
    world: &World,
    drawn: Option<usize>,
) -> Option<(usize, Event)>
    requires { AllByRecursion (Fresh plan.now world.now.cut) world.now.posts.slots }
    ensures { result ≡ with_event plan.now (M.count map.now) world.now drawn }
{
    let i = drawn?;
    let event = world.enabled(plan, map, actor_at(map.nodes(), i))?;
    Some((i, event))
}

// The numbers of the actors that have an event.
fn find_ready<M: Placement>(
    plan: &Plan,
    map: &M,
    world: &World,
    ready: &mut Vec<usize>,
) -> Result<(), Memory>
    requires { AllByRecursion (Fresh plan.now world.now.cut) world.now.posts.slots }
    ensures { OnOk result (ready.new.items ≡ ready.old.items
        ++ ready_from plan.now (M.count map.now) world.now 0
        (suc (M.count map.now + M.count map.now))) }
{
    let nodes = map.nodes();
    let actors = 2 * nodes as usize + 1;
    for i in 0..actors {
        if world.enabled(plan, map, actor_at(nodes, i)).is_some() {
            ready.push(i)?;
        }
    }
    Ok(())
}

// The actor of a number.
fn actor_at(nodes: u16, i: usize) -> Actor
    ensures { result ≡ actor_at nodes i }
{
    let count = nodes as usize;
    if i < count {
        return Actor::Slot(SlotId {
            replica: 0,
            node: i as u16,
        });
    }
    if i < count + count {
        return Actor::Slot(SlotId {
            replica: 1,
            node: (i - count) as u16,
        });
    }
    Actor::Conductor
}

fn opening_chooser(nodes: u16, schedule: u64) -> Chooser
    ensures { result ≡ opening_chooser nodes schedule }
{
    if schedule == 0 {
        Chooser::Round {
            last: nodes as usize + nodes as usize,
        }
    } else {
        Chooser::Draw { random: schedule }
    }
}

// One of these by a random number.
fn draw(random: u64, ready: &[usize]) -> Option<usize>
    ensures { result ≡ slice_get ready.now (drawn random (length ready.now)) }
{
    if ready.is_empty() {
        return None;
    }
    let at = (random / 8589934592) % ready.len() as u64;
    ready.get(at as usize).copied()
}

fn stirred(random: u64) -> u64
    ensures { result ≡ stirred random }
{
    random
        .wrapping_mul(6364136223846793005)
        .wrapping_add(1442695040888963407)
}

fn goes_on(chooser: Chooser, i: usize) -> Chooser
    ensures { result ≡ goes_on chooser i }
{
    match chooser {
        Chooser::Round { .. } => Chooser::Round { last: i },
        Chooser::Draw { random } => Chooser::Draw {
            random: stirred(random),
        },
    }
}
