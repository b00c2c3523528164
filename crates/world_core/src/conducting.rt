//! The conductor's events: it hears a letter, or makes the move on the agreement that it wants.

ghost use Rattle.std.specs.Prelude.{◌≡◌, ◌≤◌, ◌&&◌, ◌||◌, Bool, true, OnOk};
ghost use Rattle.std.specs.List.{AllByRecursion};
ghost use Rattle.conductor_core.specs.Conductors.{IsOf, conductor_did, wanted};
ghost use Rattle.conductor_core.specs.Conductors.{sight_of as last_sight};
ghost use Rattle.iteration_agree.specs.Cuts.{CutState, HasSlot};
ghost use Rattle.world_core.specs.Steps.{Renews, world_of};
ghost use Rattle.world_core.specs.Worlds.{conductor_made, conductor_moved, did_in, in_cut, saw_in, told_by};
ghost use Rattle.world_core.specs.Worlds.{any_news, has_slot, is_gather, is_news, is_quiet, move_due, names_replica, news_below, same_cap, sight_in, takes_move};

use crate::posts::Posts;
use crate::setting::Setting;
use chare_base::memory::Memory;
use chare_base::placement::Placement;
use chare_base::slots::SlotId;
use conductor_core::conductor::Conductor;
use conductor_core::wants::{CutAnswer, CutMove};
use iteration_agree::cut::Cut;
use iteration_agree::round::{Round, Sight, Taking, number};
use std::alloc::Global;

// Whether the agreement takes a move of the conductor.
fn takes_move(cut: &Cut, wanted: CutMove) -> bool
    ensures { result ≡ takes_move cut.now wanted }
{
    match wanted {
        CutMove::None => false,
        CutMove::Look { slot } => has_slot(cut, slot),
        CutMove::OpenRound { floor } => is_quiet(cut.round()) && floor <= 1_000_000,
        CutMove::Note { slot } => has_slot(cut, slot),
        CutMove::Agree { taking } => is_gather(cut.round()) && names_replica(taking),
        CutMove::Quiet => !is_quiet(cut.round()) && number(cut.round()) < 1_000_129,
    }
}

fn has_slot(cut: &Cut, slot: SlotId) -> bool
    ensures { result ≡ has_slot cut.now slot }
{
    slot.replica <= 1 && slot.node < cut.nodes()
}

fn names_replica(taking: Taking) -> bool
    ensures { result ≡ names_replica taking }
{
    match taking {
        Taking::Both => true,
        Taking::Only(replica) => replica <= 1,
    }
}

fn is_quiet(round: Round) -> bool
    ensures { result ≡ is_quiet round }
{
    match round {
        Round::Quiet { .. } => true,
        Round::Gather { .. } => false,
        Round::Agreed { .. } => false,
    }
}

fn is_gather(round: Round) -> bool
    ensures { result ≡ is_gather round }
{
    match round {
        Round::Quiet { .. } => false,
        Round::Gather { .. } => true,
        Round::Agreed { .. } => false,
    }
}

// Whether a move that the conductor wants, and the agreement takes, is due: a look where some slot's sight differs from the
// last one that the conductor was given, a note where the slot reported in this round, any other at once.
fn move_due(cut: &Cut, conductor: &Conductor, wanted: CutMove) -> bool
    requires { takes_move cut.now wanted ≡ true }
    ensures { result ≡ move_due cut.now conductor.now wanted }
{
    match wanted {
        CutMove::None => false,
        CutMove::Look { .. } => any_news(cut, conductor),
        CutMove::OpenRound { .. } => true,
        CutMove::Note { slot } => cut.sight(slot).cap.is_some(),
        CutMove::Agree { .. } => true,
        CutMove::Quiet => true,
    }
}

fn any_news(cut: &Cut, conductor: &Conductor) -> bool
    ensures { result ≡ any_news cut.now conductor.now }
{
    news_below(cut, conductor, 0) || news_below(cut, conductor, 1)
}

// Whether some slot of a replica has news.
fn news_below(cut: &Cut, conductor: &Conductor, replica: u8) -> bool
    requires { replica ≤ 1 }
    ensures { result ≡ news_below cut.now conductor.now replica cut.now.nodes }
{
    let mut news = false;
    for node in 0..cut.nodes() {
        let slot = SlotId { replica, node };
        news = either(news, is_news_of(cut, conductor, slot));
    }
    news
}

fn either(a: bool, b: bool) -> bool
    ensures { result ≡ (a || b) }
{
    a || b
}

fn is_news_of(cut: &Cut, conductor: &Conductor, slot: SlotId) -> bool
    requires { HasSlot cut.now slot }
    ensures { result ≡ is_news (last_sight slot conductor.now) (sight_in cut.now slot) }
{
    is_news(conductor.sight(slot), cut.sight(slot))
}

fn is_news(old: Option<Sight>, sight: Sight) -> bool
    ensures { result ≡ is_news old sight }
{
    match old {
        None => true,
        Some(old) => !(old.top == sight.top && same_cap(old.cap, sight.cap)),
    }
}

fn same_cap(a: Option<u64>, b: Option<u64>) -> bool
    ensures { result ≡ same_cap a b }
{
    match (a, b) {
        (None, None) => true,
        (Some(a), Some(b)) => a == b,
        _ => false,
    }
}

/// Whether the move that the conductor wants is one that the agreement takes, and is due.
pub fn is_due(cut: &Cut, conductor: &Conductor) -> bool
    ensures { result ≡ (takes_move cut.now (wanted conductor.now)
        && move_due cut.now conductor.now (wanted conductor.now)) }
{
    let wanted = conductor.wants();
    if takes_move(cut, wanted) {
        move_due(cut, conductor, wanted)
    } else {
        false
    }
}

// ---- events

/// The conductor hears its first letter, where there is one, and what it sends goes to inboxes.
///
/// `Memory`: an allocation was refused; the conductor and the slots are of no further use.
pub fn hear_at_desk<M: Placement>(
    alloc: Global,
    setting: &Setting<'_, M>,
    conductor: &mut Conductor,
    posts: &mut Posts,
) -> Result<(), Memory>
    requires { IsOf setting.now.nodes conductor.old }
    ensures { (cut : CutState) (over : Bool)
        → OnOk result (world_of posts.new cut conductor.new over
        ≡ told_by setting.now (world_of posts.old cut conductor.old over) posts.old.desk) }
{
    if let Some(letter) = posts.take_from_desk() {
        let mut out = conductor.hear(alloc, setting.plan, setting.map, letter)?;
        posts.deliver(setting.nodes(), &mut out)?;
    }
    Ok(())
}

/// The conductor makes the move that it wants, where the agreement takes it, and what it sends goes to inboxes.
///
/// `Memory`: an allocation was refused; the conductor and the slots are of no further use.
pub fn move_conductor<M: Placement>(
    alloc: Global,
    setting: &Setting<'_, M>,
    cut: &mut Cut,
    conductor: &mut Conductor,
    posts: &mut Posts,
) -> Result<(), Memory>
    requires nodes { IsOf setting.now.nodes conductor.old }
    requires renews { AllByRecursion (Renews setting.now.plan cut.old) posts.old.slots }
    ensures { (over : Bool) → OnOk result
        (world_of posts.new cut.new conductor.new over
        ≡ conductor_moved setting.now (world_of posts.old cut.old conductor.old over)
        (wanted conductor.old)) }
{
    let wanted = conductor.wants();
    if takes_move(cut, wanted) {
        make_move(alloc, setting, wanted, cut, conductor, posts)?;
    }
    Ok(())
}

// It makes a move that the agreement takes.
#[tactic(auto, using(crate::proofs::Renewing::renew_opened, crate::proofs::Renewing::renew_agreed, crate::proofs::Renewing::renew_quieted))]
fn make_move<M: Placement>(
    alloc: Global,
    setting: &Setting<'_, M>,
    wanted: CutMove,
    cut: &mut Cut,
    conductor: &mut Conductor,
    posts: &mut Posts,
) -> Result<(), Memory>
    requires nodes { IsOf setting.now.nodes conductor.old }
    requires renews { AllByRecursion (Renews setting.now.plan cut.old) posts.old.slots }
    requires takes { takes_move cut.old wanted ≡ true }
    ensures { (over : Bool) → OnOk result
        (world_of posts.new cut.new conductor.new over
        ≡ conductor_made setting.now (world_of posts.old cut.old conductor.old over) wanted) }
{
    match wanted {
        CutMove::None => (),
        CutMove::Look { slot } => see(alloc, setting, slot, cut, conductor, posts)?,
        CutMove::OpenRound { floor } => {
            cut.open_round(floor);
            in_round(alloc, setting, CutAnswer::Nothing, cut, conductor, posts)?;
        }
        CutMove::Note { slot } => see(alloc, setting, slot, cut, conductor, posts)?,
        CutMove::Agree { taking } => {
            let answer = CutAnswer::Agreed(cut.agree(taking));
            in_round(alloc, setting, answer, cut, conductor, posts)?;
        }
        CutMove::Quiet => {
            cut.quiet();
            in_round(alloc, setting, CutAnswer::Nothing, cut, conductor, posts)?;
        }
    }
    Ok(())
}

// It sees a slot, whose cap is noted where the round gathers.
fn see<M: Placement>(
    alloc: Global,
    setting: &Setting<'_, M>,
    slot: SlotId,
    cut: &mut Cut,
    conductor: &mut Conductor,
    posts: &mut Posts,
) -> Result<(), Memory>
    requires nodes { IsOf setting.now.nodes conductor.old }
    requires slot { HasSlot cut.old slot }
    ensures { (over : Bool) → OnOk result
        (world_of posts.new cut.new conductor.new over
        ≡ saw_in setting.now slot (world_of posts.old cut.old conductor.old over)) }
{
    let sight = cut.note(slot);
    answered(alloc, setting, CutAnswer::Seen(sight), conductor, posts)?;
    Ok(())
}

// The round has moved: what each slot would do is worked out again, and the conductor hears the answer to its move.
fn in_round<M: Placement>(
    alloc: Global,
    setting: &Setting<'_, M>,
    answer: CutAnswer,
    cut: &Cut,
    conductor: &mut Conductor,
    posts: &mut Posts,
) -> Result<(), Memory>
    requires nodes { IsOf setting.now.nodes conductor.old }
    requires renews { AllByRecursion (Renews setting.now.plan cut.now) posts.old.slots }
    ensures { (before : CutState) (over : Bool)
        → OnOk result (world_of posts.new cut.now conductor.new over
        ≡ did_in setting.now (conductor_did setting.now.plan setting.now.place answer conductor.old)
        (in_cut setting.now.plan cut.now (world_of posts.old before conductor.old over))) }
{
    posts.renew(setting, cut)?;
    answered(alloc, setting, answer, conductor, posts)?;
    Ok(())
}

// It hears what its move was answered, and its letters go to inboxes.
fn answered<M: Placement>(
    alloc: Global,
    setting: &Setting<'_, M>,
    answer: CutAnswer,
    conductor: &mut Conductor,
    posts: &mut Posts,
) -> Result<(), Memory>
    requires nodes { IsOf setting.now.nodes conductor.old }
    ensures { (cut : CutState) (over : Bool)
        → OnOk result (world_of posts.new cut conductor.new over
        ≡ did_in setting.now (conductor_did setting.now.plan setting.now.place answer conductor.old)
        (world_of posts.old cut conductor.old over)) }
{
    let mut out = conductor.did(alloc, setting.plan, setting.map, answer)?;
    posts.deliver(setting.nodes(), &mut out)?;
    Ok(())
}
