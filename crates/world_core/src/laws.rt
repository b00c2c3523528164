//! Laws of the world: each is called where it is wanted, and its clauses are facts from there on.

ghost use Rattle.world_core.specs.Costs.{DrillsEnd, EachEventLowers, EveryEventLowers, EveryScheduleEnds, NoRunIsLonger, TurnsSuffice};
ghost use Rattle.world_core.specs.Drills.{DrillsWait};
ghost use Rattle.world_core.specs.Sound.{EveryEventKeeps, EveryWorldIsSound, EveryWorldWaits, SoundServes, StartIsSound};
ghost use Rattle.world_core.specs.Still.{EveryEventKeepsAfloat, EveryWorldStaysAfloat, NeverStandsStill, NoStandstill, StartIsAfloat};

use buddy_compare::laws::equal_exactly;
use chare_base::laws::waits;
use conductor_core::laws::{conductors_tell, moves_fit_the_round};
use iteration_agree::laws::{agreed_is_not_begun, agreement_is_exact, cuts_hold, moves_are_local};
use letter_post::laws::chains_grow;
use node_core::laws::{nodes_cost, nodes_keep, nodes_move};
use object_steps::laws::ready_tells;

/// Whatever events happen, in whatever order, enabled or not: each node keeps the definition under its last order, each
/// letter in an inbox is true, the orders of an inbox follow one another, the agreement's invariant holds, no element has
/// begun its slot's top, and the conductor tells the definition. What a slot is kept to do is what it would do.
pub fn worlds_are_sound()
    ensures start { StartIsSound }
    ensures event { EveryEventKeeps }
    ensures all { EveryWorldIsSound }
{
    nodes_keep();
    conductors_tell();
    cuts_hold();
    moves_are_local();
    chains_grow();
}

/// What the calls of a world ask holds of each that is sound.
pub fn sound_worlds_serve()
    ensures { SoundServes }
{
    nodes_keep();
}

/// In every world that events reach, while the agreement stands at an iteration no element of a slot that takes part has
/// begun that iteration or a later one, unless the slot has just been ordered back to the base and is still to go there. So no
/// element begins the agreed iteration before its slot has packed. Each world of a drill is one of these.
pub fn agreed_waits()
    ensures worlds { EveryWorldWaits }
    ensures drills { DrillsWait }
{
    worlds_are_sound();
    agreed_is_not_begun();
}

/// Where no fault is to come nothing is lost at the start.
pub fn worlds_start_afloat()
    ensures { StartIsAfloat }
{}

/// Without faults a world in which nothing is lost stands still only once its run has ended. While a round is quiet all
/// elements have come to the job's end, and the conductor opens a round. While it gathers caps every slot has reported one.
/// Once an iteration is agreed all elements have come to it, each slot has packed there, and the conductor has every
/// verdict: of elements that can't run, one is the farthest back, and what it waits for was sent and came.
pub fn no_standstill()
    ensures { NoStandstill }
{
    waits();
    ready_tells();
    nodes_move();
    moves_fit_the_round();
}

/// Where no fault is to come no event loses anything, enabled or not, as long as the run goes on. So whatever events
/// happened, a world in which none is enabled has ended its run: no schedule comes to a standstill.
pub fn worlds_stay_afloat()
    ensures event { EveryEventKeepsAfloat }
    ensures all { EveryWorldStaysAfloat }
    ensures still { NeverStandsStill }
{
    worlds_are_sound();
    worlds_start_afloat();
    no_standstill();
    nodes_move();
    moves_fit_the_round();
    agreement_is_exact();
    equal_exactly();
}

/// Where no fault is to come every event that an actor has leaves less that the run can still do. So it ends within as many
/// events as what is left at its start, however they are chosen.
pub fn schedules_end()
    ensures lower { EveryEventLowers }
    ensures ends { EveryScheduleEnds }
{
    worlds_are_sound();
    worlds_start_afloat();
    worlds_stay_afloat();
    no_standstill();
    nodes_cost();
    nodes_move();
    moves_fit_the_round();
    agreement_is_exact();
    equal_exactly();
}

/// So does each event that can happen, where there are more of them than the actors would make. And so no run has more events
/// than the bound on turns, whichever events that can happen are taken.
pub fn runs_are_bounded()
    ensures lower { EachEventLowers }
    ensures longest { NoRunIsLonger }
{
    worlds_are_sound();
    worlds_start_afloat();
    worlds_stay_afloat();
    nodes_cost();
    nodes_move();
    moves_fit_the_round();
    agreement_is_exact();
    equal_exactly();
}

/// Where no fault is to come the turns of a schedule are as many as what is left at the start. So a drill of a script
/// without lines ends its run, whatever its schedule.
pub fn drills_end()
    ensures turns { TurnsSuffice }
    ensures drills { DrillsEnd }
{
    nodes_cost();
    schedules_end();
}
