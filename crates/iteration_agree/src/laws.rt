//! Laws of the agreement: each is called where it is wanted, and its clauses are facts from there on.

ghost use Rattle.iteration_agree.specs.Laws.{AgreedIsGreatest, AgreedStands, AgreedStandsOn, AgreesOnGreatest, AgreesUnlessMissing, BeginsRaise, EachSlotMoves, EveryCutHolds, HoldsExactly, MovesKeep, NoneIsBegun, NotesLeaveTheRound, OthersStand, PackedWaits, RoundsAreCounted, SlotsLeaveTheRound, StartIsCut, TopsRise, TopsStayBelow};
ghost use Rattle.iteration_agree.specs.Looks.{ChangesRaise, LooksLower};

/// Whatever allowed moves are made, in whatever order: `IsCut` holds at the start, each move keeps it, and every agreement
/// that is reached has it.
pub fn cuts_hold()
    ensures start { StartIsCut }
    ensures moves { MovesKeep }
    ensures all { EveryCutHolds }
{}

/// Nothing is agreed exactly where a slot that takes part isn't noted in this round. What is agreed is the greatest of
/// the floor and all noted caps, and stays so as long as it stands.
pub fn agreement_is_exact()
    ensures missing { AgreesUnlessMissing }
    ensures greatest { AgreesOnGreatest }
    ensures stands { AgreedIsGreatest }
{}

/// While an iteration stands agreed, no element of a slot that takes part has begun it or a later one, and none begins
/// one. It stands until the round is made quiet.
pub fn agreed_is_not_begun()
    ensures tops { TopsStayBelow }
    ensures begins { NoneIsBegun }
    ensures stands { AgreedStands }
    ensures all { AgreedStandsOn }
{}

/// A slot that has packed begins nothing from the iteration at which it did until it is released, whatever rounds come
/// meanwhile; a base that it goes back to is at most that iteration.
pub fn packed_slots_wait()
    ensures { PackedWaits }
{}

/// A slot is held exactly where it has a limit and the iteration is at least that. Where it begins one its top rises
/// above it; tops fall by rewinds alone.
pub fn begins_are_limited()
    ensures holds { HoldsExactly }
    ensures raise { BeginsRaise }
    ensures tops { TopsRise }
{}

/// What a move changes: a slot's move its own slot's standing, a note none, and the conductor's other moves the round.
pub fn moves_are_local()
    ensures slot { EachSlotMoves }
    ensures others { OthersStand }
    ensures round { SlotsLeaveTheRound }
    ensures notes { NotesLeaveTheRound }
    ensures number { RoundsAreCounted }
{}

/// A look lowers what is left of looks, and a change of one sight raises it by no more than twice the slots and one.
pub fn looks_are_few()
    ensures look { LooksLower }
    ensures change { ChangesRaise }
{}
