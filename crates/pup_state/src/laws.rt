//! Laws of the format.

ghost use Rattle.pup_state.specs.Laws.{AlwaysOne, FieldLength, LawfulFits, NeverBoth, NeverMemory, NoPrefix, NoRecordsMemory, OneCause, OneSpelling, OneState, PacksAreSmall, PiecesAreSmall, PiecesReadBack, RecordLength, RecordTellsPlace};

/// A number takes as many bytes as its field has.
pub fn field_length()
    ensures { FieldLength }
{}

/// An element's record has 28 bytes, and 8 for each cell.
pub fn record_length()
    ensures { RecordLength }
{}

/// The record of an element tells where it stands, whatever follows the record.
pub fn record_tells_place()
    ensures { RecordTellsPlace }
{}

/// Two states of one plan whose checkpoints are equal are equal, and so are their iterations.
pub fn one_spelling()
    ensures { OneSpelling }
{}

/// Bytes are the checkpoint of one state at most.
pub fn one_state()
    ensures { OneState }
{}

/// A state that a job can have is one that a program can hold, as `one_spelling` asks.
pub fn lawful_fits()
    ensures { LawfulFits }
{}

/// A checkpoint that is cut short is no checkpoint.
pub fn no_prefix()
    ensures { NoPrefix }
{}

/// Bytes are a checkpoint, or one cause of a fault stands in them, and never both. Want of memory is no cause, so
/// where memory ran out nothing is wrong with the bytes.
pub fn one_outcome()
    ensures always { AlwaysOne }
    ensures never { NeverBoth }
    ensures once { OneCause }
    ensures memory { NeverMemory }
    ensures record_memory { NoRecordsMemory }
{}

/// Reading a piece element by element, each record from the place behind the one before, gives back each
/// element's state.
pub fn pieces_read_back()
    ensures { PiecesReadBack }
{}

/// A piece, and a checkpoint, of a state that a job can have has fewer than 2^28 bytes.
pub fn pieces_are_small()
    ensures piece { PiecesAreSmall }
    ensures checkpoint { PacksAreSmall }
{}
