//! The messages of one iteration, sorted by receiver and by reduction.

ghost use Rattle.std.specs.Prelude.{◌≡◌, ◌<◌, ◌++◌, ◌∷◌, [], length, map, slice_get, unwrap_or, OnOk, IfOk};
ghost use Rattle.std.specs.Option.{option_map_or};
ghost use Rattle.chare_base.specs.Sizes.{size_of};
ghost use Rattle.chare_base.specs.Elements.{elements, place_of};
ghost use Rattle.chare_base.specs.Entries.{source_of};
ghost use Rattle.chare_eval.specs.Stage.{found_at, given, total_payload};
ghost use Rattle.chare_eval.specs.Tables.{add_in, all_delivered, box_of, delivered, emptied, letter_at, no_value, put_in, tables_of, tally_total, values_or_none, with_value};

use crate::effects::Outgoing;
use chare_base::memory::Memory;
use chare_base::message::{EntryId, Need, Payload, Port, ReductionId, Source};
use chare_base::plan::{Array, ElementId, How, Plan, Reduction};
use std::alloc::Global;
use std::marker::Model;

/// A message that came to an element.
#[derive(Clone, Copy)]
pub(crate) struct Letter {
    entry: EntryId,
    payload: Payload,
}

/// What came to an element, in the order in which it came, which contracts see as a list.
#[derive(Drop)]
pub(crate) struct LetterBox {
    letters: Vec<Letter>,
}

impl Model for LetterBox {
    ghost use Rattle.std.specs.Prelude.{List};
    ghost use Rattle.chare_eval.specs.declared.tables.Letter.{Letter};

    ghost Value = { List Letter };

    ghost view = { λ b. b.letters.items };
}

impl LetterBox {
    fn new(alloc: Global) -> LetterBox
        ensures { result ≡ [] }
    {
        LetterBox {
            letters: Vec::new(alloc),
        }
    }

    // Forgets the letters, and keeps the memory.
    fn clear(&mut self)
        ensures { self.new ≡ [] }
    {
        self.letters.clear();
    }

    fn push(&mut self, letter: Letter) -> Result<(), Memory>
        ensures { OnOk result (self.new ≡ self.old ++ letter ∷ []) }
    {
        self.letters.push(letter)?;
        Ok(())
    }

    // The values of the message at an entry. An element's letters are as many as its array's entries at most.
    fn values_at(&self, entry: EntryId) -> [i64; 8]
        ensures { result ≡ values_or_none (letter_at self.now entry.0) }
    {
        values_among(self.letters.as_slice(), entry)
    }
}

fn values_among(letters: &[Letter], entry: EntryId) -> [i64; 8]
    ensures { result ≡ values_or_none (letter_at letters.now entry.0) }
{
    for letter in letters {
        if letter.entry.0 == entry.0 {
            return letter.payload.values;
        }
    }
    [0; 8]
}

/// What was contributed to a reduction.
#[derive(Clone, Copy)]
pub(crate) struct Tally {
    how: How,
    /// How many elements contribute.
    members: u64,
    /// How many have.
    count: u64,
    /// Their total, None before the first.
    total: Option<i64>,
}

impl Tally {
    // Before the first contribution.
    fn new(arrays: &[Array], reduction: &Reduction) -> Tally
        ensures { result ≡ no_value arrays.now reduction.now }
    {
        Tally {
            how: reduction.how,
            members: members_of(arrays, reduction.owner),
            count: 0,
            total: None,
        }
    }

    fn with(self, value: i64) -> Tally
        ensures { result ≡ with_value value self }
    {
        Tally {
            how: self.how,
            members: self.members,
            count: self.count.saturating_add(1),
            total: self.how.both(self.total, Some(value)),
        }
    }
}

// How many elements an array has, none where there is no such array.
fn members_of(arrays: &[Array], owner: u16) -> u64
    ensures { result ≡ option_map_or size_of (slice_get arrays.now owner) 0 }
{
    match arrays.get(owner as usize) {
        Some(array) => size_of(array),
        None => 0,
    }
}

#[tactic(auto, using(crate::proofs::Sizes::product_fits))]
fn size_of(array: &Array) -> u64
    ensures { result ≡ size_of array.now }
{
    u64::from(array.rows) * u64::from(array.cols)
}

/// The total, once all members have contributed.
fn total_of(tally: Option<Tally>) -> Option<Payload>
    ensures { result ≡ tally_total tally }
{
    match tally {
        Some(tally) if tally.count == tally.members => total_payload(tally.total),
        _ => None,
    }
}

fn total_payload(total: Option<i64>) -> Option<Payload>
    ensures { result ≡ total_payload total }
{
    match total {
        Some(total) => Some(Payload {
            count: 1,
            values: [total, 0, 0, 0, 0, 0, 0, 0],
        }),
        None => None,
    }
}

/// The messages of one iteration: a box for each element, and a tally for each reduction.
#[derive(Drop)]
pub(crate) struct Mail {
    boxes: Vec<LetterBox>,
    tallies: Vec<Tally>,
}

impl Mail {
    /// No messages yet.
    pub(crate) fn new(alloc: Global, plan: &Plan) -> Result<Mail, Memory>
        ensures { IfOk result (λ mail. length mail.boxes.items ≡ elements plan.now) }
    {
        Ok(Mail {
            boxes: boxes(alloc, plan.elements())?,
            tallies: Vec::new(alloc),
        })
    }

    /// Forgets the messages before an iteration, and keeps the memory.
    pub(crate) fn begin(&mut self, plan: &Plan) -> Result<(), Memory>
        ensures { OnOk result (tables_of self.new ≡ emptied plan.now (tables_of self.old)) }
    {
        empty(&mut self.boxes);
        begin(
            &mut self.tallies,
            plan.arrays.as_slice(),
            plan.reductions.as_slice(),
        )
    }

    /// Takes in what was sent, in order.
    pub(crate) fn deliver(&mut self, sent: &[Outgoing]) -> Result<(), Memory>
        ensures { OnOk result (tables_of self.new ≡ all_delivered sent.now (tables_of self.old)) }
    {
        for outgoing in sent {
            self.take(*outgoing)?;
        }
        Ok(())
    }

    fn take(&mut self, outgoing: Outgoing) -> Result<(), Memory>
        ensures { OnOk result (tables_of self.new ≡ delivered outgoing (tables_of self.old)) }
    {
        match outgoing {
            Outgoing::Parcel { entry, to, payload } => {
                put(&mut self.boxes, to.0 as usize, Letter { entry, payload })?;
            }
            Outgoing::Contribution { reduction, value } => {
                add(&mut self.tallies, reduction.0 as usize, value);
            }
        }
        Ok(())
    }

    /// The values that a part of the element at an index of its array gets of what it needs.
    pub(crate) fn give(
        &self,
        plan: &Plan,
        e: ElementId,
        index: u32,
        need: Need,
        values: &mut [i64; 8],
    )
        requires element { e.0 < elements plan.now }
        requires index { index ≡ (place_of plan.now e.0).index }
        ensures { values.new ≡ (given need (box_of plan.now (tables_of self.now) e.0)).values }
    {
        *values = match need {
            Need::Nothing => [0; 8],
            Need::Port(Port::Entry(entry)) => match source(plan, entry, e, index) {
                Source::Element(_) => values_to(self.boxes.as_slice(), e, entry),
                Source::Edge(payload) => payload.values,
            },
            Need::Port(Port::Total(reduction)) => total(self.tallies.as_slice(), reduction),
        };
    }
}

// Where the message comes from for the element at an index: nowhere, where there is no such entry.
#[tactic(auto, unfolding(chare_base::specs::Entries::source_of))]
fn source(plan: &Plan, entry: EntryId, e: ElementId, index: u32) -> Source
    requires element { e.0 < elements plan.now }
    requires index { index ≡ (place_of plan.now e.0).index }
    ensures { result ≡ source_of plan.now entry.0 e.0 }
{
    if (entry.0 as usize) < plan.entries.len() {
        plan.source_at(entry, e, index)
    } else {
        Source::Edge(Payload::NONE)
    }
}

// The values of the message that came to an element at an entry.
fn values_to(boxes: &[LetterBox], e: ElementId, entry: EntryId) -> [i64; 8]
    ensures { result ≡ values_or_none (letter_at (unwrap_or (slice_get boxes.now e.0) []) entry.0) }
{
    match boxes.get(e.0 as usize) {
        Some(found) => found.values_at(entry),
        None => [0; 8],
    }
}

// The total of a reduction as values, once it is there.
fn total(tallies: &[Tally], reduction: ReductionId) -> [i64; 8]
    ensures { result ≡ values_or_none (tally_total (slice_get tallies.now reduction.0)) }
{
    match total_of(tallies.get(reduction.0 as usize).copied()) {
        Some(payload) => payload.values,
        None => [0; 8],
    }
}

// Puts a letter into a box, where there is such a box.
fn put(boxes: &mut [LetterBox], to: usize, letter: Letter) -> Result<(), Memory>
    ensures { OnOk result (boxes.new ≡ put_in boxes.old to letter (slice_get boxes.old to)) }
{
    if to < boxes.len() {
        boxes[to].push(letter)?;
    }
    Ok(())
}

// Adds a value to a tally, where there is such a tally.
fn add(tallies: &mut [Tally], reduction: usize, value: i64)
    ensures { tallies.new ≡ add_in tallies.old reduction value (slice_get tallies.old reduction) }
{
    if reduction < tallies.len() {
        tallies[reduction] = tallies[reduction].with(value);
    }
}

// Empties all boxes.
fn empty(boxes: &mut [LetterBox])
    ensures { boxes.new ≡ map (λ box. []) boxes.old }
{
    for i in 0..boxes.len() {
        boxes[i].clear();
    }
}

// Begins all tallies anew.
fn begin(tallies: &mut Vec<Tally>, arrays: &[Array], reductions: &[Reduction]) -> Result<(), Memory>
    ensures { OnOk result (tallies.new.items ≡ map (no_value arrays.now) reductions.now) }
{
    tallies.clear();
    for reduction in reductions {
        tallies.push(Tally::new(arrays, reduction))?;
    }
    Ok(())
}

// So many boxes, all empty.
fn boxes(alloc: Global, count: u32) -> Result<Vec<LetterBox>, Memory>
    ensures { IfOk result (λ boxes. length boxes.items ≡ count) }
{
    let mut boxes = Vec::with_capacity(alloc, count as usize)?;
    for _ in 0..count {
        boxes.push(LetterBox::new(alloc))?;
    }
    Ok(boxes)
}
