//! A plan's entries: which elements exchange messages.

ghost use Rattle.std.specs.Prelude.{◌≡◌, ◌<◌, ◌≤◌, ◌+◌, ◌*◌, ◌^◌, length, Some, IfSome, pos, ◌+ℤ◌, ◌-ℤ◌};
ghost use Rattle.chare_base.specs.Elements.{elements, place_of};
ghost use Rattle.chare_base.specs.Entries.{entry_of, reduction_of, first_of, rows_of, cols_of, coordinate, neighbour, inside, source_index, target_index, filled, edge_payload, element_at, source_in, target_in, source_of, target_of, SentWithin};

use crate::message::{EntryId, Payload, ReductionId, Source};
use crate::plan::{Array, Edge, ElementId, Entry, Plan, Reduction};

impl Plan {
    /// An entry by its number.
    pub fn entry(&self, entry: EntryId) -> &Entry
        requires { entry.0 < length self.now.entries }
        ensures { entry_of self.now entry.0 ≡ Some result.now }
    {
        &self.entries.as_slice()[entry.0 as usize]
    }

    /// A reduction by its number.
    pub fn reduction(&self, reduction: ReductionId) -> &Reduction
        requires { reduction.0 < length self.now.reductions }
        ensures { reduction_of self.now reduction.0 ≡ Some result.now }
    {
        &self.reductions.as_slice()[reduction.0 as usize]
    }

    /// Where the message comes from that an element gets at an entry of its array in each iteration.
    pub fn source_of(&self, entry: EntryId, e: ElementId) -> Source
        requires entry { entry.0 < length self.now.entries }
        requires element { e.0 < elements self.now }
        ensures exact { result ≡ source_of self.now entry.0 e.0 }
        ensures element { SentWithin (elements self.now) result }
    {
        self.source_at(entry, e, self.place(e).index)
    }

    /// The same for the element that stands at an index of its array.
    #[tactic(auto, unfolding(crate::specs::Entries::source_of), using(crate::proofs::Exchanges::sender_rows, crate::proofs::Exchanges::sender_cols, crate::proofs::Exchanges::sender_fits, crate::proofs::Exchanges::values_few))]
    pub fn source_at(&self, entry: EntryId, e: ElementId, index: u32) -> Source
        requires entry { entry.0 < length self.now.entries }
        requires element { e.0 < elements self.now }
        requires index { index ≡ (place_of self.now e.0).index }
        ensures exact { result ≡ source_of self.now entry.0 e.0 }
        ensures element { SentWithin (elements self.now) result }
    {
        let entry = self.entry(entry);
        source_in(self.arrays.as_slice(), index, entry)
    }

    /// The element that gets what an element sends at an entry: the one whose source it is. None where no element
    /// has it as its source.
    pub fn target_of(&self, entry: EntryId, e: ElementId) -> Option<ElementId>
        requires entry { entry.0 < length self.now.entries }
        requires element { e.0 < elements self.now }
        ensures exact { result ≡ target_of self.now entry.0 e.0 }
        ensures element { IfSome result (λ t. t.0 < elements self.now) }
    {
        self.target_at(entry, e, self.place(e).index)
    }

    /// The same for the element that stands at an index of its array.
    #[tactic(auto, unfolding(crate::specs::Entries::target_of), using(crate::proofs::Exchanges::receiver_rows, crate::proofs::Exchanges::receiver_cols, crate::proofs::Exchanges::receiver_fits))]
    pub fn target_at(&self, entry: EntryId, e: ElementId, index: u32) -> Option<ElementId>
        requires entry { entry.0 < length self.now.entries }
        requires element { e.0 < elements self.now }
        requires index { index ≡ (place_of self.now e.0).index }
        ensures exact { result ≡ target_of self.now entry.0 e.0 }
        ensures element { IfSome result (λ t. t.0 < elements self.now) }
    {
        let entry = self.entry(entry);
        target_in(self.arrays.as_slice(), index, entry)
    }
}

// Where the message comes from for the element at an index.
fn source_in(arrays: &[Array], index: u32, entry: &Entry) -> Source
    requires rows { 0 < rows_of arrays.now entry.now.source }
    requires cols { 0 < cols_of arrays.now entry.now.source }
    requires fits { first_of arrays.now entry.now.source + rows_of arrays.now entry.now.source
        * cols_of arrays.now entry.now.source ≤ 4096 }
    requires values { entry.now.values ≤ 8 }
    ensures { result ≡ source_in arrays.now index entry.now }
{
    match source_index(arrays, entry, index) {
        Some(index) => Source::Element(element_at(first_of(arrays, entry.source), index)),
        None => Source::Edge(edge_payload(entry.edge, entry.values)),
    }
}

// The element that gets what the one at an index sends.
fn target_in(arrays: &[Array], index: u32, entry: &Entry) -> Option<ElementId>
    requires rows { 0 < rows_of arrays.now entry.now.owner }
    requires cols { 0 < cols_of arrays.now entry.now.owner }
    requires fits { first_of arrays.now entry.now.owner + rows_of arrays.now entry.now.owner
        * cols_of arrays.now entry.now.owner ≤ 4096 }
    ensures { result ≡ target_in arrays.now index entry.now }
{
    match target_index(arrays, entry, index) {
        Some(index) => Some(element_at(first_of(arrays, entry.owner), index)),
        None => None,
    }
}

// The index of the element that sends to the one at an index.
fn source_index(arrays: &[Array], entry: &Entry, index: u32) -> Option<u32>
    requires rows { 0 < rows_of arrays.now entry.now.source }
    requires cols { 0 < cols_of arrays.now entry.now.source }
    requires size { rows_of arrays.now entry.now.source * cols_of arrays.now entry.now.source
        ≤ 4096 }
    ensures exact { result ≡ source_index arrays.now entry.now index }
    ensures within { IfSome result
        (λ i. i < rows_of arrays.now entry.now.source * cols_of arrays.now entry.now.source) }
{
    let (rows, cols) = (rows_of(arrays, entry.source), cols_of(arrays, entry.source));
    let row = after(index / cols, entry.down);
    let col = after(index % cols, entry.across);
    neighbour(entry.edge, rows, cols, row, col)
}

// The index of the element that receives from the one at an index.
fn target_index(arrays: &[Array], entry: &Entry, index: u32) -> Option<u32>
    requires rows { 0 < rows_of arrays.now entry.now.owner }
    requires cols { 0 < cols_of arrays.now entry.now.owner }
    requires size { rows_of arrays.now entry.now.owner * cols_of arrays.now entry.now.owner ≤ 4096 }
    ensures exact { result ≡ target_index arrays.now entry.now index }
    ensures within { IfSome result
        (λ i. i < rows_of arrays.now entry.now.owner * cols_of arrays.now entry.now.owner) }
{
    let (rows, cols) = (rows_of(arrays, entry.owner), cols_of(arrays, entry.owner));
    let row = before(index / cols, entry.down);
    let col = before(index % cols, entry.across);
    neighbour(entry.edge, rows, cols, row, col)
}

// A coordinate so far after another.
fn after(coordinate: u32, offset: i8) -> i64
    ensures { result ≡ pos coordinate +ℤ offset }
{
    i64::from(coordinate) + i64::from(offset)
}

// A coordinate so far before another.
fn before(coordinate: u32, offset: i8) -> i64
    ensures { result ≡ pos coordinate -ℤ offset }
{
    i64::from(coordinate) - i64::from(offset)
}

// The number of an array's first element, 0 where there is no such array.
fn first_of(arrays: &[Array], number: u16) -> u32
    ensures { result ≡ first_of arrays.now number }
{
    match arrays.get(number as usize) {
        Some(array) => array.first,
        None => 0,
    }
}

// How many rows an array has, none where there is no such array.
fn rows_of(arrays: &[Array], number: u16) -> u32
    ensures { result ≡ rows_of arrays.now number }
{
    match arrays.get(number as usize) {
        Some(array) => array.rows,
        None => 0,
    }
}

// How many columns an array has, none where there is no such array.
fn cols_of(arrays: &[Array], number: u16) -> u32
    ensures { result ≡ cols_of arrays.now number }
{
    match arrays.get(number as usize) {
        Some(array) => array.cols,
        None => 0,
    }
}

// The element at an index behind an array's first.
fn element_at(first: u32, index: u32) -> ElementId
    requires { first + index < 2 ^ 32 }
    ensures { result ≡ element_at first index }
{
    ElementId(first + index)
}

// The index of the element at a row and a column of an array, if there is one.
#[tactic(auto, using(crate::proofs::Grid::index_within))]
fn neighbour(edge: Edge, rows: u32, cols: u32, row: i64, col: i64) -> Option<u32>
    requires rows { 0 < rows }
    requires cols { 0 < cols }
    requires size { rows * cols ≤ 4096 }
    ensures exact { result ≡ neighbour edge rows cols row col }
    ensures within { IfSome result (λ index. index < rows * cols) }
{
    let row = coordinate(edge, rows, row)?;
    let col = coordinate(edge, cols, col)?;
    Some(index_in(rows, cols, row, col))
}

// The index of a row and a column.
#[tactic(auto, using(crate::proofs::Grid::index_within))]
fn index_in(rows: u32, cols: u32, row: u32, col: u32) -> u32
    requires row { row < rows }
    requires col { col < cols }
    requires size { rows * cols ≤ 4096 }
    ensures exact { result ≡ row * cols + col }
    ensures within { result < rows * cols }
{
    row * cols + col
}

// A coordinate of a neighbour, where there is one.
fn coordinate(edge: Edge, size: u32, place: i64) -> Option<u32>
    requires { 0 < size }
    ensures exact { result ≡ coordinate edge size place }
    ensures within { IfSome result (λ c. c < size) }
{
    match edge {
        Edge::Wrap => Some(place.rem_euclid(i64::from(size)) as u32),
        Edge::Else(_) => inside(size, place),
    }
}

// A coordinate, where it lies within a size.
fn inside(size: u32, place: i64) -> Option<u32>
    ensures exact { result ≡ inside size place }
    ensures within { IfSome result (λ c. c < size) }
{
    if 0 <= place && place < i64::from(size) {
        Some(place as u32)
    } else {
        None
    }
}

// What an edge gives in place of a message, which has `values` values.
fn edge_payload(edge: Edge, values: u8) -> Payload
    requires { values ≤ 8 }
    ensures { result ≡ edge_payload edge values }
{
    match edge {
        Edge::Wrap => Payload::NONE,
        Edge::Else(value) => Payload {
            count: values,
            values: filled(values, value),
        },
    }
}

// So many values from the first on, and 0 behind them.
fn filled(count: u8, value: i64) -> [i64; 8]
    requires { count ≤ 8 }
    ensures { result ≡ filled count value }
{
    let mut values = [0; 8];
    for i in 0..count {
        values[i as usize] = value;
    }
    values
}
