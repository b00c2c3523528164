//! What a name of the tree stands for in a plan. A name of nothing has the greatest number.

ghost use Rattle.std.specs.Prelude.{◌≡◌};
ghost use Rattle.job_rules.specs.PlannedNames.{entry_meant, member, port_meant, range_meant, range_or_none, reduction_meant, state_meant, state_range};

use crate::numbers::{narrow16, narrow32};
use crate::tables::{array_number, meant_in};
use chare_base::message::{EntryId, Port, ReductionId};
use chare_base::range::Range;
use job_rules::names::{Meaning, Names, bytes_at};
use job_rules::tables::JobNames;
use job_tree::token::Span;

/// The cells of the state of this name, if it is a state's.
#[tactic(auto, unfolding(job_rules::specs::PlannedNames::state_range))]
pub(crate) fn state_range(text: &[u8], table: &Names, name: Span) -> Option<Range>
    ensures { result ≡ state_range text.now table.now name }
{
    range_meant(table.get(bytes_at(text, name)))
}

/// The cells of a state, if the meaning is one.
pub(crate) fn range_meant(meaning: Option<Meaning>) -> Option<Range>
    ensures { result ≡ range_meant meaning }
{
    match meaning {
        Some(Meaning::State { at, cells, .. }) => Some(Range {
            at: narrow32(at),
            count: narrow32(cells),
        }),
        _ => None,
    }
}

/// These cells, none where there is no state.
pub(crate) fn range_or_none(range: Option<Range>) -> Range
    ensures { result ≡ range_or_none range }
{
    match range {
        Some(range) => range,
        None => Range {
            at: 4_294_967_295,
            count: 0,
        },
    }
}

/// The number of a state, if the meaning is one.
pub(crate) fn state_meant(meaning: Option<Meaning>) -> Option<usize>
    ensures { result ≡ state_meant meaning }
{
    match meaning {
        Some(Meaning::State { number, .. }) => Some(number),
        _ => None,
    }
}

/// The entry that a name means.
pub(crate) fn entry_meant(meaning: Option<Meaning>) -> EntryId
    ensures { result ≡ entry_meant meaning }
{
    match meaning {
        Some(Meaning::Entry { number, .. }) => EntryId(narrow16(number as u64)),
        _ => EntryId(65_535),
    }
}

/// The reduction that a name means.
pub(crate) fn reduction_meant(meaning: Option<Meaning>) -> ReductionId
    ensures { result ≡ reduction_meant meaning }
{
    match meaning {
        Some(Meaning::Reduction { number, .. }) => ReductionId(narrow16(number as u64)),
        _ => ReductionId(65_535),
    }
}

/// The port that a name means.
pub(crate) fn port_meant(meaning: Option<Meaning>) -> Port
    ensures { result ≡ port_meant meaning }
{
    match meaning {
        Some(Meaning::Entry { number, .. }) => Port::Entry(EntryId(narrow16(number as u64))),
        Some(Meaning::Reduction { number, .. }) => {
            Port::Total(ReductionId(narrow16(number as u64)))
        }
        _ => Port::Entry(EntryId(65_535)),
    }
}

/// What a name means behind the name of an array and a dot.
#[tactic(auto, unfolding(job_rules::specs::PlannedNames::member))]
pub(crate) fn member(text: &[u8], names: &JobNames, array: Span, name: Span) -> Option<Meaning>
    ensures { result ≡ member text.now names.now array name }
{
    let number = array_number(text, &names.arrays, array);
    meant_in(names, number, bytes_at(text, name))
}
