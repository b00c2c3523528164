//! Readers of declarations. `levels` is how many levels of nesting may still be opened.

ghost use Rattle.std.specs.Prelude.{◌≡◌, ◌<◌, ◌≤◌, length, IfOk};
ghost use Rattle.job_tree.specs.Fault.{Gives};
ghost use Rattle.job_tree.specs.Reading.{state_at, states_at, edge_at, entry_at, reduce_at, member_at, members_at, array_at, arrays_at, over_at, cell_answer_at, answer_at, answers_at, job_at};

use crate::expressions::expr_of;
use crate::fault::ParseFault;
use crate::leaves::{begins, begins_member, how_of, mark_of, name_of, num_of, open_of};
use crate::numbers::{cells_of, coordinates_of, counted_of, offset_of, signed_of};
use crate::steps::steps_of;
use crate::token::{Mark, Token};
use crate::tree::{
    AnswerDecl, ArrayDecl, EdgeDecl, EntryDecl, Job, MemberDecl, ReduceDecl, StateDecl,
};
use sqlite_items::Items;
use std::alloc::Global;

// Reads a state.
#[tactic(auto, unfolding(job_tree::specs::Reading::state_at))]
fn state_of(
    alloc: Global,
    tokens: &[Token],
    levels: u32,
) -> Result<(StateDecl, &[Token]), ParseFault>
    ensures exact { Gives (λ x. (x.0, x.1.now)) result (state_at levels tokens.now) }
    ensures shorter { IfOk result (λ x. length x.1.now < length tokens.now) }
{
    let (at, rest) = mark_of(tokens, Mark::State)?;
    let (name, rest) = name_of(rest)?;
    let (_, rest) = mark_of(rest, Mark::Colon)?;
    let (_, rest) = mark_of(rest, Mark::Int)?;
    let (cells, rest) = cells_of(rest, levels)?;
    let (_, rest) = mark_of(rest, Mark::Assign)?;
    let (start, rest) = expr_of(alloc, rest, levels)?;
    let state = StateDecl {
        at,
        name,
        cells,
        start,
    };
    Ok((state, rest))
}

// Reads states, of which there is one at least.
#[tactic(auto, unfolding(job_tree::specs::Reading::states_at))]
fn states_of(
    alloc: Global,
    tokens: &[Token],
    levels: u32,
) -> Result<(Items<StateDecl>, &[Token]), ParseFault>
    ensures exact { Gives (λ x. (x.0, x.1.now)) result (states_at levels tokens.now) }
    ensures shorter { IfOk result (λ x. length x.1.now < length tokens.now) }
{
    let (first, mut rest) = state_of(alloc, tokens, levels)?;
    let mut states = Items::new(alloc);
    states.push(first)?;
    'states: while begins(rest, Mark::State) {
        let (state, after) = state_of(alloc, rest, levels)?;
        states.push(state)?;
        rest = after;
    }
    Ok((states, rest))
}

// Reads what an element beyond the edge gives.
#[tactic(auto, unfolding(job_tree::specs::Reading::edge_at))]
fn edge_of(tokens: &[Token]) -> Result<(EdgeDecl, &[Token]), ParseFault>
    ensures exact { Gives (λ x. (x.0, x.1.now)) result (edge_at tokens.now) }
    ensures shorter { IfOk result (λ x. length x.1.now < length tokens.now) }
{
    if begins(tokens, Mark::Wrap) {
        let (at, rest) = mark_of(tokens, Mark::Wrap)?;
        Ok((EdgeDecl::Wrap { at }, rest))
    } else {
        let (at, rest) = mark_of(tokens, Mark::Else)?;
        let (value, rest) = signed_of(rest)?;
        Ok((EdgeDecl::Else { at, value }, rest))
    }
}

// Reads an entry.
#[tactic(auto, unfolding(job_tree::specs::Reading::entry_at))]
fn entry_of(tokens: &[Token], levels: u32) -> Result<(EntryDecl, &[Token]), ParseFault>
    ensures exact { Gives (λ x. (x.0, x.1.now)) result (entry_at levels tokens.now) }
    ensures shorter { IfOk result (λ x. length x.1.now < length tokens.now) }
{
    let (at, rest) = mark_of(tokens, Mark::Entry)?;
    let (name, rest) = name_of(rest)?;
    let (values, rest) = counted_of(rest, levels)?;
    let (_, rest) = mark_of(rest, Mark::From)?;
    let (source, rest) = name_of(rest)?;
    let (offset, rest) = offset_of(rest, levels)?;
    let (edge, rest) = edge_of(rest)?;
    let entry = EntryDecl {
        at,
        name,
        values,
        source,
        offset,
        edge,
    };
    Ok((entry, rest))
}

// Reads a reduction.
#[tactic(auto, unfolding(job_tree::specs::Reading::reduce_at))]
fn reduce_of(tokens: &[Token]) -> Result<(ReduceDecl, &[Token]), ParseFault>
    ensures exact { Gives (λ x. (x.0, x.1.now)) result (reduce_at tokens.now) }
    ensures shorter { IfOk result (λ x. length x.1.now < length tokens.now) }
{
    let (at, rest) = mark_of(tokens, Mark::Reduce)?;
    let (name, rest) = name_of(rest)?;
    let (how, rest) = how_of(rest)?;
    Ok((ReduceDecl { at, name, how }, rest))
}

// Reads an entry or a reduction.
#[tactic(auto, unfolding(job_tree::specs::Reading::member_at))]
fn member_of(tokens: &[Token], levels: u32) -> Result<(MemberDecl, &[Token]), ParseFault>
    ensures exact { Gives (λ x. (x.0, x.1.now)) result (member_at levels tokens.now) }
    ensures shorter { IfOk result (λ x. length x.1.now < length tokens.now) }
{
    if begins(tokens, Mark::Entry) {
        let (entry, rest) = entry_of(tokens, levels)?;
        Ok((MemberDecl::Entry(entry), rest))
    } else {
        let (reduce, rest) = reduce_of(tokens)?;
        Ok((MemberDecl::Reduce(reduce), rest))
    }
}

// Reads entries and reductions.
#[tactic(auto, unfolding(job_tree::specs::Reading::members_at))]
fn members_of(
    alloc: Global,
    tokens: &[Token],
    levels: u32,
) -> Result<(Items<MemberDecl>, &[Token]), ParseFault>
    ensures exact { Gives (λ x. (x.0, x.1.now)) result (members_at levels tokens.now) }
    ensures shorter { IfOk result (λ x. length x.1.now ≤ length tokens.now) }
{
    let mut rest = tokens;
    let mut members = Items::new(alloc);
    'members: while begins_member(rest) {
        let (member, after) = member_of(rest, levels)?;
        members.push(member)?;
        rest = after;
    }
    Ok((members, rest))
}

// Reads an array.
#[tactic(auto, unfolding(job_tree::specs::Reading::array_at))]
fn array_of(
    alloc: Global,
    tokens: &[Token],
    levels: u32,
) -> Result<(ArrayDecl, &[Token]), ParseFault>
    ensures exact { Gives (λ x. (x.0, x.1.now)) result (array_at levels tokens.now) }
    ensures shorter { IfOk result (λ x. length x.1.now < length tokens.now) }
{
    let (at, rest) = mark_of(tokens, Mark::Array)?;
    let (name, rest) = name_of(rest)?;
    let (sizes, rest) = coordinates_of(rest, levels)?;
    let (opened, rest) = open_of(rest, levels, Mark::OpenBrace)?;
    let (states, rest) = states_of(alloc, rest, opened.left)?;
    let (members, rest) = members_of(alloc, rest, opened.left)?;
    let (steps, rest) = steps_of(alloc, rest, opened.left)?;
    let (_, rest) = mark_of(rest, Mark::CloseBrace)?;
    let array = ArrayDecl {
        at,
        name,
        sizes,
        states,
        members,
        steps,
    };
    Ok((array, rest))
}

// Reads arrays, of which there is one at least.
#[tactic(auto, unfolding(job_tree::specs::Reading::arrays_at))]
fn arrays_of(
    alloc: Global,
    tokens: &[Token],
    levels: u32,
) -> Result<(Items<ArrayDecl>, &[Token]), ParseFault>
    ensures exact { Gives (λ x. (x.0, x.1.now)) result (arrays_at levels tokens.now) }
    ensures shorter { IfOk result (λ x. length x.1.now < length tokens.now) }
{
    let (first, mut rest) = array_of(alloc, tokens, levels)?;
    let mut arrays = Items::new(alloc);
    arrays.push(first)?;
    'arrays: while begins(rest, Mark::Array) {
        let (array, after) = array_of(alloc, rest, levels)?;
        arrays.push(array)?;
        rest = after;
    }
    Ok((arrays, rest))
}

// Reads an answer over all cells of a state, behind the word at this place.
#[tactic(auto, unfolding(job_tree::specs::Reading::over_at))]
fn over_of(tokens: &[Token], at: u32) -> Result<(AnswerDecl, &[Token]), ParseFault>
    ensures exact { Gives (λ x. (x.0, x.1.now)) result (over_at at tokens.now) }
    ensures shorter { IfOk result (λ x. length x.1.now < length tokens.now) }
{
    let (how, rest) = how_of(tokens)?;
    let (array, rest) = name_of(rest)?;
    let (_, rest) = mark_of(rest, Mark::Dot)?;
    let (state, rest) = name_of(rest)?;
    let answer = AnswerDecl::Over {
        at,
        how,
        array,
        state,
    };
    Ok((answer, rest))
}

// Reads an answer of one cell, behind the word at this place.
#[tactic(auto, unfolding(job_tree::specs::Reading::cell_answer_at))]
fn cell_answer_of(
    tokens: &[Token],
    at: u32,
    levels: u32,
) -> Result<(AnswerDecl, &[Token]), ParseFault>
    ensures exact { Gives (λ x. (x.0, x.1.now)) result (cell_answer_at levels at tokens.now) }
    ensures shorter { IfOk result (λ x. length x.1.now < length tokens.now) }
{
    let (_, rest) = mark_of(tokens, Mark::At)?;
    let (array, rest) = name_of(rest)?;
    let (element, rest) = coordinates_of(rest, levels)?;
    let (_, rest) = mark_of(rest, Mark::Dot)?;
    let (state, rest) = name_of(rest)?;
    let (cell, rest) = cells_of(rest, levels)?;
    let answer = AnswerDecl::At {
        at,
        array,
        element,
        state,
        cell,
    };
    Ok((answer, rest))
}

// Reads an answer.
#[tactic(auto, unfolding(job_tree::specs::Reading::answer_at))]
fn answer_of(tokens: &[Token], levels: u32) -> Result<(AnswerDecl, &[Token]), ParseFault>
    ensures exact { Gives (λ x. (x.0, x.1.now)) result (answer_at levels tokens.now) }
    ensures shorter { IfOk result (λ x. length x.1.now < length tokens.now) }
{
    let (at, rest) = mark_of(tokens, Mark::Answer)?;
    if begins(rest, Mark::At) {
        let (answer, rest) = cell_answer_of(rest, at, levels)?;
        Ok((answer, rest))
    } else {
        let (answer, rest) = over_of(rest, at)?;
        Ok((answer, rest))
    }
}

// Reads answers, of which there is one at least.
#[tactic(auto, unfolding(job_tree::specs::Reading::answers_at))]
fn answers_of(
    alloc: Global,
    tokens: &[Token],
    levels: u32,
) -> Result<(Items<AnswerDecl>, &[Token]), ParseFault>
    ensures exact { Gives (λ x. (x.0, x.1.now)) result (answers_at levels tokens.now) }
    ensures shorter { IfOk result (λ x. length x.1.now < length tokens.now) }
{
    let (first, mut rest) = answer_of(tokens, levels)?;
    let mut answers = Items::new(alloc);
    answers.push(first)?;
    'answers: while begins(rest, Mark::Answer) {
        let (answer, after) = answer_of(rest, levels)?;
        answers.push(answer)?;
        rest = after;
    }
    Ok((answers, rest))
}

/// Reads a job.
#[tactic(auto, unfolding(job_tree::specs::Reading::job_at))]
pub fn job_of(alloc: Global, tokens: &[Token], levels: u32) -> Result<(Job, &[Token]), ParseFault>
    ensures exact { Gives (λ x. (x.0, x.1.now)) result (job_at levels tokens.now) }
    ensures shorter { IfOk result (λ x. length x.1.now < length tokens.now) }
{
    let (at, rest) = mark_of(tokens, Mark::Job)?;
    let (name, rest) = name_of(rest)?;
    let (_, rest) = mark_of(rest, Mark::Iterate)?;
    let (iterations, rest) = num_of(rest)?;
    let (arrays, rest) = arrays_of(alloc, rest, levels)?;
    let (answers, rest) = answers_of(alloc, rest, levels)?;
    let job = Job {
        at,
        name,
        iterations,
        arrays,
        answers,
    };
    Ok((job, rest))
}
