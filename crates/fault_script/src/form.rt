//! The forms of fault lines.

ghost use Rattle.std.specs.Prelude.{◌≡◌};
ghost use Rattle.std.specs.Option.{option_map};
ghost use Rattle.fault_script.specs.Forms.{cell, crash_line, element, flip_line, if_there, inside, iteration, line, named};
ghost use Rattle.fault_script.specs.Held.{cell_held, crash_held, element_held, flip_held, line_held, cell_capped, crash_capped, element_capped, flip_capped, line_capped, name_held};
ghost use Rattle.fault_script.specs.Numbers.{capped};
ghost use Rattle.fault_script.specs.Text.{words};

use crate::name::{is_name, same};
use crate::number::{mask, number};
use crate::text::{cut, first_word};

/// An element as a line names it: `A[i]`, or `A[i,j]`.
#[derive(Clone, Copy)]
pub(crate) struct ElementForm<'a> {
    pub array: &'a [u8],
    pub first: u128,
    pub second: Option<u128>,
}

/// A cell as a line names it: `t`, or `v[c]`.
#[derive(Clone, Copy)]
pub(crate) struct CellForm<'a> {
    pub state: &'a [u8],
    pub place: Option<u128>,
}

/// A line `flip R ELEMENT CELL xor M at K`.
#[derive(Clone, Copy)]
pub(crate) struct FlipForm<'a> {
    pub replica: u128,
    pub element: ElementForm<'a>,
    pub cell: CellForm<'a>,
    pub mask: u128,
    pub at: u128,
}

/// A line `crash R J at K`.
#[derive(Clone, Copy)]
pub(crate) struct CrashForm {
    pub replica: u128,
    pub node: u128,
    pub at: u128,
}

/// A line of a good form. Its numbers are held as `number` says.
#[derive(Clone, Copy)]
pub(crate) enum Form<'a> {
    Flip(FlipForm<'a>),
    Crash(CrashForm),
}

/// The form of a line. None exactly where its words are of no form.
#[tactic(auto, unfolding(crate::specs::Forms::line))]
pub(crate) fn form_of(text: &[u8]) -> Option<Form<'_>>
    ensures { option_map line_held result ≡ option_map line_capped (line (words text.now)) }
{
    let (kind, rest) = first_word(text)?;
    if same(kind, b"flip") {
        Some(Form::Flip(flip_form(rest)?))
    } else if same(kind, b"crash") {
        Some(Form::Crash(crash_form(rest)?))
    } else {
        None
    }
}

// What stands behind `flip`.
fn flip_form(text: &[u8]) -> Option<FlipForm<'_>>
    ensures { option_map flip_held result ≡ option_map flip_capped (flip_line (words text.now)) }
{
    let (replica, rest) = first_word(text)?;
    let (element, rest) = first_word(rest)?;
    let (cell, rest) = first_word(rest)?;
    let (xor, rest) = first_word(rest)?;
    let (bits, rest) = first_word(rest)?;
    if !same(xor, b"xor") {
        return None;
    }
    Some(FlipForm {
        replica: number(replica)?,
        element: element_form(element)?,
        cell: cell_form(cell)?,
        mask: mask(bits)?,
        at: iteration(rest)?,
    })
}

// What stands behind `crash`.
fn crash_form(text: &[u8]) -> Option<CrashForm>
    ensures { option_map crash_held result ≡ option_map crash_capped (crash_line (words text.now)) }
{
    let (replica, rest) = first_word(text)?;
    let (node, rest) = first_word(rest)?;
    Some(CrashForm {
        replica: number(replica)?,
        node: number(node)?,
        at: iteration(rest)?,
    })
}

// The end of a line: `at K`, and no more.
fn iteration(text: &[u8]) -> Option<u128>
    ensures { result ≡ option_map capped (iteration (words text.now)) }
{
    let (at, rest) = first_word(text)?;
    let (word, rest) = first_word(rest)?;
    if same(at, b"at") && first_word(rest).is_none() {
        number(word)
    } else {
        None
    }
}

// A name, and what stands in brackets behind it, where there are brackets.
#[tactic(auto, unfolding(crate::specs::Forms::named))]
fn named(word: &[u8]) -> Option<(&[u8], Option<&[u8]>)>
    ensures { option_map name_held result ≡ named word.now }
{
    let (name, rest) = cut(b'[', word);
    if !is_name(name) {
        return None;
    }
    match rest {
        Some(rest) => Some((name, Some(inside(rest)?))),
        None => Some((name, None)),
    }
}

// What stands before a closing bracket, behind which nothing stands.
fn inside(text: &[u8]) -> Option<&[u8]>
    ensures { option_map (λ x. x.now) result ≡ inside text.now }
{
    let (inside, rest) = cut(b']', text);
    if rest?.is_empty() { Some(inside) } else { None }
}

// `A[i]`, or `A[i,j]`.
#[tactic(auto, unfolding(crate::specs::Forms::element))]
fn element_form(word: &[u8]) -> Option<ElementForm<'_>>
    ensures { option_map element_held result ≡ option_map element_capped (element word.now) }
{
    let (array, inside) = named(word)?;
    let (first, second) = cut(b',', inside?);
    Some(ElementForm {
        array,
        first: number(first)?,
        second: if_there(second)?,
    })
}

// `t`, or `v[c]`.
#[tactic(auto, unfolding(crate::specs::Forms::cell))]
fn cell_form(word: &[u8]) -> Option<CellForm<'_>>
    ensures { option_map cell_held result ≡ option_map cell_capped (cell word.now) }
{
    let (state, inside) = named(word)?;
    Some(CellForm {
        state,
        place: if_there(inside)?,
    })
}

// A number where there is a word. None where the word is no number.
fn if_there(word: Option<&[u8]>) -> Option<Option<u128>>
    ensures { result ≡ option_map (option_map capped)
        (if_there (option_map (λ x. x.now) word.entry)) }
{
    match word {
        Some(word) => Some(Some(number(word)?)),
        None => Some(None),
    }
}
