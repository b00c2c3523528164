//! The variables of the loops that run.

ghost use Rattle.std.specs.Prelude.{◌≡◌, ◌<◌, ◌≤◌, length, pos, replicate, slice_set};
ghost use Rattle.chare_eval.specs.Loops.{shown};
ghost use Rattle.chare_eval.specs.Value.{number_at};

use crate::block::put;
use crate::value::number_at;
use std::marker::Model;

/// The variables of the loops that run, the outermost first: 32 numbers, each 0 until it is written. Contracts see
/// them as a list. To forget them costs nothing, so that one scene serves a part after another.
#[derive(Drop)]
pub struct Loops {
    numbers: [i64; 32],
    // How many of the numbers count, from the first. The others are 0, whatever stands there.
    written: u8,
}

impl Model for Loops {
    ghost use Rattle.std.specs.Prelude.{ℤ, List};
    ghost use Rattle.chare_eval.specs.Loops.{shown};

    ghost Value = { List ℤ };

    ghost view = { λ l. shown l.written l.numbers };
}

impl Loops {
    /// All are 0.
    pub const fn new() -> Loops
        ensures { result ≡ replicate 32 (pos 0) }
    {
        Loops {
            numbers: [0; 32],
            written: 0,
        }
    }

    /// All are 0 again.
    #[tactic(auto, using(crate::proofs::Variables::none_shown))]
    pub(crate) fn forget(&mut self)
        ensures { self.new ≡ replicate 32 (pos 0) }
    {
        self.written = 0;
    }

    /// The variable of the loop that has this many others around it, 0 where there is none.
    pub fn get(&self, slot: u8) -> i64
        ensures { result ≡ number_at self.now slot }
    {
        number_shown(&self.numbers, self.written, slot)
    }

    /// Writes a variable, where there is one.
    pub(crate) fn set(&mut self, slot: u8, value: i64)
        ensures { self.new ≡ slice_set self.old slot value }
    {
        self.written = write(&mut self.numbers, self.written, slot, value);
    }
}

// The number at a place, where the first `written` were written.
#[tactic(auto, using(crate::proofs::Variables::number_in, crate::proofs::Variables::number_behind))]
fn number_shown(numbers: &[i64], written: u8, slot: u8) -> i64
    ensures { result ≡ number_at (shown written numbers.now) slot }
{
    if slot < written {
        number_at(numbers, slot)
    } else {
        0
    }
}

// Writes a number, where there is one, and answers how many are written then.
#[tactic(auto, using(crate::proofs::Variables::set_in, crate::proofs::Variables::set_next, crate::proofs::Variables::set_outside))]
fn write(numbers: &mut [i64], written: u8, slot: u8, value: i64) -> u8
    requires { length numbers.old ≤ 32 }
    ensures { shown result numbers.new ≡ slice_set (shown written numbers.old) slot value }
{
    let at = slot as usize;
    if at >= numbers.len() {
        return written;
    }
    if slot < written {
        put(numbers, at, value);
        return written;
    }
    clear_up_to(numbers, written, slot);
    put(numbers, at, value);
    slot + 1
}

// The numbers from a place up to another become 0.
fn clear_up_to(numbers: &mut [i64], written: u8, slot: u8)
    requires first { written ≤ slot }
    requires within { slot < length numbers.old }
    ensures shown { shown slot numbers.new ≡ shown written numbers.old }
    ensures len { length numbers.new ≡ length numbers.old }
{
    for i in written..slot {
        numbers[i as usize] = 0;
    }
}
