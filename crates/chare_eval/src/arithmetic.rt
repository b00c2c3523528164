//! Arithmetic in 64 bits that wrap, with the slips of its operands.

ghost use Rattle.std.specs.Prelude.{◌≡◌, pos, not};
ghost use Rattle.std.specs.Int.{w64, int_wrapping_sub, int_min, int_max};
ghost use Rattle.chare_eval.specs.Value.{after, both_of, clean, compared, is_true, least_kind, multiplied, product_of, sum_of, truth};

use crate::value::Computed;
use chare_base::expression::{AddOp, CompareOp, MulOp};

/// The kind of a division by zero.
pub const DIVISION: u8 = 1;

/// The kind of a read out of range.
pub const READ: u8 = 2;

/// The kind of a write out of range.
pub const WRITE: u8 = 3;

/// The lesser of two kinds of slips, where 0 is none.
pub fn least_kind(a: u8, b: u8) -> u8
    ensures { result ≡ least_kind a b }
{
    if a == 0 {
        b
    } else if b == 0 {
        a
    } else {
        a.min(b)
    }
}

impl Computed {
    /// A value without a slip.
    pub fn clean(value: i64) -> Computed
        ensures { result ≡ clean value }
    {
        Computed { value, slip: 0 }
    }

    /// The same behind an earlier slip.
    pub fn after(self, kind: u8) -> Computed
        ensures { result ≡ after kind self }
    {
        Computed {
            value: self.value,
            slip: least_kind(kind, self.slip),
        }
    }

    pub(crate) fn minus(self) -> Computed
        ensures { result ≡ record {
          value = int_wrapping_sub w64 (pos 0) self.value;
          slip = self.slip;
        } }
    {
        Computed {
            value: self.value.wrapping_neg(),
            slip: self.slip,
        }
    }

    pub(crate) fn denied(self) -> Computed
        ensures { result ≡ record { value = truth (not (is_true self.value)); slip = self.slip } }
    {
        Computed {
            value: i64::from(self.value == 0),
            slip: self.slip,
        }
    }

    pub(crate) fn least(self, other: Computed) -> Computed
        ensures { result ≡ both_of int_min self other }
    {
        Computed {
            value: self.value.min(other.value),
            slip: least_kind(self.slip, other.slip),
        }
    }

    pub(crate) fn greatest(self, other: Computed) -> Computed
        ensures { result ≡ both_of int_max self other }
    {
        Computed {
            value: self.value.max(other.value),
            slip: least_kind(self.slip, other.slip),
        }
    }

    pub(crate) fn compared(self, op: CompareOp, other: Computed) -> Computed
        ensures { result ≡ both_of (λ x y. truth (compared op x y)) self other }
    {
        Computed {
            value: i64::from(compared(op, self.value, other.value)),
            slip: least_kind(self.slip, other.slip),
        }
    }

    pub(crate) fn plus(self, op: AddOp, other: Computed) -> Computed
        ensures { result ≡ sum_of op self other }
    {
        let value = match op {
            AddOp::Plus => self.value.wrapping_add(other.value),
            AddOp::Minus => self.value.wrapping_sub(other.value),
        };
        Computed {
            value,
            slip: least_kind(self.slip, other.slip),
        }
    }

    pub(crate) fn times(self, op: MulOp, other: Computed) -> Computed
        ensures { result ≡ product_of op self other }
    {
        multiplied(op, self.value, other.value).after(least_kind(self.slip, other.slip))
    }
}

// Whether a comparison holds.
fn compared(op: CompareOp, x: i64, y: i64) -> bool
    ensures { result ≡ compared op x y }
{
    match op {
        CompareOp::Equal => x == y,
        CompareOp::NotEqual => x != y,
        CompareOp::Less => x < y,
        CompareOp::LessOrEqual => x <= y,
        CompareOp::Greater => x > y,
        CompareOp::GreaterOrEqual => x >= y,
    }
}

// A product, a quotient or a remainder. Division truncates; by zero it gives 0, which is a slip.
fn multiplied(op: MulOp, x: i64, y: i64) -> Computed
    ensures { result ≡ multiplied op x y }
{
    match op {
        MulOp::Times => Computed::clean(x.wrapping_mul(y)),
        _ if y == 0 => Computed {
            value: 0,
            slip: DIVISION,
        },
        MulOp::Divide => Computed::clean(x.wrapping_div(y)),
        MulOp::Remainder => Computed::clean(x.wrapping_rem(y)),
    }
}
