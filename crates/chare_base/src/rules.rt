//! The rules that a plan's type keeps, tested once.

ghost use Rattle.std.specs.Prelude.{◌≡◌, IsTrue, IsSome, IfSome, ◌↔◌};
ghost use Rattle.chare_base.specs.Rules.{rules_hold};
ghost use Rattle.chare_base.specs.Elements.{fields_of};

use crate::bytes::Name;
use crate::plan::{Answer, Array, Entry, Plan, Reduction};
use crate::rules::costs::costs_hold;
use crate::rules::layout::layout_holds;
use crate::rules::names::names_hold;
use crate::rules::overlap::overlaps_hold;
use crate::rules::ports::ports_hold;
use crate::rules::ranges::ranges_hold;
use crate::rules::sizes::limits_hold;
use sqlite_items::Items;

mod costs;
mod layout;
mod names;
mod overlap;
mod ports;
mod ranges;
mod sizes;

impl Plan {
    /// A plan of these fields, where the rules hold; else None, and the fields are dropped.
    #[tactic(auto, unfolding(crate::specs::Rules::rules_hold))]
    pub fn sealed(
        name: Name,
        iterations: u64,
        arrays: Items<Array>,
        entries: Items<Entry>,
        reductions: Items<Reduction>,
        answers: Items<Answer>,
    ) -> Option<Plan>
        ensures holds { IsSome result
            ↔ IsTrue (rules_hold name iterations arrays entries reductions answers) }
        ensures fields { IfSome result
            (λ p. fields_of p ≡ record {
              name = name;
              iterations = iterations;
              arrays = arrays;
              entries = entries;
              reductions = reductions;
              answers = answers;
            }) }
    {
        let (a, e, r) = (arrays.as_slice(), entries.as_slice(), reductions.as_slice());
        if limits_hold(&name, iterations, a, e, r, answers.as_slice())
            && layout_holds(a)
            && ranges_hold(a, e, r, answers.as_slice())
            && names_hold(a, e, r)
            && ports_hold(a, e, r)
            && costs_hold(a)
            && overlaps_hold(a)
        {
            Some(Plan {
                name,
                iterations,
                arrays,
                entries,
                reductions,
                answers,
            })
        } else {
            None
        }
    }
}
