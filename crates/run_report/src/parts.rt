//! Parts of slices.

ghost use Rattle.std.specs.Prelude.{◌≡◌, drop, take};

// The items from a place on, at most `count` of them.
#[tactic(auto, using(crate::proofs::Cuts::cut_none, crate::proofs::Cuts::cut_rest))]
pub(crate) fn part<T>(items: &[T], at: usize, count: usize) -> &[T]
    ensures { result.now ≡ take count (drop at items.now) }
{
    if at > items.len() {
        return &[];
    }
    let rest = items.split_at(at).1;
    if count > rest.len() {
        return rest;
    }
    rest.split_at(count).0
}
