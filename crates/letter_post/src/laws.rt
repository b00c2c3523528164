//! Laws of letters: each is called where it is wanted, and its clauses are facts from there on.

ghost use Rattle.letter_post.specs.Orders.{ChainsTakeAll, ChainsTakeOne, MailFollows};

/// Letters on their way to a slot whose orders follow one another stay so with further letters behind them that follow
/// the last order. Letters that are no orders follow any.
pub fn chains_grow()
    ensures one { ChainsTakeOne }
    ensures all { ChainsTakeAll }
    ensures mail { MailFollows }
{}
