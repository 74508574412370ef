//! Laws of strings, for proofs alone: each function states a law and does nothing.

ghost use Rattle.bas_text.specs.StringLaws.{JoinLaw, RepeatLaw, PartEndsLaw, PartOfPartLaw, PositionLaw, PositionOfPartLaw, LetterLaw, OrderLaw};

/// Joining is associative, and its length is the sum.
pub fn join_law()
    ensures { JoinLaw }
{}

/// Repeating m and n times is joining what m times and n times give, and the length is the product.
pub fn repeat_law()
    ensures { RepeatLaw }
{}

/// The ends of a part are taken to be within the text, a part's length is the number of its places, and a
/// part of a part is a part.
pub fn part_law()
    ensures ends { PartEndsLaw }
    ensures again { PartOfPartLaw }
{}

/// A position is the least place at or after the given one at which the string stands, and 0 where there is
/// none; a part is found where it begins, and what is found is that part.
pub fn position_law()
    ensures least { PositionLaw }
    ensures parts { PositionOfPartLaw }
{}

/// Capitals of capitals are these, and so with small letters.
pub fn letter_law()
    ensures { LetterLaw }
{}

/// The order of strings is total, equal strings are the same, and a proper prefix is less.
pub fn order_law()
    ensures { OrderLaw }
{}
