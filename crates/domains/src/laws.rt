//! Laws of values that speak of no call.

ghost use Rattle.domains.specs.declared.numbers.Word.{Word};
ghost use Rattle.domains.specs.Values.{Parts, IsReduced, HoldsAtMost, value_joined, value_widened};

/// Joins and widenings of reduced values are reduced, and hold of no more numbers than a word of which both hold at most:
/// where both values hold of one number at most, or of nothing, so do their join and their widening.
pub fn at_most_law()
    ensures join_reduced { (x y : Parts) → IsReduced x → IsReduced y → IsReduced (value_joined x y) }
    ensures widen_reduced { (x y : Parts) → IsReduced x → IsReduced y → IsReduced (value_widened x y) }
    ensures join { (x y : Parts) (z : Word) → IsReduced x → IsReduced y → HoldsAtMost x z → HoldsAtMost y z → HoldsAtMost (value_joined x y) z }
    ensures widen { (x y : Parts) (z : Word) → IsReduced x → IsReduced y → HoldsAtMost x z → HoldsAtMost y z → HoldsAtMost (value_widened x y) z }
{}
