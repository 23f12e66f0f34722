// What odds promise in the place of laws.
ghost use Rattle.odds.specs.Enclosing.{Enclosing, Reading, Rounding};

// A theorem: sums and products of odds enclose the sums and products of the chances that their terms and factors enclose, they
// are odds whatever pairs they come from, and the ends of a product are rounded no further than to the next unit.
pub fn odds_enclose()
    ensures encloses { Enclosing }
    ensures reads { Reading }
    ensures rounds { Rounding }
{}
