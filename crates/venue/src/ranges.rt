// Machine numbers hold a market. Each function's contract is a statement of specs/Statements.antt.
ghost use Rattle.venue.specs.Statements.{SizesStay, Ranges, SumsFit, ReportsBound};

// How many items and accounts there are, and the limits, stay.
pub fn sizes_stay()
    ensures { SizesStay }
{}

// All numbers of a market are in range, between messages, at every turn of an order, and at every step of tearing up.
pub fn numbers_fit()
    ensures { Ranges }
{}

// So are needs, and the partial sums of an evening.
pub fn sums_fit()
    ensures { SumsFit }
{}

// A message has one report, and beside it at most a trade for each order that may stand, or a tear-up for each holding.
pub fn reports_are_few()
    ensures { ReportsBound }
{}
