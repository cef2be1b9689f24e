// What the plain market promises for every row of messages. Each function's contract is a statement of specs/Promise.antt.
ghost use Rattle.venue.specs.Promise.{Kept, Covered, NotCrossed, SomethingLeft};

// No money comes or goes but what is paid in and out, and of each item as much is owed as is owned.
pub fn market_keeps()
    ensures { Kept }
{}

// Nobody's money is below 0, and while there is trading everybody can lose all that can be lost by the day's end.
pub fn market_covers()
    ensures { Covered }
{}

// No two orders stand that could trade.
pub fn market_not_crossed()
    ensures { NotCrossed }
{}

// An order that stands has something left.
pub fn market_something_left()
    ensures { SomethingLeft }
{}
