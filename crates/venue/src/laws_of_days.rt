// Laws of the day's beginning and end, and of what can be lost between, by which a wrong rule would be seen. Each function's contract is a statement of
// specs/.
ghost use Rattle.venue.specs.Days.{WorkedDays};
ghost use Rattle.venue.specs.Loss.{NeedIsEnough, NeedIsReached};
ghost use Rattle.venue.specs.Morning.{DayBegins};
ghost use Rattle.venue.specs.Settlement.{EndDayTaken, EndDaySettles};

// Some worked days end as they should.
pub fn days_are_worked()
    ensures { WorkedDays }
{}

// A day's end is taken exactly if there is trading and each new price lies within its item's band.
pub fn end_of_day_is_taken()
    ensures { EndDayTaken }
{}

// Then every holding's gain or loss is paid to the last unit.
pub fn end_of_day_settles()
    ensures { EndDaySettles }
{}

// However the day goes on, within the bands, no account loses more than it needs.
pub fn need_is_enough()
    ensures { NeedIsEnough }
{}

// And it can go on so that an account loses just that.
pub fn need_is_reached()
    ensures { NeedIsReached }
{}

// A morning tears up just those who are not covered at their turn, at the holdings of the moment, and leaves everybody covered.
pub fn day_begins_justly()
    ensures { DayBegins }
{}
