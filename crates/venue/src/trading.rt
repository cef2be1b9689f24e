// An order being carried out. Each function's contract is a statement of specs/Statements.antt or specs/Trade.antt.
ghost use Rattle.venue.specs.Statements.{TurnsHold};
ghost use Rattle.venue.specs.Trade.{TradePaidFor};

// All that the turns need holds at the first and after every trade.
pub fn turns_hold()
    ensures { TurnsHold }
{}

// A trade never raises anybody's need by more than that account's money grows.
pub fn trade_is_paid_for()
    ensures { TradePaidFor }
{}
