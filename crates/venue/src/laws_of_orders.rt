// Laws of orders in plain words, by which a wrong rule would be seen. Each function's contract is a statement of specs/.
ghost use Rattle.venue.specs.Cancelling.{CancelTaken, CancelRemoves};
ghost use Rattle.venue.specs.Placing.{PlaceTaken, PlaceCarried, TakenLeaves};
ghost use Rattle.venue.specs.Priority.{MeetsCanTrade, BestIsFirst, BestIsOldest};

// Two orders meet exactly if they can trade.
pub fn meeting_orders_can_trade()
    ensures { MeetsCanTrade }
{}

// An order trades first with the best price, and of equal prices with the order that stands first.
pub fn best_price_comes_first()
    ensures { BestIsFirst }
{}

// In a sound market that is the one with the lowest number.
pub fn oldest_order_comes_first()
    ensures { BestIsOldest }
{}

// An order is taken exactly if its account may place it.
pub fn order_is_taken()
    ensures { PlaceTaken }
{}

// An order is carried out by price and time, each trade at the price of the order that stood, and what is left of it stands.
pub fn order_is_carried_out()
    ensures { PlaceCarried }
{}

// An order can be taken back exactly if it stands and is the account's own.
pub fn cancel_is_taken()
    ensures { CancelTaken }
{}

// Then it is gone, and all else is as it was.
pub fn cancel_removes_order()
    ensures { CancelRemoves }
{}

// A trade leaves that much less of one standing order, and all others as they were.
pub fn trades_leave_others()
    ensures { TakenLeaves }
{}
