// What members can tell from their messages and reports alone, by which a wrong rule would be seen. Each function's contract is a statement of specs/.
ghost use Rattle.venue.specs.Payment.{CashByReports, PayInTaken, PayOutTaken, PaymentsMove};
ghost use Rattle.venue.specs.Positions.{HeldByReports};
ghost use Rattle.venue.specs.Refusal.{AnsweredOnce, RefusedChangesNothing};

// All cash is what was paid in less what was paid out, by the messages that were taken.
pub fn cash_is_by_reports()
    ensures { CashByReports }
{}

// A message has one first report, done or refused, and a refusal is its only one.
pub fn messages_are_answered_once()
    ensures { AnsweredOnce }
{}

// A message that is refused changes nothing.
pub fn refusals_change_nothing()
    ensures { RefusedChangesNothing }
{}

// A payment in is taken exactly if there is the account, something is paid, and all money stays within the limit.
pub fn pay_in_is_taken()
    ensures { PayInTaken }
{}

// A payment out is taken exactly if there is the account, something is paid, and the rest covers what the account needs.
pub fn pay_out_is_taken()
    ensures { PayOutTaken }
{}

// A payment that is taken moves that account's money, and nothing else.
pub fn payments_move_cash()
    ensures { PaymentsMove }
{}

// What an account holds of an item is what the reports of trades and tear-ups say.
pub fn holdings_are_by_reports()
    ensures { HeldByReports }
{}
