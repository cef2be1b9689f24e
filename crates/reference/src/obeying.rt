// What each message does.
ghost use Rattle.std.specs.Prelude.{ℕ, Bool, length, is_ok};
ghost use Rattle.reference.specs.Means.{world_of, limits_of};
ghost use Rattle.reference.specs.Conditions.{Standing};
ghost use Rattle.reference.specs.Does.{HasRoom, Tells};
ghost use Rattle.reference.specs.Parts.{answer};
ghost use Rattle.venue.specs.World as world;
ghost use Rattle.wire.specs.Means.{message_of};

use crate::market::{Order, Refused, Told};
use wire::{Message, Report};

impl Told {
    // The one report of a message that places no order and tears nothing up.
    fn answer(&mut self, taken: Result<(), Refused>)
        requires room { HasRoom self.old (λ w. (w, answer (is_ok taken))) }
        ensures { Tells self.old self.new (λ w. (w, answer (is_ok taken))) }
    {
        match taken {
            Ok(()) => self.reports.push_reserved(Report::Taken { number: 0 }),
            Err(Refused) => self.reports.push_reserved(Report::Refused),
        }
    }

    // The message is carried out or refused, and its reports are made.
    pub(crate) fn obey(&mut self, message: Message, bytes: &[u8])
        requires standing { (k : ℕ → Bool) × Standing (limits_of self.old.market.limits k) (world_of self.old.market) }
        requires room { (k : ℕ → Bool) → HasRoom self.old (λ w. world.says_it (limits_of self.old.market.limits k) w (message_of bytes.now (length w.items) message)) }
        ensures { (k : ℕ → Bool) → Tells self.old self.new (λ w. world.says_it (limits_of self.old.market.limits k) w (message_of bytes.now (length w.items) message)) }
    {
        match message {
            Message::PayIn { account, amount } => {
                let taken = self.market.pay_in(account, amount);
                self.answer(taken);
            }
            Message::PayOut { account, amount } => {
                let taken = self.market.pay_out(account, amount);
                self.answer(taken);
            }
            Message::Place {
                account,
                item,
                side,
                price,
                quantity,
            } => {
                let order = Order {
                    number: self.market.next,
                    account,
                    item,
                    side,
                    price,
                    left: quantity,
                };
                self.place(order);
            }
            Message::Cancel { account, number } => {
                let taken = self.market.cancel(account, number);
                self.answer(taken);
            }
            Message::EndDay { prices } => {
                let taken = self.market.end_day(bytes, prices);
                self.answer(taken);
            }
            Message::BeginDay => self.begin_day(),
        }
    }
}
