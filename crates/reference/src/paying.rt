// Paying in and paying out.
ghost use Rattle.std.specs.Prelude.{◌≡◌, ℕ, ◌^◌, ◌<◌, Bool, length, is_ok};
ghost use Rattle.reference.specs.Means.{world_of, limits_of};
ghost use Rattle.reference.specs.Conditions.{Within, Fit};
ghost use Rattle.reference.specs.Does.{Obeys};
ghost use Rattle.venue.specs.World as world;

use crate::market::{Market, Refused};
use crate::needs::need;

impl Market {
    // The most that the account can lose by the day's end.
    pub(crate) fn need_of(&self, account: u16) -> i128
        requires here { account < length (world_of self.now).accounts }
        requires fit { Fit (world_of self.now) }
        ensures value { result ≡ world.need (world_of self.now) account (world_of self.now).orders }
        ensures bound { Within (2 ^ 115) result }
    {
        need(
            account,
            &self.accounts[usize::from(account)],
            &self.items,
            &self.orders,
        )
    }

    // Whether the account's money covers what it can lose.
    pub(crate) fn covers(&self, account: u16) -> bool
        requires here { account < length (world_of self.now).accounts }
        requires fit { Fit (world_of self.now) }
        ensures { result ≡ world.covered (world_of self.now) account (world_of self.now).orders }
    {
        self.need_of(account) <= i128::from(self.accounts[usize::from(account)].cash)
    }

    // Taken if the amount is at least 1, and all money then at most the limit.
    pub(crate) fn pay_in(&mut self, account: u16, amount: u64) -> Result<(), Refused>
        requires fit { Fit (world_of self.old) }
        ensures { (k : ℕ → Bool) → Obeys (limits_of self.old.limits k) (world.pay_in account amount) self.old self.new (is_ok result) }
    {
        let a = usize::from(account);
        if a >= self.accounts.len() || amount == 0 {
            return Err(Refused);
        }
        let money = self.money.checked_add(amount).ok_or(Refused)?;
        if money > self.limits.money {
            return Err(Refused);
        }
        self.accounts[a].cash += amount as i64;
        self.money = money;
        Ok(())
    }

    // Taken if the amount is at least 1, and what is left covers the need.
    pub(crate) fn pay_out(&mut self, account: u16, amount: u64) -> Result<(), Refused>
        requires fit { Fit (world_of self.old) }
        ensures { (z : world.Limits) → Obeys z (world.pay_out account amount) self.old self.new (is_ok result) }
    {
        let a = usize::from(account);
        if a >= self.accounts.len() || amount == 0 {
            return Err(Refused);
        }
        let cash = self.accounts[a].cash;
        if self.need_of(account) + i128::from(amount) > i128::from(cash) {
            return Err(Refused);
        }
        self.accounts[a].cash = cash - amount as i64;
        self.money = self.money.saturating_sub(amount);
        Ok(())
    }
}
