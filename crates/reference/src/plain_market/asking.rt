// What can be asked of the plain market.
ghost use Rattle.reference.specs.Plain.{plain_world};
ghost use Rattle.std.specs.Prelude.{◌≡◌, length, Some, None, nat_lt};
ghost use Rattle.venue.specs.World as world;

use super::PlainMarket;

impl PlainMarket {
    // How many items there are.
    pub fn items(&self) -> usize
        ensures { result ≡ length (plain_world self.now).items }
    {
        self.told.market.items.len()
    }

    pub fn trading(&self) -> bool
        ensures { result ≡ (plain_world self.now).trading }
    {
        self.told.market.trading
    }

    // An account's money, if there is such an account.
    pub fn cash(&self, account: u16) -> Option<i64>
        ensures { result ≡ world.pick (nat_lt account (length (plain_world self.now).accounts)) (Some (world.account (plain_world self.now) account).cash) None }
    {
        let of = self.told.market.accounts.get(usize::from(account))?;
        Some(of.cash)
    }

    // The most that an account can lose by the day's end.
    pub fn need(&self, account: u16) -> Option<i128>
        ensures { result ≡ world.pick (nat_lt account (length (plain_world self.now).accounts)) (Some (world.need (plain_world self.now) account (plain_world self.now).orders)) None }
    {
        // Tested, since `need_of` reads the account by its number itself.
        if usize::from(account) >= self.told.market.accounts.len() {
            return None;
        }
        Some(self.told.market.need_of(account))
    }
}
