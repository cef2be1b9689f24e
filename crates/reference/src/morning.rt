// The day's begin: holdings that are not covered are torn up.
ghost use Rattle.std.specs.Prelude.{◌≡◌, ◌<◌, false, length};
ghost use Rattle.reference.specs.Means.{world_of};
ghost use Rattle.reference.specs.Conditions.{Morning, Within};
ghost use Rattle.reference.specs.Does.{HasRoom, Tells};
ghost use Rattle.reference.specs.Parts.{torn_account, torn_one};
ghost use Rattle.venue.specs.World as world;

use crate::market::Told;
use venue::traded;
use wire::Report;

// Whether one of the two holdings is owned and the other owed. By cases: a product of `signum`s says it less plainly.
fn opposite(h: i64, g: i64) -> bool
    ensures { result ≡ world.opposite h g }
{
    if h > 0 { g < 0 } else { h < 0 && g > 0 }
}

// The smaller of both holdings, with the sign of the first.
fn smaller(h: i64, g: i64) -> i64
    requires h { Within 2147483648 h }
    requires g { Within 2147483648 g }
    ensures value { result ≡ world.signed h (world.lesser (world.abs h) (world.abs g)) }
    ensures bound { Within 2147483648 result }
{
    let size = traded(h.unsigned_abs(), g.unsigned_abs()) as i64;
    if h < 0 { -size } else { size }
}

impl Told {
    // Account a's holding of item k is torn up against b's, at the item's price, if b holds the other way.
    fn tear_with(&mut self, a: u16, b: u16, k: u16)
        requires account { a < length (world_of self.old.market).accounts }
        requires other { b < length (world_of self.old.market).accounts }
        requires item { k < length (world_of self.old.market).items }
        requires morning { Morning (world_of self.old.market) }
        requires room { HasRoom self.old (λ w. torn_one w a b k) }
        ensures { Tells self.old self.new (λ w. torn_one w a b k) }
    {
        let (mine, other) = (self.market.held_of(a, k), self.market.held_of(b, k));
        if !opposite(mine, other) {
            return;
        }
        let held = smaller(mine, other);
        let item = usize::from(k);
        let price = self.market.items[item].price;
        self.market.gets(usize::from(a), item, -held, price);
        self.market.gets(usize::from(b), item, held, price);
        self.reports.push_reserved(Report::Torn {
            account: a,
            other: b,
            item: k,
            held,
        });
    }

    // Account a's holding of item k is torn up, against all accounts by their numbers.
    fn tear_item(&mut self, a: u16, k: u16)
        requires account { a < length (world_of self.old.market).accounts }
        requires item { k < length (world_of self.old.market).items }
        requires morning { Morning (world_of self.old.market) }
        requires room { HasRoom self.old (λ w. world.tear (length w.accounts) 0 a k w) }
        ensures { Tells self.old self.new (λ w. world.tear (length w.accounts) 0 a k w) }
    {
        // By number: each turn changes the accounts, and reports the number.
        for b in 0..self.market.accounts.len() {
            self.tear_with(a, b as u16, k);
        }
    }

    // All that account a holds is torn up, item by item.
    fn tear_items(&mut self, a: u16)
        requires account { a < length (world_of self.old.market).accounts }
        requires morning { Morning (world_of self.old.market) }
        requires room { HasRoom self.old (λ w. world.tear_items (length w.items) 0 a w) }
        ensures { Tells self.old self.new (λ w. world.tear_items (length w.items) 0 a w) }
    {
        // By number, as above.
        for k in 0..self.market.items.len() {
            self.tear_item(a, k as u16);
        }
    }

    // Account a is torn up if it is not covered.
    fn tear_account(&mut self, a: u16)
        requires account { a < length (world_of self.old.market).accounts }
        requires morning { Morning (world_of self.old.market) }
        requires room { HasRoom self.old (λ w. torn_account w a) }
        ensures { Tells self.old self.new (λ w. torn_account w a) }
    {
        if !self.market.covers(a) {
            self.tear_items(a);
        }
    }

    // Accounts are gone through by number; those that come later are looked at with what they then hold.
    fn tear_all(&mut self)
        requires morning { Morning (world_of self.old.market) }
        requires room { HasRoom self.old (λ w. world.tear_all (length w.accounts) 0 w) }
        ensures { Tells self.old self.new (λ w. world.tear_all (length w.accounts) 0 w) }
    {
        // By number, as above.
        for a in 0..self.market.accounts.len() {
            self.tear_account(a as u16);
        }
    }

    // Refused while there is trading. Else those that are not covered are torn up, and trading begins.
    pub(crate) fn begin_day(&mut self)
        requires morning { (world_of self.old.market).trading ≡ false → Morning (world_of self.old.market) }
        requires room { (z : world.Limits) × HasRoom self.old (λ w. world.says_it z w world.begin_day) }
        ensures { (z : world.Limits) → Tells self.old self.new (λ w. world.says_it z w world.begin_day) }
    {
        if self.market.trading {
            self.reports.push_reserved(Report::Refused);
            return;
        }
        self.reports.push_reserved(Report::Taken { number: 0 });
        self.tear_all();
        self.market.trading = true;
    }
}
