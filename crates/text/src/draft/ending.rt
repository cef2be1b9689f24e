// What all lines together describe.
ghost use Rattle.std.specs.Prelude.{◌≡◌};
ghost use Rattle.text.specs.Setups.{checked, finish, journal_line_of, journal_of, journal_or, plan_of, planned, setup_or_fault};

use super::{Draft, JournalLength};
use crate::fault::{Fault, What};
use crate::setup::Setup;
use disc::Header;

impl Draft {
    // The journals' length, which is 4,096 blocks if no line says it.
    fn journal(&self) -> JournalLength
        ensures blocks { result.blocks ≡ journal_or (journal_of self.now.journal) }
        ensures line { result.line ≡ journal_line_of self.now.journal }
    {
        // Line 0 is never told of: 4,096 blocks are enough for any number of items.
        self.journal.unwrap_or(JournalLength {
            blocks: 4096,
            line: 0,
        })
    }

    // A fault in the line that comes next.
    pub(crate) fn fault(&self, what: What) -> Fault
        ensures { result ≡ record { line = self.now.line; what = what } }
    {
        Fault {
            line: self.line,
            what,
        }
    }

    // A new disc, if its numbers are in range and its journals are long enough.
    fn checked(&self, accounts: u64, orders: u64, money: u64) -> Result<Setup, Fault>
        ensures { checked self.now.line (journal_line_of self.now.journal) (planned self.now accounts orders money) (journal_or (journal_of self.now.journal)) ≡ setup_or_fault result }
    {
        let items = self.items.as_slice();
        // Casts that lose nothing: `try_from` would ask for a fault that cannot be.
        let header = Header::new(accounts as usize, orders as usize, money, items).map_err(
            |_| self.fault(What::OutOfRange),
        )?;
        let journal = self.journal();
        let blocks = journal.blocks as usize;
        if blocks < header.least_journal() {
            return Err(Fault {
                line: journal.line,
                what: What::OutOfRange,
            });
        }
        Ok(Setup {
            header,
            journal: blocks,
        })
    }

    // What all lines together describe.
    #[tactic(auto, unfolding(crate::specs::Setups::finish))]
    pub(crate) fn finish(&self) -> Result<Setup, Fault>
        ensures { finish self.now.line (plan_of self.now) ≡ setup_or_fault result }
    {
        let missing = self.fault(What::Missing);
        let accounts = self.accounts.ok_or(missing)?;
        let orders = self.orders.ok_or(missing)?;
        let money = self.money.ok_or(missing)?;
        if self.items.as_slice().is_empty() {
            return Err(self.fault(What::NoItem));
        }
        self.checked(accounts, orders, money)
    }
}
