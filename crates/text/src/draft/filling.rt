// Takes in what the lines say, one after another.
ghost use Rattle.std.specs.Prelude.{◌≡◌, ◌+◌, ◌<◌, Ok, Err, Some, IsNone, IsSome, OnOk, OnErr};
ghost use Rattle.text.specs.Setups.{add_item, line_in, nothing_said, plan_of, plan_or_fault, put_in};
ghost use Rattle.text.specs.declared.fault.What.TheVariants.{Twice};

use super::{Draft, JournalLength};
use crate::entry::Entry;
use crate::fault::What;
use crate::words::without_comment;
use disc::{BLANK, Few};
use wire::Item;

// Takes a value in, if there was none.
fn set_once<T: Copy>(slot: &mut Option<T>, value: T) -> Result<(), What>
    ensures first { IsNone slot.old → (result ≡ Ok tt) × (slot.new ≡ Some value) }
    ensures again { IsSome slot.old → (result ≡ Err Twice) × (slot.new ≡ slot.old) }
{
    if slot.is_some() {
        return Err(What::Twice);
    }
    *slot = Some(value);
    Ok(())
}

impl Draft {
    pub(crate) fn new() -> Draft
        ensures plan { plan_of result ≡ nothing_said }
        ensures line { result.line ≡ 1 }
    {
        Draft {
            line: 1,
            accounts: None,
            orders: None,
            money: None,
            journal: None,
            items: Few::new(BLANK),
        }
    }

    #[tactic(auto, unfolding(crate::specs::Setups::add_item))]
    fn add_item(&mut self, item: Item) -> Result<(), What>
        ensures plan { add_item (plan_of self.old) item ≡ plan_or_fault result (plan_of self.new) }
        ensures line { self.new.line ≡ self.old.line }
    {
        self.items.push(item).map_err(|_| What::TooManyItems)
    }

    // Takes in what a line says.
    fn put(&mut self, entry: Entry) -> Result<(), What>
        ensures plan { put_in self.old.line (plan_of self.old) entry ≡ plan_or_fault result (plan_of self.new) }
        ensures line { self.new.line ≡ self.old.line }
    {
        match entry {
            Entry::Nothing => Ok(()),
            Entry::Accounts(n) => set_once(&mut self.accounts, n),
            Entry::Orders(n) => set_once(&mut self.orders, n),
            Entry::Money(n) => set_once(&mut self.money, n),
            Entry::Journal(blocks) => {
                let line = self.line;
                set_once(&mut self.journal, JournalLength { blocks, line })
            }
            Entry::Item(item) => self.add_item(item),
        }
    }

    // Takes in the next line of text.
    #[tactic(auto, unfolding(crate::specs::Setups::line_in))]
    pub(crate) fn put_line(&mut self, text: &[u8]) -> Result<(), What>
        requires { self.old.line < usize.MAX }
        ensures plan { line_in self.old.line (plan_of self.old) text.now ≡ plan_or_fault result (plan_of self.new) }
        ensures next { OnOk result (self.new.line ≡ self.old.line + 1) }
        ensures same { OnErr result (self.new.line ≡ self.old.line) }
    {
        self.put(Entry::try_from(without_comment(text))?)?;
        self.line += 1;
        Ok(())
    }
}
