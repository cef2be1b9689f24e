// One line of a setup file. Three functions give the same fault, each exactly where its own definition gives nothing.
ghost use Rattle.std.specs.Prelude.{◌≡◌, ◌≤◌, Some, None, IfOk, IfErr};
ghost use Rattle.text.specs.Entries.{bounded, entry_by, entry_of, nothing_left, one_item, one_number};
ghost use Rattle.text.specs.Words.{number};
ghost use Rattle.text.specs.declared.fault.What.TheVariants.{OutOfRange};

use crate::entry::{Entry, Word};
use crate::fault::What;
use crate::number::number_in;
use crate::words::first_word;
use wire::Item;

fn nothing_left(bytes: &[u8]) -> bool
    ensures { result ≡ nothing_left bytes.now }
{
    let (word, _) = first_word(bytes);
    word.is_empty()
}

// The number that the word is, if it is from `low` to `high`.
fn bounded(low: u64, high: u64, word: &[u8]) -> Result<u64, What>
    ensures found { IfOk result (λ n. (bounded low high (number word.now) ≡ Some n) × (n ≤ high)) }
    ensures fault { IfErr result (λ w. (w ≡ OutOfRange) × (bounded low high (number word.now) ≡ None)) }
{
    number_in(word)
        .filter(|n| low <= *n && *n <= high)
        .ok_or(What::OutOfRange)
}

// One number from `low` to `high`, and nothing behind it.
#[tactic(auto, unfolding(crate::specs::Entries::one_number))]
fn one_number(low: u64, high: u64, bytes: &[u8]) -> Result<u64, What>
    ensures found { IfOk result (λ n. (one_number low high bytes.now ≡ Some n) × (n ≤ high)) }
    ensures fault { IfErr result (λ w. (w ≡ OutOfRange) × (one_number low high bytes.now ≡ None)) }
{
    let (word, rest) = first_word(bytes);
    let n = bounded(low, high, word)?;
    if !nothing_left(rest) {
        return Err(What::OutOfRange);
    }
    Ok(n)
}

// A price and a band in range, and nothing behind them.
#[tactic(auto, unfolding(crate::specs::Entries::one_item, crate::specs::Entries::one_number))]
fn one_item(bytes: &[u8]) -> Result<Item, What>
    ensures found { IfOk result (λ i. one_item bytes.now ≡ Some i) }
    ensures fault { IfErr result (λ w. (w ≡ OutOfRange) × (one_item bytes.now ≡ None)) }
{
    let (word, rest) = first_word(bytes);
    let price = bounded(1, 1_000_000, word)?;
    let band = one_number(1, price, rest)?;
    // Casts that lose nothing: `try_from` would ask for a fault that cannot be.
    Ok(Item {
        price: price as u32,
        band: band as u32,
    })
}

// What a line says by its first word and what stands behind that.
fn entry_by(word: Word, rest: &[u8]) -> Result<Entry, What>
    ensures { result ≡ entry_by word rest.now }
{
    match word {
        Word::Blank => Ok(Entry::Nothing),
        Word::Accounts => Ok(Entry::Accounts(one_number(1, 4096, rest)?)),
        Word::Orders => Ok(Entry::Orders(one_number(1, 65536, rest)?)),
        Word::Money => Ok(Entry::Money(one_number(0, 1_125_899_906_842_624, rest)?)),
        Word::Journal => Ok(Entry::Journal(one_number(1, 1_048_576, rest)?)),
        Word::Item => Ok(Entry::Item(one_item(rest)?)),
        Word::Unknown => Err(What::UnknownWord),
    }
}

// What a line without its comment says.
impl TryFrom<&[u8]> for Entry {
    type Error = What;

    ghost try_from_gives = { λ l r. r ≡ entry_of l.now };

    #[tactic(auto, unfolding(crate::specs::Entries::entry_of))]
    fn try_from(line: &[u8]) -> Result<Entry, What> {
        let (word, rest) = first_word(line);
        entry_by(Word::from(word), rest)
    }
}
