// New discs.
ghost use Rattle.disc.specs.Block0.{header_refusal, numbers_on};
ghost use Rattle.disc.specs.Means.{header_of};
ghost use Rattle.disc.specs.New.{ComesBack, IsNotMade, header_bytes, most_journal, new_disc, padded};
ghost use Rattle.std.specs.Prelude.{◌≡◌, ◌<◌, ◌≤◌, length, IfOk, None, vec_len, MatchResult, OnOk};

use crate::header::Header;
use crate::layout::BLOCK;
use crate::making::NotMade;
use std::alloc::{AllocError, Global};
use wire::{Encode, Row};

// The mark and the four numbers, and each item's price and band.
#[tactic(auto, using(crate::proofs::Puts::row_bytes), unfolding(crate::specs::New::header_bytes, crate::specs::New::start_bytes))]
fn header_bytes(heap: Global, header: &Header) -> Result<Vec<u8>, AllocError>
    ensures { IfOk result (λ v. v.items ≡ header_bytes (header_of header.now)) }
{
    // By `as`, which is proved to lose nothing here; `try_from` would have an error that cannot come.
    let count = header.count() as u32;
    let accounts = header.accounts() as u32;
    let orders = header.orders() as u32;
    let mut bytes = Vec::from_slice(heap, b"MRKT")?;
    (count, (accounts, (orders, header.money()))).write(&mut bytes)?;
    Row(header.items()).write(&mut bytes)?;
    Ok(bytes)
}

// Zeros behind the bytes, up to `length` in all.
#[tactic(auto, unfolding(crate::specs::New::padded))]
fn pad(bytes: &mut Vec<u8>, length: usize) -> Result<(), AllocError>
    requires { vec_len bytes.old ≤ length }
    ensures items { OnOk result (bytes.new.items ≡ padded length bytes.old.items) }
    ensures len { OnOk result (vec_len bytes.new ≡ length) }
{
    bytes.resize(length, 0)?;
    Ok(())
}

#[tactic(auto, unfolding(crate::specs::New::new_disc))]
fn disc_bytes(heap: Global, header: &Header, journal: usize) -> Result<Vec<u8>, AllocError>
    requires { journal ≤ most_journal }
    ensures { IfOk result (λ v. v.items ≡ new_disc (header_of header.now) journal) }
{
    let sizes = header.sizes();
    let mut bytes = header_bytes(heap, header)?;
    pad(&mut bytes, BLOCK * sizes.first_blocks())?;
    bytes.push(1)?;
    pad(&mut bytes, BLOCK * sizes.disc_blocks(journal))?;
    Ok(bytes)
}

// The bytes of a new disc with `journal` blocks in each journal. They are taken, and hold what the header says.
pub fn make(heap: Global, header: &Header, journal: usize) -> Result<Vec<u8>, NotMade>
    ensures { MatchResult result
        (λ v. (v.items ≡ new_disc (header_of header.now) journal)
        × (header_refusal v.items ≡ None)
        × (numbers_on v.items ≡ header_of header.now))
        (λ e. IsNotMade (length (header_of header.now).items) journal e) }
{
    if journal < header.least_journal() {
        return Err(NotMade::ShortJournal);
    }
    if journal > 1_048_576 {
        return Err(NotMade::LongJournal);
    }
    Ok(disc_bytes(heap, header, journal)?)
}

// Every new disc is taken, and holds the numbers that it was made from.
pub fn new_discs_come_back()
    ensures { ComesBack }
{}

#[cfg(test)]
mod tests {
    use super::*;
    use crate::header::reading::read;
    use std::test::Fail;
    use wire::Item;

    // Two items, 3 accounts, 5 orders and journals of 33 blocks: 1 block for the first market and 1 for the layout,
    // and two areas of 1 block, 1 for a checkpoint's body and 33; that is 72 blocks of 512 bytes.
    #[test]
    fn a_new_disc_is_read(rt: HostRuntime) -> Result<(), Fail> {
        let items = [
            Item {
                price: 258,
                band: 10,
            },
            Item { price: 7, band: 7 },
        ];
        let header = Header::new(3, 5, 1000, &items)?;
        let disc = make(rt.alloc(), &header, 33)?;
        assert_eq!(rt; disc.len(), 36864);
        assert!(rt; disc.starts_with(b"MRKT\x02\0\0\0"));
        assert_eq!(rt; (disc[24], disc[25], disc[28]), (2, 1, 10));
        assert_eq!(rt; disc[512], 1);
        assert_eq!(rt; read(&disc), Ok(header));
        assert!(rt; matches!(make(rt.alloc(), &header, 32), Err(NotMade::ShortJournal)));
        Ok(())
    }
}
