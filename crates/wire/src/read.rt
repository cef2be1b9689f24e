// Reading a message from bytes.
// Each reader takes the bytes and a place in them: the definitions speak of places in the whole file, and a refusal names its place there.
ghost use Rattle.std.specs.Prelude.{◌≡◌, ℕ, ◌+◌, ◌<◌, ◌≤◌, length, Some, None, MatchResult, nat_le};
ghost use Rattle.wire.specs.Messages.{AsWritten, Read, reads_place};
ghost use Rattle.wire.specs.Means.{message_of};
ghost use Rattle.wire.specs.Number.{two, eight};

use crate::field::Field;
use crate::kind::Kind;
use crate::message::Message;
use crate::refusal::Refusal;
use crate::side::Side;

// Whether so many bytes lie at `at`.
pub fn reaches(bytes: &[u8], at: usize, size: usize) -> bool
    ensures { result ≡ nat_le (at + size) (length bytes.now) }
{
    at <= bytes.len() && size <= bytes.len() - at
}

// What follows the kind in three of the six: an account, and money or an order's number.
fn account_and_number(bytes: &[u8], at: usize) -> Result<(u16, u64), Refusal>
    ensures { MatchResult result
        (λ p. (p.0 ≡ two bytes.now (at + 1)) × (p.1 ≡ eight bytes.now (at + 3)) × (at + 11 ≤ length bytes.now))
        (λ e. (e ≡ Refusal.Message at) × (length bytes.now < at + 11)) }
{
    if !reaches(bytes, at, 11) {
        return Err(Refusal::Message { at });
    }
    Ok((u16::read(bytes, at + 1), u64::read(bytes, at + 3)))
}

// An order to place.
#[tactic(auto, using(std::proofs::lemmas::Bool::Decides::nat_tests), unfolding(crate::specs::Messages::reads_place))]
fn read_place(bytes: &[u8], at: usize) -> Result<(Message, usize), Refusal>
    ensures { MatchResult result
        (λ p. ((n : ℕ) → reads_place bytes.now at ≡ Some (message_of bytes.now n p.0, p.1))
        × (p.1 ≡ 14) × (at + 14 ≤ length bytes.now))
        (λ e. (reads_place bytes.now at ≡ None) × (e ≡ Refusal.Message at)) }
{
    if !reaches(bytes, at, 14) {
        return Err(Refusal::Message { at });
    }
    let side = Side::try_from(bytes[at + 5]).map_err(|_| Refusal::Message { at })?;
    let account = u16::read(bytes, at + 1);
    let item = u16::read(bytes, at + 3);
    let price = u32::read(bytes, at + 6);
    let quantity = u32::read(bytes, at + 10);
    Ok((
        Message::Place {
            account,
            item,
            side,
            price,
            quantity,
        },
        14,
    ))
}

// The message at `at`, where there are so many items, and its length.
pub fn read_message(bytes: &[u8], at: usize, items: usize) -> Result<(Message, usize), Refusal>
    ensures found { Read bytes.now at items result }
    ensures written { AsWritten bytes.now at items result }
{
    if at >= bytes.len() {
        return Err(Refusal::Message { at });
    }
    read_kind(bytes, at, items)
}

// The message by the kind that stands at `at`.
#[tactic(auto, using(std::proofs::lemmas::Bool::Decides::nat_tests), unfolding(crate::specs::Messages::reads))]
fn read_kind(bytes: &[u8], at: usize, items: usize) -> Result<(Message, usize), Refusal>
    requires { at < length bytes.now }
    ensures { Read bytes.now at items result }
{
    match Kind::try_from(bytes[at]).map_err(|_| Refusal::Message { at })? {
        Kind::PayIn => {
            let (account, amount) = account_and_number(bytes, at)?;
            Ok((Message::PayIn { account, amount }, 11))
        }
        Kind::PayOut => {
            let (account, amount) = account_and_number(bytes, at)?;
            Ok((Message::PayOut { account, amount }, 11))
        }
        Kind::Place => read_place(bytes, at),
        Kind::Cancel => {
            let (account, number) = account_and_number(bytes, at)?;
            Ok((Message::Cancel { account, number }, 11))
        }
        Kind::EndDay => {
            // So many items may be told of that their bytes are past counting.
            if items > (bytes.len() - at - 1) / 8 {
                return Err(Refusal::Message { at });
            }
            Ok((Message::EndDay { prices: at + 1 }, 1 + 8 * items))
        }
        Kind::BeginDay => Ok((Message::BeginDay, 1)),
    }
}
