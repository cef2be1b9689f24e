// Numbers in text.
ghost use Rattle.text.specs.Words.{number};
ghost use Rattle.std.specs.Prelude.{◌≡◌};

// The number that the word is, if it has one digit at least and nothing else, and is at most 2^50.
// std's `parse` would also take a leading '+'.
#[tactic(auto, using(crate::proofs::Numerals::digits_next), unfolding(crate::specs::Words::number, crate::specs::Words::digits_on))]
pub(crate) fn number_in(word: &[u8]) -> Option<u64>
    ensures { result ≡ number word.now }
{
    if word.is_empty() {
        return None;
    }
    let mut n: u64 = 0;
    for &b in word {
        if !b.is_ascii_digit() {
            return None;
        }
        n = n * 10 + u64::from(b - b'0');
        if n > 1_125_899_906_842_624 {
            return None;
        }
    }
    Some(n)
}
