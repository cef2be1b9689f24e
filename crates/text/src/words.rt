// Lines and words in the bytes of a text.
ghost use Rattle.std.specs.Prelude.{◌≡◌, ◌<◌, ◌≤◌, ◌∷◌, length};
ghost use Rattle.std.specs.List.{prefix_len};
ghost use Rattle.text.specs.Words.{after_word, before_comment, blank, first_word, letter, lines, other_than};

// Three counts, each one chain of the library. They are functions of their own, since the check does not find what a chain counts where its
// function goes on with the count (tried).

// How many bytes stand before the first that is `stop`.
fn until(bytes: &[u8], stop: u8) -> usize
    ensures count { result ≡ prefix_len (other_than stop) bytes.now }
    ensures within { result ≤ length bytes.now }
{
    bytes.iter().take_while(|b| **b != stop).count()
}

fn is_blank(byte: u8) -> bool
    ensures { result ≡ blank byte }
{
    matches!(byte, b' ' | b'\t' | b'\r')
}

// How many blanks the bytes begin with.
fn blanks(bytes: &[u8]) -> usize
    ensures count { result ≡ prefix_len blank bytes.now }
    ensures within { result ≤ length bytes.now }
{
    bytes.iter().take_while(|b| is_blank(**b)).count()
}

// How many bytes stand before the first blank.
fn letters(bytes: &[u8]) -> usize
    ensures count { result ≡ prefix_len letter bytes.now }
    ensures within { result ≤ length bytes.now }
{
    bytes.iter().take_while(|b| !is_blank(**b)).count()
}

// The first word, and what stands behind it.
#[tactic(auto, unfolding(crate::specs::Words::first_word, crate::specs::Words::after_word))]
pub(crate) fn first_word(bytes: &[u8]) -> (&[u8], &[u8])
    ensures word { result.0.now ≡ first_word bytes.now }
    ensures behind { result.1.now ≡ after_word bytes.now }
{
    let from = &bytes[blanks(bytes)..];
    from.split_at(letters(from))
}

// The first line without its line feed, and what stands behind that.
pub(crate) fn first_line(bytes: &[u8]) -> (&[u8], &[u8])
    ensures lines { 0 < length bytes.now → lines bytes.now ≡ result.0.now ∷ lines result.1.now }
    ensures shorter { 0 < length bytes.now → length result.1.now < length bytes.now }
{
    match bytes.iter().position(|b| *b == b'\n') {
        Some(end) => (&bytes[..end], &bytes[end + 1..]),
        None => (bytes, &[]),
    }
}

// A line without its comment.
pub(crate) fn without_comment(line: &[u8]) -> &[u8]
    ensures { result.now ≡ before_comment line.now }
{
    &line[..until(line, b'#')]
}
