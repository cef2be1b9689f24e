// Where everything lies on a disc, in blocks of 512 bytes.
ghost use Rattle.std.specs.Prelude.{◌≡◌, ◌≤◌};
ghost use Rattle.disc.specs.Layout.{body_blocks, disc_blocks, first_blocks, least_journal, needed_bytes};

pub const BLOCK: usize = 512;

// What a disc's length depends on, each within its limit.
#[derive(Clone, Copy, Debug, PartialEq, Eq)]
pub(crate) struct Sizes {
    pub items: usize,
    pub accounts: usize,
    pub orders: usize,
    ghost few_items: { items ≤ 256 },
    ghost few_accounts: { accounts ≤ 4096 },
    ghost few_orders: { orders ≤ 65536 },
}

impl Sizes {
    // The blocks of the first market.
    pub fn first_blocks(self) -> usize
        ensures value { result ≡ first_blocks self.items }
        ensures bound { result ≤ 5 }
    {
        (24 + 8 * self.items).div_ceil(BLOCK)
    }

    // The blocks of a checkpoint's body.
    pub fn body_blocks(self) -> usize
        ensures value { result ≡ body_blocks self.items self.accounts self.orders }
        ensures bound { result ≤ 22601 }
    {
        let words = 8 + 2 * self.items + self.accounts * (1 + self.items) + 6 * self.orders;
        words.div_ceil(64)
    }

    // The blocks that a journal has at least.
    pub fn least_journal(self) -> usize
        ensures value { result ≡ least_journal self.items }
        ensures bound { result ≤ 97 }
    {
        let content = (2 + 8 * self.items).div_ceil(BLOCK);
        16 * (1 + content) + 1
    }

    // All blocks of a disc with journals of so many blocks.
    pub fn disc_blocks(self, journal: usize) -> usize
        requires { journal ≤ 1048576 }
        ensures value { result ≡ disc_blocks self.items self.accounts self.orders journal }
        ensures bound { result ≤ 2142362 }
    {
        self.first_blocks() + 1 + 2 * (1 + self.body_blocks() + journal)
    }

    // The least length of a disc, in bytes.
    pub fn needed_bytes(self) -> usize
        ensures { result ≡ needed_bytes self.items self.accounts self.orders }
    {
        BLOCK * self.disc_blocks(self.least_journal())
    }
}
