// What the market answers.

#[derive(Clone, Copy, Debug, PartialEq, Eq)]
pub enum Report {
    // `number` is the new order's, or 0 where the message placed none. No Option: the report's bytes and its line have this number.
    Taken {
        number: u64,
    },
    Refused,
    Trade {
        newer: u64,
        older: u64,
        item: u16,
        price: u32,
        quantity: u32,
    },
    // `held` is what was taken from the account's holding, with its sign.
    Torn {
        account: u16,
        other: u16,
        item: u16,
        held: i64,
    },
}
