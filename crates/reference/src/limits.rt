// What a disc says of the most that a market may have.
ghost use Rattle.std.specs.Prelude.{◌≤◌};

#[derive(Clone, Copy, Debug, PartialEq, Eq)]
pub struct Limits {
    pub orders: usize,
    pub money: u64,
    ghost few: { orders ≤ 65536 },
    ghost small: { money ≤ 1125899906842624 },
}
