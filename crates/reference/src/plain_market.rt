// The plain market, ready to hear messages.
ghost use Rattle.std.specs.Prelude.{◌≡◌, suc, ◌*◌, ◌≤◌, max, true, length, vec_capacity};
ghost use Rattle.disc.specs.Numbers.{counts_fit};
ghost use Rattle.reference.specs.Means.{limits_of, world_of};
ghost use Rattle.venue.specs.Sound.{Sound};
ghost use Rattle.wire.specs.Means.{kinds_of};

use crate::market::Told;
use wire::Kinds;

pub mod asking;
pub mod hearing;
pub mod making;

// All memory is got when it is made: room for every order that may stand, and for every report that a message may have.
#[derive(Drop)]
pub struct PlainMarket {
    kinds: Kinds,
    told: Told,
    ghost sound: { Sound (limits_of told.market.limits (kinds_of kinds)) (world_of told.market) },
    ghost sized: { counts_fit (length (world_of told.market).items) (length (world_of told.market).accounts) told.market.limits.orders told.market.limits.money ≡ true },
    ghost room: { suc (max told.market.limits.orders (length (world_of told.market).accounts * length (world_of told.market).items)) ≤ vec_capacity told.reports },
}
