// The theorems about the plain market, each as a function whose contract is the statement.
#![tactic(auto)]

pub mod laws_of_days;
pub mod laws_of_members;
pub mod laws_of_orders;
pub mod promises;
pub mod ranges;
pub mod soundness;
pub mod trading;

// A small instance, proved: how much two orders trade.
ghost use Rattle.std.specs.Prelude.{◌≡◌};
ghost use Rattle.venue.specs.World.{lesser};

pub fn traded(a: u64, b: u64) -> u64
    ensures { result ≡ lesser a b }
{
    a.min(b)
}
