// The plain market as a program: everything is counted anew for each message.
// `as` stands where a cast is proved to lose nothing: `try_from` would have an error that cannot come.
#![tactic(auto)]

mod cancelling;
mod evening;
mod filling;
mod limits;
mod market;
mod matching;
mod morning;
mod moves;
mod needs;
mod obeying;
mod paying;
mod placing;
pub mod plain_market;
mod trades;

pub use plain_market::PlainMarket;
