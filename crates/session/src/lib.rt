// What the programs `plain` and `market` have in common: a disc, a file of messages, and the reports as lines.
#![tactic(auto)]

pub mod playing;
pub mod programs;
pub mod stepping;
pub mod unplayed;

pub use playing::play;
pub use programs::program;
pub use stepping::step;
pub use unplayed::Unplayed;
