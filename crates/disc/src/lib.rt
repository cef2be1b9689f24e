// A disc's first blocks, where everything else lies on it, and new discs.
#![tactic(auto)]

pub mod few;
pub mod header;
pub mod layout;
pub mod making;
pub mod new_disc;

pub use few::{Few, NoRoom};
pub use header::reading::read;
pub use header::{BLANK, Header, OutOfRange};
pub use making::NotMade;
pub use new_disc::make;
