// The lines that programs print, and the files that describe a new market.
#![tactic(auto)]

pub mod draft;
pub mod entry;
pub mod fault;
pub mod lines;
pub mod number;
pub mod parse;
pub mod reader;
pub mod setup;
pub mod words;

pub use fault::{Fault, What};
pub use lines::{RefusalLine, ReportLine};
pub use reader::read_setup;
pub use setup::Setup;
