// Messages, reports and refusals as types, and their bytes.
#![tactic(auto)]

pub mod array;
pub mod encode;
pub mod field;
mod fixed;
pub mod item;
pub mod kind;
pub mod kinds;
pub mod laws;
pub mod message;
pub mod read;
pub mod refusal;
pub mod report;
pub mod report_kind;
pub mod report_read;
pub mod report_rows;
pub mod report_write;
pub mod row;
pub mod side;
#[cfg(test)]
mod tests;
pub mod unknown;
pub mod unwritten;
pub mod write;

pub use array::InArray;
pub use encode::Encode;
pub use field::Field;
pub use item::Item;
pub use kind::Kind;
pub use kinds::Kinds;
pub use message::Message;
pub use read::read_message;
pub use refusal::Refusal;
pub use report::Report;
pub use report_kind::ReportKind;
pub use report_read::read_report;
pub use report_rows::{Unread, read_reports};
pub use report_write::{write_report, write_reports};
pub use row::Row;
pub use side::Side;
pub use unknown::UnknownByte;
pub use unwritten::Unwritten;
pub use write::{write_end_day, write_message};
