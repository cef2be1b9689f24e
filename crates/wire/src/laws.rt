// What is written is read, and only that: each theorem is a function's contract, and one function for each, since a contract has no theorem as its parameter.
ghost use Rattle.std.specs.Prelude.{◌^◌, ◌<◌, FitsSigned};
ghost use Rattle.std.specs.Int.{w64};
ghost use Rattle.wire.specs.Field.{FieldLaws};
ghost use Rattle.wire.specs.Laws.{MessageBack, MessageOnly, ReportBack, ReportOnly, ReportsBack, ReportsOnly};
ghost use Rattle.wire.specs.Means.{item_fits};

use crate::encode::Encode;
use crate::field::Field;
use crate::item::Item;

// Each type that has both traits: a value that fits is read where its bytes stand, and what is read fits and has those bytes.
pub fn fields_keep_laws()
    ensures u16 { FieldLaws ⟦<u16 as Field>⟧.size ⟦<u16 as Encode>⟧.bytes ⟦<u16 as Field>⟧.at (λ x. x < 2 ^ 16) }
    ensures u32 { FieldLaws ⟦<u32 as Field>⟧.size ⟦<u32 as Encode>⟧.bytes ⟦<u32 as Field>⟧.at (λ x. x < 2 ^ 32) }
    ensures u64 { FieldLaws ⟦<u64 as Field>⟧.size ⟦<u64 as Encode>⟧.bytes ⟦<u64 as Field>⟧.at (λ x. x < 2 ^ 64) }
    ensures i64 { FieldLaws ⟦<i64 as Field>⟧.size ⟦<i64 as Encode>⟧.bytes ⟦<i64 as Field>⟧.at (λ x. FitsSigned w64 x) }
    ensures item { FieldLaws ⟦<Item as Field>⟧.size ⟦<Item as Encode>⟧.bytes ⟦<Item as Field>⟧.at item_fits }
{}

// A message that fits is read where its bytes stand.
pub fn message_back()
    ensures { MessageBack }
{}

// Bytes that are read as a message are those that writing it gives.
pub fn message_only()
    ensures { MessageOnly }
{}

// A report that fits is read where its bytes stand.
pub fn report_back()
    ensures { ReportBack }
{}

// Bytes that are read as a report are those that writing it gives.
pub fn report_only()
    ensures { ReportOnly }
{}

// A message's reports are read together where their bytes stand.
pub fn reports_back()
    ensures { ReportsBack }
{}

// Bytes that are read as reports together are those that writing them gives.
pub fn reports_only()
    ensures { ReportsOnly }
{}
