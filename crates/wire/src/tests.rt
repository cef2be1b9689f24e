// Bytes that were worked out by hand from the layouts of messages and reports; and that each writer succeeds where there is memory.
use super::*;
use std::test::Fail;

#[test]
fn messages_have_their_bytes(rt: HostRuntime) -> Result<(), Fail> {
    let evening = [5, 7, 0, 0, 0, 9, 0, 0, 0];
    let mut out = Vec::new(rt.alloc());
    let pay_out = Message::PayOut {
        account: 258,
        amount: 5,
    };
    write_message(&pay_out, &evening, 1, &mut out)?;
    let place = Message::Place {
        account: 1,
        item: 2,
        side: Side::Sell,
        price: 65539,
        quantity: 4,
    };
    write_message(&place, &evening, 1, &mut out)?;
    write_message(&Message::EndDay { prices: 1 }, &evening, 1, &mut out)?;
    write_message(&Message::BeginDay, &evening, 1, &mut out)?;
    assert_eq!(rt;
        out.as_slice(),
        [
            2, 2, 1, 5, 0, 0, 0, 0, 0, 0, 0, 3, 1, 0, 2, 0, 1, 3, 0, 1, 0, 4, 0, 0, 0, 5, 7, 0, 0,
            0, 9, 0, 0, 0, 6
        ]
        .as_slice()
    );
    assert_eq!(rt; read_message(&out, 0, 1), Ok((pay_out, 11)));
    assert_eq!(rt; read_message(&out, 11, 1), Ok((place, 14)));
    Ok(())
}

#[test]
fn payments_and_cancels_come_back(rt: HostRuntime) -> Result<(), Fail> {
    let mut out = Vec::new(rt.alloc());
    let pay_in = Message::PayIn {
        account: 3,
        amount: 256,
    };
    write_message(&pay_in, &[], 1, &mut out)?;
    let cancel = Message::Cancel {
        account: 4,
        number: 7,
    };
    write_message(&cancel, &[], 1, &mut out)?;
    assert_eq!(rt;
        out.as_slice(),
        [
            1, 3, 0, 0, 1, 0, 0, 0, 0, 0, 0, 4, 4, 0, 7, 0, 0, 0, 0, 0, 0, 0
        ]
        .as_slice()
    );
    assert_eq!(rt; read_message(&out, 0, 1), Ok((pay_in, 11)));
    assert_eq!(rt; read_message(&out, 11, 1), Ok((cancel, 11)));
    Ok(())
}

#[test]
fn evening_has_its_bytes(rt: HostRuntime) -> Result<(), Fail> {
    let mut out = Vec::new(rt.alloc());
    let items = [
        Item { price: 7, band: 9 },
        Item {
            price: 256,
            band: 1,
        },
    ];
    write_end_day(&items, &mut out)?;
    assert_eq!(rt;
        out.as_slice(),
        [5, 7, 0, 0, 0, 9, 0, 0, 0, 0, 1, 0, 0, 1, 0, 0, 0].as_slice()
    );
    assert_eq!(rt;
        read_message(&out, 0, 2),
        Ok((Message::EndDay { prices: 1 }, 17))
    );
    assert_eq!(rt;
        Item::read(&out, 9),
        Item {
            price: 256,
            band: 1
        }
    );
    Ok(())
}

#[test]
fn reports_have_their_bytes(rt: HostRuntime) -> Result<(), Fail> {
    let mut out = Vec::new(rt.alloc());
    write_report(&Report::Taken { number: 3 }, &mut out)?;
    let trade = Report::Trade {
        newer: 2,
        older: 1,
        item: 4,
        price: 5,
        quantity: 6,
    };
    write_report(&trade, &mut out)?;
    assert_eq!(rt;
        out.as_slice(),
        [
            0, 3, 0, 0, 0, 0, 0, 0, 0, 2, 2, 0, 0, 0, 0, 0, 0, 0, 1, 0, 0, 0, 0, 0, 0, 0, 4, 0, 5,
            0, 0, 0, 6, 0, 0, 0
        ]
        .as_slice()
    );
    Ok(())
}

#[test]
fn reports_come_back_together(rt: HostRuntime) -> Result<(), Fail> {
    let torn = Report::Torn {
        account: 1,
        other: 2,
        item: 3,
        held: -2,
    };
    let mut out = Vec::new(rt.alloc());
    write_reports(&[Report::Refused, torn], &mut out)?;
    assert_eq!(rt;
        out.as_slice(),
        [
            2, 0, 0, 0, 1, 3, 1, 0, 2, 0, 3, 0, 254, 255, 255, 255, 255, 255, 255, 255
        ]
        .as_slice()
    );
    let mut reports = Vec::new(rt.alloc());
    assert_eq!(rt; read_reports(&out, 0, &mut reports), Ok(20));
    assert_eq!(rt; reports.as_slice(), [Report::Refused, torn].as_slice());
    Ok(())
}

#[test]
fn errors_are_printed(rt: HostRuntime) -> Result<(), Fail> {
    let heap = rt.alloc();
    let memory = format!(in heap; "{}; {}", Unwritten::Memory, Unread::Memory)?;
    assert_eq!(rt;
        memory.as_str(),
        "there is no memory for the bytes; there is no memory for the reports"
    );
    let prices = format!(in heap; "{}", Unwritten::Prices)?;
    assert_eq!(rt;
        prices.as_str(),
        "the prices of an end of day are not in the bytes that it was read from"
    );
    let many = format!(in heap; "{}", Unwritten::Many)?;
    assert_eq!(rt;
        many.as_str(),
        "there are more reports than four bytes can count"
    );
    let none = format!(in heap; "{}; {}", Unread::NoReports, UnknownByte(9))?;
    assert_eq!(rt;
        none.as_str(),
        "the bytes are no reports with their number in front; the byte 9 stands for nothing here"
    );
    Ok(())
}
