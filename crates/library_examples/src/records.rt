//! Records of a text with quotes, empty lines and a byte order mark.
use csv_records::{ByteRecord, Records};
use std::alloc::Global;

// The numbers of fields that the first reads give, 0 where there is no record.
fn lengths(alloc: Global, text: &[u8], reads: usize) -> Option<Vec<usize>> {
    let mut records = Records::new(alloc, text);
    let mut record = ByteRecord::new(alloc);
    let mut lengths = Vec::new(alloc);
    for _read in 0..reads {
        records.read(&mut record).ok()?;
        lengths.push(record.len()).ok()?;
    }
    Some(lengths)
}

#[test]
fn records_come_one_at_a_time(rt: HostRuntime) {
    let text = b"\xEF\xBB\xBFy,1,10\r\n\n\"a,b\"\ny,,".as_slice();
    let is_right = match lengths(rt.alloc(), text, 5) {
        Some(lengths) => lengths.as_slice() == [3, 1, 3, 0, 0].as_slice(),
        None => false,
    };
    assert!(rt; is_right);
}
