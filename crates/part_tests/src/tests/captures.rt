//! Reading and writing captures.
use super::checks::check;
use pcap_records::{
    Capture, CaptureFault, Moment, Order, Unit, read_capture, write_header, write_record,
};
use std::alloc::{AllocError, AllocGlobal};
use std::process::Abort;
use worked_sessions::sessions::{PLAIN_SESSION, file, session};

pub(super) const BIG: [u8; 24] = [
    0xa1, 0xb2, 0xc3, 0xd4, 0, 2, 0, 4, 0, 0, 0, 0, 0, 0, 0, 0, 0, 0, 0xff, 0xff, 0, 0, 0, 1,
];

pub(super) const LITTLE: [u8; 24] = [
    0xd4, 0xc3, 0xb2, 0xa1, 2, 0, 4, 0, 0, 0, 0, 0, 0, 0, 0, 0, 0xff, 0xff, 0, 0, 1, 0, 0, 0,
];

const BIG_NANOS: [u8; 24] = [
    0xa1, 0xb2, 0x3c, 0x4d, 0, 2, 0, 4, 0, 0, 0, 0, 0, 0, 0, 0, 0, 0, 0xff, 0xff, 0, 0, 0, 1,
];

const LITTLE_NANOS: [u8; 24] = [
    0x4d, 0x3c, 0xb2, 0xa1, 2, 0, 4, 0, 0, 0, 0, 0, 0, 0, 0, 0, 0xff, 0xff, 0, 0, 1, 0, 0, 0,
];

// A field of four bytes.
fn field(order: Order, number: u32) -> [u8; 4] {
    match order {
        Order::Big => number.to_be_bytes(),
        Order::Little => number.to_le_bytes(),
    }
}

// Appends a record's header that announces `len` bytes.
pub(super) fn put_record_header(
    file: &mut Vec<u8>,
    order: Order,
    stamp: (u32, u32),
    len: u32,
) -> Result<(), AllocError> {
    file.extend_from_slice(&field(order, stamp.0))?;
    file.extend_from_slice(&field(order, stamp.1))?;
    file.extend_from_slice(&field(order, len))?;
    file.extend_from_slice(&field(order, len))
}

// That a file of this header, and then of one record at a second and 1,500,000,000 ticks, has this unit, and its record this stamp.
fn check_unit(
    rt: &(impl Abort + AllocGlobal),
    header: &[u8],
    order: Order,
    (unit, stamp): (Unit, u64),
) {
    let mut file = Vec::from_slice(rt.alloc(), header).expect(rt, "memory");
    put_record_header(&mut file, order, (1, 1_500_000_000), 0).expect(rt, "memory");
    let told = match read_capture(rt.alloc(), &file) {
        Ok(capture) => match capture.records() {
            [record] => capture.unit() == unit && record.stamp.count() == stamp,
            _ => false,
        },
        Err(_) => false,
    };
    check(rt, "unit and stamp", told);
}

// The magic numbers of microseconds and of nanoseconds, in both orders.
#[test]
fn units(rt: HostRuntime) {
    let micros = (Unit::Micros, 1_501_000_000);
    let nanos = (Unit::Nanos, 2_500_000_000);
    check_unit(&rt, &BIG, Order::Big, micros);
    check_unit(&rt, &BIG_NANOS, Order::Big, nanos);
    check_unit(&rt, &LITTLE, Order::Little, micros);
    check_unit(&rt, &LITTLE_NANOS, Order::Little, nanos);
}

#[test]
fn too_long_a_file(rt: HostRuntime) {
    let zeros = vec![in rt.alloc(); 0u8; (1 << 30) + 1].expect(&rt, "memory");
    let over = read_capture(rt.alloc(), &zeros);
    let refused = matches!(over, Err(CaptureFault::CaptureTooLong));
    check(&rt, "a byte over", refused);
    let limit = read_capture(rt.alloc(), zeros.get(1..).unwrap_or(&[]));
    let refused = matches!(limit, Err(CaptureFault::BadMagic));
    check(&rt, "the limit", refused);
}

// Whether a record of a capture has this stamp, and its packet is these bytes of the file.
fn has_record(capture: &Capture<'_>, i: usize, micros: u64, start: usize, len: usize) -> bool {
    match capture.records().get(i) {
        Some(record) => {
            record.stamp.count() == micros
                && record.start as usize == start
                && record.len as usize == len
                && PLAIN_SESSION.get(start..start + len.min(60)) == Some(capture.packet(i))
        }
        None => false,
    }
}

#[test]
fn the_plain_session(rt: HostRuntime) {
    let capture = read_capture(rt.alloc(), &PLAIN_SESSION).expect(&rt, "a capture");
    let order = capture.order() == Order::Little && capture.rest() == 0;
    check(&rt, "order", order && capture.records().len() == 7);
    check(&rt, "0", has_record(&capture, 0, 1_000_000, 40, 54));
    check(&rt, "1", has_record(&capture, 1, 1_000_100, 110, 54));
    check(&rt, "2", has_record(&capture, 2, 1_000_200, 180, 54));
    check(&rt, "3", has_record(&capture, 3, 1_001_000, 250, 59));
    check(&rt, "4", has_record(&capture, 4, 1_002_000, 325, 54));
    check(&rt, "5", has_record(&capture, 5, 1_003_000, 395, 54));
    check(&rt, "6", has_record(&capture, 6, 1_003_100, 465, 54));
}

#[test]
fn the_plain_session_in_the_other_order(rt: HostRuntime) {
    let file = file(rt.alloc(), false, &session()).expect(&rt, "memory");
    let little = read_capture(rt.alloc(), &PLAIN_SESSION).expect(&rt, "a capture");
    let big = read_capture(rt.alloc(), &file).expect(&rt, "a capture");
    let order = big.order() == Order::Big && big.rest() == 0;
    check(&rt, "order", order);
    let same = big.records() == little.records();
    check(&rt, "records", same);
}

#[test]
fn written_bytes(rt: HostRuntime) {
    let unit = Unit::Micros;
    let mut out = Vec::from_slice(rt.alloc(), b"!").expect(&rt, "memory");
    write_header(&mut out, unit).expect(&rt, "memory");
    write_record(&mut out, Moment::of(1_000_100, unit), &[7, 8], unit).expect(&rt, "memory");
    let last = Moment::of(4_294_967_295_999_999, unit);
    write_record(&mut out, last, &[], unit).expect(&rt, "memory");
    let want: [u8; 59] = [
        b'!', 0xd4, 0xc3, 0xb2, 0xa1, 2, 0, 4, 0, 0, 0, 0, 0, 0, 0, 0, 0, 0xff, 0xff, 0, 0, 1, 0,
        0, 0, 1, 0, 0, 0, 100, 0, 0, 0, 2, 0, 0, 0, 2, 0, 0, 0, 7, 8, 0xff, 0xff, 0xff, 0xff, 0x3f,
        0x42, 0x0f, 0, 0, 0, 0, 0, 0, 0, 0, 0,
    ];
    check(&rt, "bytes", out.as_slice() == want.as_slice());
}

#[test]
fn written_bytes_in_nanoseconds(rt: HostRuntime) {
    let unit = Unit::Nanos;
    let mut out = Vec::new(rt.alloc());
    write_header(&mut out, unit).expect(&rt, "memory");
    let last = Moment::of(4_294_967_295_999_999_999, unit);
    write_record(&mut out, last, &[9], unit).expect(&rt, "memory");
    let want: [u8; 41] = [
        0x4d, 0x3c, 0xb2, 0xa1, 2, 0, 4, 0, 0, 0, 0, 0, 0, 0, 0, 0, 0xff, 0xff, 0, 0, 1, 0, 0, 0,
        0xff, 0xff, 0xff, 0xff, 0xff, 0xc9, 0x9a, 0x3b, 1, 0, 0, 0, 1, 0, 0, 0, 9,
    ];
    check(&rt, "bytes", out.as_slice() == want.as_slice());
}

// The maker of captures for the tests is checked by a file from outside.
#[test]
fn the_plain_session_is_the_one_from_outside(rt: HostRuntime) {
    let made = file(rt.alloc(), true, &session()).expect(&rt, "memory");
    check(&rt, "bytes", made.as_slice() == PLAIN_SESSION.as_slice());
}
