//! Instants: stamps that fall back, greatest stamps, and the horizon.
use super::captures::{LITTLE, put_record_header};
use super::checks::check;
use pcap_records::{Capture, Moment, Order, Unit, read_capture};
use std::alloc::{AllocError, AllocGlobal, Global};
use std::process::Abort;

// That the instants of a range of records after a carry are these, in microseconds.
fn check_times(
    rt: &(impl Abort + AllocGlobal),
    capture: &Capture<'_>,
    (from, to, carry): (usize, usize, u64),
    expected: &[u64],
) {
    if from > to || to > capture.records().len() {
        check(rt, "a range of the capture", false);
        return;
    }
    let carry = Moment::of(carry, Unit::Micros);
    let times = capture
        .times(rt.alloc(), from, to, carry)
        .expect(rt, "memory");
    let mut same = times.as_slice().len() == expected.len();
    for (time, expected) in times.as_slice().iter().zip(expected) {
        same = same && time.count() == *expected;
    }
    check(rt, "instants of a range", same);
}

// That the greatest stamp of a range is this.
fn check_peak(rt: &impl Abort, capture: &Capture<'_>, from: usize, to: usize, micros: u64) {
    let within = from <= to && to <= capture.records().len();
    let peak = within && capture.peak(from, to).count() == micros;
    check(rt, "greatest stamp of a range", peak);
}

// A file of five records whose stamps fall back, and whose last one is past the horizon.
fn falling(alloc: Global) -> Result<Vec<u8>, AllocError> {
    let mut file = Vec::from_slice(alloc, &LITTLE)?;
    put_record_header(&mut file, Order::Little, (5, 0), 0)?;
    put_record_header(&mut file, Order::Little, (4, 0), 0)?;
    put_record_header(&mut file, Order::Little, (4, 500_000), 0)?;
    put_record_header(&mut file, Order::Little, (1, 1_500_000), 0)?;
    put_record_header(&mut file, Order::Little, (u32::MAX, u32::MAX), 0)?;
    Ok(file)
}

#[test]
fn stamps_that_fall_back(rt: HostRuntime) {
    let file = falling(rt.alloc()).expect(&rt, "memory");
    let capture = read_capture(rt.alloc(), &file).expect(&rt, "a capture");
    let last = 4_294_967_296_000_000;
    let five = [5_000_000, 5_000_000, 5_000_000];
    check_times(&rt, &capture, (0, 3, 0), &five);
    check_times(&rt, &capture, (1, 3, 0), &[4_000_000, 4_500_000]);
    check_times(&rt, &capture, (1, 3, 4_200_000), &[4_200_000, 4_500_000]);
    check_times(&rt, &capture, (1, 3, 5_000_000), &five[1..]);
    check_times(&rt, &capture, (3, 4, 0), &[2_500_000]);
    check_times(&rt, &capture, (4, 5, 0), &[last]);
    check_times(&rt, &capture, (2, 2, 7), &[]);
    check_peak(&rt, &capture, 0, 3, 5_000_000);
    check_peak(&rt, &capture, 1, 2, 4_000_000);
    check_peak(&rt, &capture, 1, 3, 4_500_000);
    check_peak(&rt, &capture, 1, 4, 4_500_000);
    check_peak(&rt, &capture, 0, 5, last);
    check_peak(&rt, &capture, 2, 2, 0);
}

// Whether the instant after `ticks` ticks of a unit has this count.
fn counts(ticks: u64, unit: Unit, count: u64) -> bool {
    Moment::of(ticks, unit).count() == count
}

// Whether the instant after `ticks` ticks of a unit, and `more` later, has this count.
fn counts_later(ticks: u64, more: u64, unit: Unit, count: u64) -> bool {
    Moment::of(ticks, unit).later(more, unit).count() == count
}

// That the instants of a unit stop at this one.
fn check_horizon(rt: &impl Abort, unit: Unit, horizon: u64) {
    let last = horizon.saturating_sub(1);
    check(rt, "the last", counts(last, unit, last));
    check(rt, "the horizon", counts(horizon, unit, horizon));
    check(rt, "past it", counts(u64::MAX, unit, horizon));
    check(rt, "later", counts_later(last, 1, unit, horizon));
    check(rt, "no later", counts_later(horizon, 9, unit, horizon));
}

#[test]
fn instants_stop_at_the_horizon(rt: HostRuntime) {
    check_horizon(&rt, Unit::Micros, 4_294_967_296_000_000);
    check_horizon(&rt, Unit::Nanos, 4_294_967_296_000_000_000);
    let zero = Moment::first();
    let three = Moment::of(3, Unit::Micros);
    check(&rt, "zero", zero.count() == 0);
    check(&rt, "greater", zero.greater(three).count() == 3);
    check(&rt, "the other way", three.greater(zero).count() == 3);
}
