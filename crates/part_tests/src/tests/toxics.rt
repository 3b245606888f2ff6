//! Random words, what applies, and the ranges of toxics, with values from outside.
use super::checks::check;
use std::process::Abort;
use toxic_defs::{Key, Kind, Toxic, applies, word};

// The seed, the scenario, the connection, the direction and the toxic of the drawn words.
#[test]
fn words_and_what_applies(rt: HostRuntime) {
    let key = Key {
        seed: 42,
        s: 0,
        c: 3,
        d: 0,
        t: 6,
    };
    check(&rt, "word 0", word(key, 0) == 0xa15c_02b7);
    check(&rt, "word 1", word(key, 1) == 0x7b47_f409);
    check(&rt, "word 2", word(key, 2) == 0xba1d_3330);
    let below = Toxic::new(Kind::Bandwidth { rate: 1 }, 161_783).expect(&rt, "a toxic");
    check(&rt, "at the word", !applies(&below, key));
    let above = Toxic::new(Kind::Bandwidth { rate: 1 }, 161_784).expect(&rt, "a toxic");
    check(&rt, "above the word", applies(&above, key));
}

// That a kind of toxic is in range or not, and that no more than a million in a million is.
fn check_kind(rt: &impl Abort, kind: Kind, fits: bool) {
    let new = Toxic::new(kind, 1_000_000).is_some();
    let over = Toxic::new(kind, 1_000_001).is_some();
    check(
        rt,
        "a kind in range",
        kind.fits() == fits && new == fits && !over,
    );
}

// A latency, of milliseconds.
fn latency(latency: u64, jitter: u64) -> Kind {
    Kind::Latency { latency, jitter }
}

// A slicer, of bytes and microseconds.
fn slicer(average_size: u64, size_variation: u64, delay: u64) -> Kind {
    Kind::Slicer {
        average_size,
        size_variation,
        delay,
    }
}

#[test]
fn borders_of_ranges(rt: HostRuntime) {
    let most = 1_000_000_000;
    check_kind(&rt, latency(most, most), true);
    check_kind(&rt, latency(most + 1, 0), false);
    check_kind(&rt, latency(0, most + 1), false);
    check_kind(&rt, Kind::Bandwidth { rate: 0 }, false);
    check_kind(&rt, Kind::Bandwidth { rate: 1 }, true);
    check_kind(&rt, Kind::Bandwidth { rate: 1_000_000 }, true);
    check_kind(&rt, Kind::Bandwidth { rate: 1_000_001 }, false);
    check_kind(&rt, Kind::SlowClose { delay: most }, true);
    check_kind(&rt, Kind::SlowClose { delay: most + 1 }, false);
    check_kind(&rt, Kind::Timeout { timeout: most }, true);
    check_kind(&rt, Kind::Timeout { timeout: most + 1 }, false);
    check_kind(&rt, Kind::ResetPeer { timeout: most }, true);
    check_kind(&rt, Kind::ResetPeer { timeout: most + 1 }, false);
    let bytes = 1_000_000_000_000;
    check_kind(&rt, Kind::LimitData { bytes }, true);
    let bytes = 1_000_000_000_001;
    check_kind(&rt, Kind::LimitData { bytes }, false);
}

#[test]
fn borders_of_slicers(rt: HostRuntime) {
    let most = 1_000_000_000;
    check_kind(&rt, slicer(1, 0, most), true);
    check_kind(&rt, slicer(0, 0, 0), false);
    check_kind(&rt, slicer(most, most - 1, 0), true);
    check_kind(&rt, slicer(most + 1, 0, 0), false);
    check_kind(&rt, slicer(5, 5, 0), false);
    check_kind(&rt, slicer(1, 0, most + 1), false);
}
