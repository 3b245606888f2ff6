//! Dumps, and the lines of faults.
use run_files::{RunFault, fault_line, is_dump, memory_line, undump};
use std::alloc::AllocGlobal;
use std::process::Abort;

// A dump's bytes, or the place of its fault.
fn check_dump(rt: &(impl Abort + AllocGlobal), text: &str, expected: Result<&[u8], usize>) {
    let good = match (undump(rt.alloc(), text.as_bytes()), expected) {
        (Ok(bytes), Ok(expected)) => bytes.as_slice() == expected,
        (Err(RunFault::BadDump { at }), Err(place)) => at == place,
        _ => false,
    };
    assert!(rt; good, "{text:?}");
}

#[test]
fn dumps(rt: HostRuntime) {
    check_dump(&rt, "D4\nc3", Ok(&[0xd4, 0xc3]));
    check_dump(&rt, "1 a\tC\r\n3 ", Ok(&[0x1a, 0xc3]));
    check_dump(&rt, "\n\n 1aC3", Ok(&[0x1a, 0xc3]));
    check_dump(&rt, " \t\r\n", Ok(&[]));
    check_dump(&rt, "d4c", Err(3));
    check_dump(&rt, "d4 zz", Err(3));
    check_dump(&rt, "d4 c\n", Err(5));
    check_dump(&rt, "d4cz", Err(3));
    check_dump(&rt, "d4\x0bc3", Err(2));
    check_dump(&rt, "0x", Err(1));
}

// Whether a text that begins so is read as a dump.
fn check_start(rt: &impl Abort, text: &[u8], expected: bool) {
    let good = is_dump(text) == expected;
    assert!(rt; good, "{text:?}");
}

#[test]
fn first_byte_of_a_dump(rt: HostRuntime) {
    check_start(&rt, b"0", true);
    check_start(&rt, b"9x", true);
    check_start(&rt, b"a1b2cd34", true);
    check_start(&rt, b"F ", true);
    check_start(&rt, b"", false);
    check_start(&rt, b" d4", false);
    check_start(&rt, b"g", false);
    check_start(&rt, b"/", false);
    check_start(&rt, b"\xd4\xc3", false);
    check_start(&rt, b"\xa1\xb2", false);
}

// What is told of a fault.
fn check_line(rt: &(impl Abort + AllocGlobal), fault: RunFault, expected: &str) {
    let good = match fault_line(rt.alloc(), &fault) {
        Ok(line) => line.as_str() == expected,
        Err(_) => false,
    };
    assert!(rt; good, "{expected}");
}

#[test]
fn lines_of_faults(rt: HostRuntime) {
    check_line(&rt, RunFault::ShortHeader, "refused 1 ShortHeader");
    check_line(&rt, RunFault::BadMagic, "refused 2 BadMagic");
    check_line(&rt, RunFault::BadVersion, "refused 3 BadVersion");
    check_line(&rt, RunFault::BadLink, "refused 4 BadLink");
    check_line(
        &rt,
        RunFault::RecordTooLong { at: 0 },
        "refused 5 RecordTooLong at 0",
    );
    check_line(
        &rt,
        RunFault::RecordTooLong { at: 4294967295 },
        "refused 5 RecordTooLong at 4294967295",
    );
    check_line(&rt, RunFault::CaptureTooLong, "refused 6 CaptureTooLong");
    check_line(
        &rt,
        RunFault::TooManyScenarios,
        "refused 22 TooManyScenarios",
    );
    check_line(
        &rt,
        RunFault::BadHost { at: 1 },
        "refused 23 BadHost host 1",
    );
    check_line(&rt, RunFault::Memory, "refused 40 Memory");
    assert!(rt; memory_line() == "refused 40 Memory");
    check_line(
        &rt,
        RunFault::BadDump { at: 30 },
        "refused 55 BadDump at 30",
    );
    check_line(
        &rt,
        RunFault::ShelfFailed { after: 3 },
        "refused 60 ShelfFailed after 3",
    );
    check_line(&rt, RunFault::ReadFailed, "refused 61 ReadFailed");
    check_line(&rt, RunFault::WriteFailed, "refused 62 WriteFailed");
}
