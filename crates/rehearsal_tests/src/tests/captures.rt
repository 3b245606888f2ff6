//! The plain session under every plan: its output byte for byte, and its report.
use super::rehearsed::{has_output, under_every_plan};
use worked_sessions::sessions::PLAIN_SESSION;
use worked_sessions::written_frames::session_written;

// The report of the plain session without a proxy.
pub const PLAIN_REPORT: &str =
    "scenario 0 records 7 rest 0 segment 7 short 0 notipv4 0 badipv4 0 fragment 0 nottcp 0 cut 0 badtcp 0 sameends 0\nconnections 1 unopened 0\n0 10.0.0.1:40000 > 10.0.0.2:80 proxy - up 5/5/0 fin+2000 max 0 down 0/0/0 fin+3000 max 0\n";

// Its file and what is written of it were made by another program.
#[test]
fn the_plain_session(rt: HostRuntime) {
    let written = session_written(rt.alloc()).expect(&rt, "memory");
    let outputs = under_every_plan(&rt, rt.alloc(), &PLAIN_SESSION).expect(&rt, "one answer");
    let good = has_output(outputs.as_slice(), &written, PLAIN_REPORT);
    assert!(rt; good);
}
