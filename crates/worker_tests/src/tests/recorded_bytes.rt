//! What a caller of `record` and `deliver` learns of recorded bytes, by the laws of deliveries.
//! The contracts of the callers here say it of the answers themselves.
ghost use Rattle.std.specs.Prelude.{◌≡◌, ◌≤◌, length, IfOk};
ghost use Rattle.std.specs.List.{AllByRecursion};
ghost use Rattle.toxic_defs.specs.Laws.{IsRecordedInTime};
ghost use Rattle.conn_workers.specs.Recordings.{whole_table, recordings_of};
ghost use Rattle.conn_workers.specs.DeliveryLaws.{IsOfScenario};

use super::checks::check;
use super::deliveries::{DELAYED, scenario, segments, whole_table};
use conn_table::Table;
use conn_workers::laws::{deliveries_are_recorded, recordings_are_in_time, rows_are_recorded};
use conn_workers::{Deliveries, Recordings, deliver, deliver_row_alone, record};
use job_matrix::{Plan, Through};
use pcap_records::{Capture, read_capture};
use scenarios::Scenario;
use std::alloc::{AllocError, Global};
use std::process::Abort;
use std::thread::Threads;
use worked_sessions::sessions::file;

// What is recorded of a capture, all of it between its connection's opening and the horizon.
fn recorded<'w, 'a, R: Threads + Sync>(
    rt: &R,
    alloc: Global,
    capture: &'w Capture<'a>,
    table: &'w Table,
    plan: Plan,
) -> Result<Recordings<'w, 'a>, AllocError>
    requires { table.now ≡ whole_table capture.now }
    ensures recordings { IfOk result (λ v. v ≡ recordings_of capture.now) }
    ensures in_time { IfOk result (λ v. AllByRecursion (λ r. IsRecordedInTime r.ticks r.recorded) v) }
{
    recordings_are_in_time(capture);
    record(rt, alloc, capture, table, plan, &Through)
}

// Deliveries of a capture with seed 42, each made of recorded bytes.
fn delivered<R: Threads + Sync>(
    rt: &R,
    alloc: Global,
    capture: &Capture<'_>,
    table: &Table,
    scenarios: &[Scenario],
    plan: Plan,
) -> Result<Deliveries, AllocError>
    requires table { table.now ≡ whole_table capture.now }
    requires few { length scenarios.now ≤ 256 }
    ensures { IfOk result (λ v. AllByRecursion (IsOfScenario capture.now 42 scenarios.now) v) }
{
    deliveries_are_recorded(capture, scenarios, 42);
    deliver(rt, alloc, capture, table, scenarios, 42, plan, &Through)
}

#[test]
fn recorded_bytes_are_delivered(rt: HostRuntime) {
    let alloc = rt.alloc();
    let bytes = file(alloc, true, &segments()).expect(&rt, "memory");
    let capture = read_capture(alloc, &bytes).expect(&rt, "a capture");
    let table = whole_table(alloc, &capture).expect(&rt, "memory");
    let plan = Plan::new(2, 4096).expect(&rt, "a plan");
    let scenarios = [scenario(&rt, alloc, &[DELAYED])];
    let made = delivered(&rt, alloc, &capture, &table, &scenarios, plan).expect(&rt, "memory");
    check(&rt, "deliveries", made.as_slice().len() == 2);
    let recordings = recorded(&rt, alloc, &capture, &table, plan).expect(&rt, "memory");
    if recordings.as_slice().len() != 2 {
        rt.panic("not two recordings");
    }
    rows_are_recorded(&capture, 0, &scenarios[0], 42);
    let row = deliver_row_alone(alloc, &recordings, 0, &scenarios[0], 42).expect(&rt, "memory");
    check(&rt, "a row", row.as_slice().len() == 1);
}
