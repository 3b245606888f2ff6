//! Each toxic under `rehearse`, in a session in nanoseconds whose frames have a tag.
use super::again::is_whole;
use super::rehearsed::{rehearsed_by, scenarios_of};
use std::alloc::AllocGlobal;
use std::process::Abort;
use std::sync::Wait;
use std::thread::Threads;
use toxicap::{Through, undump};

// The plain session in nanoseconds, with a tag of priority 7 and VLAN 7 in each frame.
const SESSION: &str = "4d3cb2a1 02000400 00000000 00000000 ffff0000 01000000
    01000000 00000000 3a000000 3a000000 0200000000020200000000018100e00708004500002800004000400600000a0000010a0000029c400050000003e8000000005002ffff00000000
    01000000 a0860100 3a000000 3a000000 0200000000010200000000028100e00708004500002800004000400600000a0000020a00000100509c4000001388000003e95012ffff00000000
    01000000 400d0300 3a000000 3a000000 0200000000020200000000018100e00708004500002800004000400600000a0000010a0000029c400050000003e9000013895010ffff00000000
    01000000 40420f00 3f000000 3f000000 0200000000020200000000018100e00708004500002d00004000400600000a0000010a0000029c400050000003e9000013895018ffff0000000068656c6c6f
    01000000 80841e00 3a000000 3a000000 0200000000020200000000018100e00708004500002800004000400600000a0000010a0000029c400050000003ee000013895011ffff00000000
    01000000 c0c62d00 3a000000 3a000000 0200000000010200000000028100e00708004500002800004000400600000a0000020a00000100509c4000001389000003ef5011ffff00000000
    01000000 604d2f00 3a000000 3a000000 0200000000020200000000018100e00708004500002800004000400600000a0000010a0000029c400050000003ef0000138a5010ffff00000000
";

// Scenarios of one toxic, each with the Adler-32 of the capture and then the report that `tests/rows/expected.py` makes.
const TOXICS: [(&str, u32); 7] = [
    (
        "[{\"name\":\"a\",\"upstream\":\"10.0.0.2:80\",\"toxics\":[{\"type\":\"latency\",\"stream\":\"upstream\",\"attributes\":{\"latency\":100}}]}]",
        0x639f_8a80,
    ),
    (
        "[{\"name\":\"a\",\"upstream\":\"10.0.0.2:80\",\"toxics\":[{\"type\":\"bandwidth\",\"stream\":\"upstream\",\"attributes\":{\"rate\":1}}]}]",
        0xf725_8bbc,
    ),
    (
        "[{\"name\":\"a\",\"upstream\":\"10.0.0.2:80\",\"toxics\":[{\"type\":\"slicer\",\"stream\":\"upstream\",\"attributes\":{\"average_size\":1,\"delay\":10}}]}]",
        0x4d3c_b3ee,
    ),
    (
        "[{\"name\":\"a\",\"upstream\":\"10.0.0.2:80\",\"toxics\":[{\"type\":\"slow_close\",\"stream\":\"upstream\",\"attributes\":{\"delay\":2}}]}]",
        0x22dd_889c,
    ),
    (
        "[{\"name\":\"a\",\"upstream\":\"10.0.0.2:80\",\"toxics\":[{\"type\":\"limit_data\",\"stream\":\"upstream\",\"attributes\":{\"bytes\":4}}]}]",
        0x4bfe_8871,
    ),
    (
        "[{\"name\":\"a\",\"upstream\":\"10.0.0.2:80\",\"toxics\":[{\"type\":\"timeout\",\"stream\":\"upstream\",\"attributes\":{\"timeout\":1}}]}]",
        0xff88_7d07,
    ),
    (
        "[{\"name\":\"a\",\"upstream\":\"10.0.0.2:80\",\"toxics\":[{\"type\":\"reset_peer\",\"stream\":\"upstream\",\"attributes\":{\"timeout\":1}}]}]",
        0x0324_7d21,
    ),
];

fn check_toxics(rt: &(impl Abort + AllocGlobal + Threads + Wait + Sync), workers: u32) {
    let bytes = undump(rt.alloc(), SESSION.as_bytes()).expect(rt, "a dump");
    for (text, sum) in TOXICS {
        let scenarios = scenarios_of(rt.alloc(), &[text]).expect(rt, "memory");
        let plan = (workers, 3);
        let outputs = rehearsed_by(rt, rt.alloc(), &bytes, &scenarios, plan, &Through);
        assert!(rt; is_whole(&outputs, sum), "{text} by {workers} workers");
    }
}

#[test]
fn each_toxic_in_nanoseconds_with_a_tag(rt: HostRuntime) {
    check_toxics(&rt, 1);
    check_toxics(&rt, 2);
}
