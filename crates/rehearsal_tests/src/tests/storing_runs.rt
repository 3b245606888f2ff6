//! Runs that store, over the plain session and over the samples, and the files that each is to give.
use super::shop_sample::SHOP;
use scenarios::Hosts;
use std::alloc::{AllocError, AllocGlobal, Global};
use std::sync::Wait;
use std::thread::Threads;
use toxicap::{Counted, MemoryFile, MemoryShelf, Options, Plan, RunFault, answers, store_all};
use worked_sessions::sessions::PLAIN_SESSION;

// A proxy for the host `web` that holds the client's bytes for a time that is drawn.
pub const HELD: &str =
    "[{\"name\":\"web\",\"upstream\":\"web:80\",\"toxics\":[{\"type\":\"latency\",\"stream\":\"upstream\",\"attributes\":{\"latency\":100,\"jitter\":50}}]}]";

// A web server over the line of `examples/mobile-line.json`, mostly as its answers meet it, and a Redis that is down.
pub const LINE: &str =
    "[{\"name\":\"web\",\"upstream\":\"10.77.0.2:80\",\"toxics\":[{\"type\":\"latency\",\"stream\":\"upstream\",\"attributes\":{\"latency\":150,\"jitter\":50}},{\"type\":\"bandwidth\",\"attributes\":{\"rate\":20}},{\"type\":\"slicer\",\"attributes\":{\"average_size\":500,\"size_variation\":300,\"delay\":3000}}]},{\"name\":\"redis\",\"upstream\":\"10.77.0.3:6379\",\"enabled\":false}]";

// The sample `samples/http-get.pcap` as a dump.
pub const HTTP_GET: &str =
    "d4c3b2a10200040000000000000000000000040001000000f5c0026b845308004a0000004a0000002a1575989be46209d25254a408004500003c6d6840004006b8b70a4d0001
0a4d0002e92a005003de804c00000000a002faf014cb0000020405b40402080ac2d42aef000000000103030af5c0026b995308004a0000004a0000006209d25254a42a157598
9be408004500003c00004000400626200a4d00020a4d00010050e92a9424f42603de804da012fe8814cb0000020405b40402080a62fc749cc2d42aef0103030af5c0026bab53
080042000000420000002a1575989be46209d25254a40800450000346d6940004006b8be0a4d00010a4d0002e92a005003de804d9424f4278010003f14c300000101080ac2d4
2aef62fc749cf5c0026bde53080094000000940000002a1575989be46209d25254a40800450000866d6a40004006b86b0a4d00010a4d0002e92a005003de804d9424f4278018
003f151500000101080ac2d42aef62fc749c474554202f68656c6c6f2e74787420485454502f312e310d0a486f73743a2031302e37372e302e320d0a557365722d4167656e74
3a206375726c2f372e38382e310d0a4163636570743a202a2f2a0d0a0d0af5c0026be353080042000000420000006209d25254a42a1575989be4080045000034870f40004006
9f180a4d00020a4d00010050e92a9424f42703de809f8010004014c300000101080a62fc749cc2d42aeff5c0026b9e610800fc000000fc0000006209d25254a42a1575989be4
0800450000ee8710400040069e5d0a4d00020a4d00010050e92a9424f42703de809f80180040157d00000101080a62fc74a0c2d42aef485454502f312e3020323030204f4b0d
0a5365727665723a2053696d706c65485454502f302e3620507974686f6e2f332e31312e370d0a446174653a2053756e2c203232204e6f7620323032362031303a31363a3231
20474d540d0a436f6e74656e742d747970653a20746578742f706c61696e0d0a436f6e74656e742d4c656e6774683a2033300d0a4c6173742d4d6f6469666965643a2053756e
2c203232204e6f7620323032362031303a31363a313920474d540d0a0d0af5c0026bad61080042000000420000002a1575989be46209d25254a40800450000346d6b40004006
b8bc0a4d00010a4d0002e92a005003de809f9424f4e18010003f14c300000101080ac2d42af362fc74a0f5c0026bc961080060000000600000006209d25254a42a1575989be4
0800450000528711400040069ef80a4d00020a4d00010050e92a9424f4e103de809f8018004014e100000101080a62fc74a0c2d42af348656c6c6f2066726f6d207468652073
616d706c65207365727665722e0af5c0026bcb61080042000000420000002a1575989be46209d25254a40800450000346d6c40004006b8bb0a4d00010a4d0002e92a005003de
809f9424f4ff8010003f14c300000101080ac2d42af362fc74a0f5c0026bea61080042000000420000006209d25254a42a1575989be40800450000348712400040069f150a4d
00020a4d00010050e92a9424f4ff03de809f8011004014c300000101080a62fc74a0c2d42af3f5c0026b3062080042000000420000002a1575989be46209d25254a408004500
00346d6d40004006b8ba0a4d00010a4d0002e92a005003de809f9424f5008011003f14c300000101080ac2d42af362fc74a0f5c0026b5262080042000000420000006209d252
54a42a1575989be40800450000348713400040069f140a4d00020a4d00010050e92a9424f50003de80a08010004014c300000101080a62fc74a0c2d42af3";

// A run that stores in the folder `out`: its words, and among them its capture and its scenarios.
pub struct Run<'a> {
    pub words: &'a [&'a str],
    pub capture: &'a str,
    pub scenarios: &'a [&'a str],
}

pub const BY_ONE: Run<'static> = Run {
    words: &[
        "--capture=session",
        "--scenario=bare",
        "--scenario=held",
        "--host=web=10.0.0.2",
        "--seed=42",
        "--out=out",
        "--workers=1",
    ],
    capture: "session",
    scenarios: &["bare", "held"],
};

pub const BY_TWO: Run<'static> = Run {
    words: &[
        "--workers=2",
        "--out=out",
        "--seed=42",
        "--host=web=10.0.0.2",
        "--scenario=bare",
        "--scenario=held",
        "--capture=session",
    ],
    capture: "session",
    scenarios: &["bare", "held"],
};

// Of the sample: without a scenario, one scenario by as many workers as there may be, and more scenarios than two workers have drafts of at once.
pub const SAMPLE: Run<'static> = Run {
    words: &["--capture=http-get", "--out=out", "--seed=42"],
    capture: "http-get",
    scenarios: &["bare"],
};

pub const SAMPLE_BY_ALL: Run<'static> = Run {
    words: &[
        "--capture=http-get",
        "--scenario=held",
        "--host=web=10.77.0.2",
        "--seed=42",
        "--out=out",
        "--workers=16",
    ],
    capture: "http-get",
    scenarios: &["held"],
};

pub const SAMPLE_BY_TWO: Run<'static> = Run {
    words: &[
        "--capture=http-get",
        "--scenario=held",
        "--scenario=bare",
        "--scenario=held",
        "--scenario=held",
        "--scenario=bare",
        "--host=web=10.77.0.2",
        "--seed=42",
        "--out=out",
        "--workers=2",
    ],
    capture: "http-get",
    scenarios: &["held", "bare", "held", "held", "bare"],
};

// Of the larger sample: four connections, under toxics, with a server that is down, and as recorded.
pub const SHOP_BY_THREE: Run<'static> = Run {
    words: &[
        "--capture=shop",
        "--scenario=line",
        "--scenario=bare",
        "--seed=42",
        "--out=out",
        "--workers=3",
        "--cut=16",
    ],
    capture: "shop",
    scenarios: &["line", "bare"],
};

// The texts of scenarios.
fn texts_of(alloc: Global, scenarios: &[&str]) -> Result<Vec<&'static [u8]>, AllocError> {
    let mut texts = Vec::new(alloc);
    for scenario in scenarios {
        let text = match *scenario {
            "bare" => b"[]".as_slice(),
            "line" => LINE.as_bytes(),
            _ => HELD.as_bytes(),
        };
        texts.push(text)?;
    }
    Ok(texts)
}

// The files of a run, from the calls that take its texts.
pub fn files_of(
    rt: &(impl AllocGlobal + Threads + Wait + Sync),
    run: &Run<'_>,
) -> Result<Vec<MemoryFile>, RunFault> {
    let (capture, host) = match run.capture {
        "session" => (PLAIN_SESSION.as_slice(), "10.0.0.2"),
        "shop" => (SHOP.as_bytes(), "10.77.0.2"),
        _ => (HTTP_GET.as_bytes(), "10.77.0.2"),
    };
    let texts = texts_of(rt.alloc(), run.scenarios)?;
    let mut hosts = Hosts::new(rt.alloc());
    if hosts.add("web", host).is_err() {
        return Err(RunFault::Memory);
    }
    let plan = Plan::new(1, 4096).ok_or(RunFault::Memory)?;
    let options = Options {
        hosts,
        seed: 42,
        plan,
    };
    let mut reader = Counted::new(capture);
    let outputs = answers(rt, rt.alloc(), &mut reader, &texts, &options)?;
    let mut shelf = MemoryShelf::new(rt.alloc());
    store_all(rt.alloc(), &outputs, &mut shelf)?;
    Ok(shelf.into_files())
}
