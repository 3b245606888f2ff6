//! Toxics that are read from scenario files, with values from outside.
use super::checks::check;
use super::scenario_files::accepted;
use scenarios::{Hosts, Scenario};
use std::alloc::{AllocError, AllocGlobal, Global};
use std::process::Abort;
use toxic_defs::{Kind, Toxic};

// The scenario of one proxy with these toxics, which are accepted.
fn with_toxics(alloc: Global, toxics: &str) -> Result<Scenario, AllocError> {
    let text = format!(in alloc;
        "[{{\"name\":\"web\",\"upstream\":\"10.0.0.2:80\",\"toxics\":[{toxics}]}}]"
    )?;
    accepted(alloc, &text, &Hosts::new(alloc))
}

// Whether a toxic is a latency of 0 with a jitter of 7, for `ppm` of a million connections.
fn is_latency(toxic: &Toxic, ppm: u64) -> bool {
    let kind = matches!(
        toxic.kind(),
        Kind::Latency {
            latency: 0,
            jitter: 7
        }
    );
    kind && toxic.ppm() == ppm
}

// Whether a scenario has one toxic, which is upstream and such a latency.
fn has_latency(scenario: &Scenario, ppm: u64) -> bool {
    match scenario.proxies().first() {
        Some(proxy) => match proxy.up.as_slice() {
            [toxic] => proxy.down.as_slice().is_empty() && is_latency(toxic, ppm),
            _ => false,
        },
        None => false,
    }
}

// That a latency with these members applies to `ppm` of a million connections. A null attribute is 0, and one of another type is ignored.
fn check_taken(rt: &(impl Abort + AllocGlobal), more: &str, ppm: u64) {
    let toxic = format!(in rt.alloc();
        "{{\"type\":\"latency\",\"stream\":\"upstream\"{more},\"attributes\":{{\"latency\":null,\"jitter\":7,\"rate\":\"x\"}}}}"
    ).expect(rt, "memory");
    let scenario = with_toxics(rt.alloc(), &toxic).expect(rt, "taken");
    check(rt, more, has_latency(&scenario, ppm));
}

// Whether a scenario has one toxic, which is downstream and a limit of five bytes.
fn has_limit(scenario: &Scenario) -> bool {
    match scenario.proxies().first() {
        Some(proxy) => match proxy.down.as_slice() {
            [toxic] => {
                let five = matches!(toxic.kind(), Kind::LimitData { bytes: 5 });
                proxy.up.as_slice().is_empty() && five
            }
            _ => false,
        },
        None => false,
    }
}

#[test]
fn toxics_are_read(rt: HostRuntime) {
    check_taken(&rt, ",\"toxicity\":0", 0);
    check_taken(&rt, ",\"toxicity\":1", 1_000_000);
    check_taken(&rt, "", 1_000_000);
    let both = ",\"toxicity\":0,\"toxicity_ppm\":1000000";
    check_taken(&rt, both, 1_000_000);
    check_taken(&rt, ",\"toxicity_ppm\":250000", 250_000);
    let limit = "{\"type\":\"limit_data\",\"attributes\":{\"bytes\":5}}";
    let down = with_toxics(rt.alloc(), limit).expect(&rt, "taken");
    check(&rt, "downstream", has_limit(&down));
}
