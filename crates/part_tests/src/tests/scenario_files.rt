//! Scenarios that are read, hosts, and the proxy that a server meets, with values from outside.
use super::checks::check;
use frame_headers::Peer;
use scenarios::{Cause, Hosts, Refusal, Scenario, ScenarioFault, read_scenario};
use std::alloc::{AllocError, AllocGlobal, Global};
use std::process::Abort;

// The scenario of a text that is accepted.
pub(super) fn accepted(alloc: Global, text: &str, hosts: &Hosts) -> Result<Scenario, AllocError> {
    match read_scenario(alloc, text.as_bytes(), hosts) {
        Ok(scenario) => Ok(scenario),
        Err(_) => Err(AllocError),
    }
}

// Whether a text is refused since the host of this proxy is unknown.
fn refuses(alloc: Global, text: &str, hosts: &Hosts, proxy: usize) -> bool {
    let expected = Refusal {
        cause: Cause::UnknownHost,
        proxy: Some(proxy),
        toxic: None,
    };
    match read_scenario(alloc, text.as_bytes(), hosts) {
        Err(ScenarioFault::Refused(refusal)) => refusal == expected,
        _ => false,
    }
}

// Whether a proxy of a scenario has this name and flag.
fn has_proxy(scenario: &Scenario, number: usize, name: &str, enabled: bool) -> bool {
    match scenario.proxies().get(number) {
        Some(proxy) => proxy.name.as_slice() == name.as_bytes() && proxy.enabled == enabled,
        None => false,
    }
}

// Whether the proxy that a server meets is this.
fn meets(scenario: &Scenario, addr: u32, port: u16, expected: Option<u32>) -> bool {
    scenario.proxy_of(Peer { addr, port }) == expected
}

#[test]
fn first_proxy_of_a_server(rt: HostRuntime) {
    let text =
        "[{\"name\":\"a\",\"upstream\":\"10.0.0.2:80\",\"enabled\":false},{\"name\":\"b\",\"upstream\":\"10.0.0.2:80\",\"listen\":null}]";
    let hosts = Hosts::new(rt.alloc());
    let scenario = accepted(rt.alloc(), text, &hosts).expect(&rt, "taken");
    check(&rt, "two", scenario.proxies().len() == 2);
    check(&rt, "a", has_proxy(&scenario, 0, "a", false));
    check(&rt, "b", has_proxy(&scenario, 1, "b", true));
    check(&rt, "met", meets(&scenario, 0x0a00_0002, 80, Some(0)));
    check(&rt, "not met", meets(&scenario, 0x0a00_0002, 81, None));
}

// That a host is taken into a list, or is not.
fn check_host(rt: &impl Abort, hosts: &mut Hosts, (name, addr): (&str, &str), expected: bool) {
    check(rt, name, hosts.add(name, addr).is_ok() == expected);
}

#[test]
fn hosts_are_added(rt: HostRuntime) {
    let text = "[{\"name\":\"web\",\"upstream\":\"localhost:6379\"}]";
    let mut hosts = Hosts::new(rt.alloc());
    check_host(&rt, &mut hosts, ("a", "10.0.0.9"), true);
    check_host(&rt, &mut hosts, ("a", "10.0.0.9"), false);
    check_host(&rt, &mut hosts, ("b", "10.0.0.256"), false);
    check_host(&rt, &mut hosts, ("x y", "10.0.0.9"), false);
    check(&rt, "unknown", refuses(rt.alloc(), text, &hosts, 0));
    check_host(&rt, &mut hosts, ("localhost", "127.0.0.1"), true);
    let scenario = accepted(rt.alloc(), text, &hosts).expect(&rt, "taken");
    check(&rt, "met", meets(&scenario, 0x7f00_0001, 6379, Some(0)));
    check(&rt, "not met", meets(&scenario, 0x7f00_0001, 6380, None));
}

// The configuration that Toxiproxy's README shows.
const CONFIGURATION: &str = "[
  {
    \"name\": \"web_dev_frontend_1\",
    \"listen\": \"[::]:18080\",
    \"upstream\": \"webapp.domain:8080\",
    \"enabled\": true
  },
  {
    \"name\": \"web_dev_mysql_1\",
    \"listen\": \"[::]:13306\",
    \"upstream\": \"database.domain:3306\",
    \"enabled\": true
  }
]
";

#[test]
fn a_configuration_of_toxiproxy(rt: HostRuntime) {
    let alloc = rt.alloc();
    let mut hosts = Hosts::new(alloc);
    check(&rt, "no host", refuses(alloc, CONFIGURATION, &hosts, 0));
    check_host(&rt, &mut hosts, ("webapp.domain", "192.168.0.8"), true);
    check(&rt, "one host", refuses(alloc, CONFIGURATION, &hosts, 1));
    check_host(&rt, &mut hosts, ("database.domain", "192.168.0.9"), true);
    let scenario = accepted(alloc, CONFIGURATION, &hosts).expect(&rt, "taken");
    let named = has_proxy(&scenario, 1, "web_dev_mysql_1", true);
    check(&rt, "both", named && scenario.proxies().len() == 2);
    check(&rt, "met", meets(&scenario, 0xc0a8_0009, 3306, Some(1)));
}
