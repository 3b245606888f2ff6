//! A scenario, read from a text: its proxies, and the first one for a server.
ghost use Rattle.std.specs.Prelude.{◌≡◌, ◌<◌, length, Some, None, IfSome, MatchResult};
ghost use Rattle.serde_json.specs.View.{view};
ghost use Rattle.lists.specs.Agreement.{AgreesUnlessMemory};
ghost use Rattle.scenarios.specs.Refusals.{scenario_refusal, of_text};
ghost use Rattle.scenarios.specs.declared.error.Cause.TheVariants.{NotJson};
ghost use Rattle.scenarios.specs.Populate.{tree, scenario_of_tree, scenario, leads_to, met_number};

use crate::error::{Cause, Refusal, ScenarioFault};
use crate::hosts::Hosts;
use crate::proxies::{Proxy, read_proxies};
use frame_headers::Peer;
use serde_json::Value;
use std::alloc::{AllocError, Global};
use std::marker::Model;

/// A scenario: at most 64 sound proxies, in the order of their file.
#[derive(Debug, Drop)]
pub struct Scenario {
    proxies: Vec<Proxy>,
}

impl Model for Scenario {
    ghost use Rattle.std.specs.Prelude.{◌≤◌, List, length};
    ghost use Rattle.std.specs.List.{AllByRecursion};
    ghost use Rattle.scenarios.specs.Proxies.{proxy_limit};
    ghost use Rattle.scenarios.specs.ProxyLaws.{IsSound};
    ghost use Rattle.scenarios.specs.declared.proxies.Proxy.{Proxy};

    ghost Value = { List Proxy };

    ghost view = { λ s. s.proxies.items };

    ghost invariant = { λ s. (length s.proxies.items ≤ proxy_limit) × AllByRecursion IsSound s.proxies.items };
}

impl Scenario {
    ghost use Rattle.std.specs.Prelude.{◌≤◌};
    ghost use Rattle.std.specs.List.{AllByRecursion};
    ghost use Rattle.scenarios.specs.Proxies.{proxy_limit};
    ghost use Rattle.scenarios.specs.ProxyLaws.{IsSound};

    /// The proxies, at most 64, in the order of their file. Each has a name, a port, and at most 8 toxics in each direction, all in range.
    pub fn proxies(&self) -> &[Proxy]
        ensures list { result.now ≡ self.now }
        ensures few { length result.now ≤ proxy_limit }
        ensures sound { AllByRecursion IsSound self.now }
    {
        &self.proxies
    }

    /// The number of the first proxy that is for a server, if there is one.
    pub fn proxy_of(&self, server: Peer) -> Option<u32>
        ensures { result ≡ met_number server self.now }
    {
        let number = first_for(&self.proxies, server)?;
        Some(number as u32)
    }
}

fn leads_to(proxy: &Proxy, server: Peer) -> bool
    ensures { result ≡ leads_to server proxy.now }
{
    proxy.upstream == server
}

fn first_for(proxies: &[Proxy], server: Peer) -> Option<usize>
    ensures exact { result ≡ met_number server proxies.now }
    ensures within { IfSome result (λ number. number < length proxies.now) }
{
    proxies.iter().position(|proxy| leads_to(proxy, server))
}

fn read_tree(alloc: Global, text: &[u8]) -> Result<Value, ScenarioFault>
    ensures { MatchResult result (λ v. tree text.now ≡ Some (view v))
        (λ fault. IfSome (scenario_refusal fault) (λ r. (r ≡ of_text NotJson) × (tree text.now ≡ None))) }
{
    match Value::from_slice(alloc, text) {
        Ok(tree) => Ok(tree),
        Err(error) if error.is_memory() => Err(ScenarioFault::Memory(AllocError)),
        Err(_) => Err(ScenarioFault::Refused(Refusal::of_text(Cause::NotJson))),
    }
}

fn scenario_of_tree(alloc: Global, tree: &Value, hosts: &Hosts) -> Result<Scenario, ScenarioFault>
    ensures { AgreesUnlessMemory scenario_refusal (λ s. s) result (scenario_of_tree hosts.now (view tree.now)) }
{
    let Some(items) = tree.as_array() else {
        return Err(ScenarioFault::Refused(Refusal::of_text(Cause::NotArray)));
    };
    let proxies = read_proxies(alloc, items, hosts)?;
    Ok(Scenario { proxies })
}

/// Reads a scenario, a JSON array of proxies in Toxiproxy's form. `hosts` has those that upstreams may name.
/// An error is the first refusal of the text, with its proxy and its toxic, or out of memory.
pub fn read_scenario(alloc: Global, text: &[u8], hosts: &Hosts) -> Result<Scenario, ScenarioFault>
    ensures { AgreesUnlessMemory scenario_refusal (λ s. s) result (scenario hosts.now text.now) }
{
    let tree = read_tree(alloc, text)?;
    scenario_of_tree(alloc, &tree, hosts)
}
