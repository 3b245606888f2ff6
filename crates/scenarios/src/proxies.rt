//! The proxies of a scenario.
ghost use Rattle.std.specs.Prelude.{◌≡◌, ◌<◌, ◌≤◌, [], length, Some, option_map, IfOk};
ghost use Rattle.serde_json.specs.View.{view, items_view};
ghost use Rattle.lists.specs.Agreement.{Agrees, AgreesUnlessMemory};
ghost use Rattle.scenarios.specs.Refusals.{scenario_refusal};
ghost use Rattle.scenarios.specs.Proxies.{proxy_limit, proxy_fields, has_name, accepted_proxy, checked_proxy, proxy_in, proxies_from};
ghost use Rattle.scenarios.specs.SeenFields.{seen_fields, seen_proxy};

use crate::error::{Cause, Refusal, ScenarioFault};
use crate::fields::{is_text_or_absent, optional_flag, optional_list, required_text};
use crate::hosts::{Hosts, NameText};
use crate::toxics::{ToxicList, read_toxics};
use crate::upstreams::upstream;
use frame_headers::Peer;
use serde_json::Value;
use std::alloc::{AllocError, Global};

// The most proxies of a scenario.
const PROXY_LIMIT: usize = 64;

/// A proxy: its name, its server, whether it takes connections, and its toxics.
#[derive(Debug, Drop)]
pub struct Proxy {
    /// Its name, which no other proxy of the scenario has.
    pub name: NameText,
    /// The server that it is for.
    pub upstream: Peer,
    /// Whether it takes connections. A disabled proxy refuses each.
    pub enabled: bool,
    /// The toxics of what the client sends.
    pub up: ToxicList,
    /// The toxics of what the server sends.
    pub down: ToxicList,
}

#[derive(Clone, Copy)]
pub(crate) struct FieldsRead<'a> {
    pub(crate) name: &'a str,
    pub(crate) upstream: &'a str,
    pub(crate) enabled: bool,
    pub(crate) toxics: &'a [Value],
}

// A proxy that nothing refuses so far. Its toxics are still to be read.
#[derive(Clone, Copy)]
pub(crate) struct Accepted<'a> {
    pub(crate) name: &'a str,
    pub(crate) upstream: Peer,
    pub(crate) enabled: bool,
    pub(crate) toxics: &'a [Value],
}

fn proxy_fields(value: &Value) -> Option<FieldsRead<'_>>
    ensures { option_map seen_fields result ≡ proxy_fields (view value.now) }
{
    let name = required_text(value, "name")?;
    let upstream = required_text(value, "upstream")?;
    let enabled = optional_flag(value, "enabled")?;
    let toxics = optional_list(value, "toxics")?;
    if name.is_empty() || !is_text_or_absent(value, "listen") {
        return None;
    }
    Some(FieldsRead {
        name,
        upstream,
        enabled,
        toxics,
    })
}

fn has_name(proxies: &[Proxy], name: &str) -> bool
    ensures { result ≡ has_name proxies.now name.now }
{
    proxies
        .iter()
        .any(|proxy| proxy.name.as_slice() == name.as_bytes())
}

#[tactic(auto, unfolding(crate::specs::Proxies::accepted_proxy))]
fn accept<'a>(
    fields: FieldsRead<'a>,
    hosts: &Hosts,
    earlier: &[Proxy],
) -> Result<Accepted<'a>, Refusal>
    ensures { Agrees (λ r. Some r) seen_proxy result (accepted_proxy hosts.now earlier.now (seen_fields fields.entry)) }
{
    let number = earlier.len();
    if has_name(earlier, fields.name) {
        return Err(Refusal::of_proxy(number, Cause::DuplicateProxy));
    }
    let upstream = match upstream(hosts, fields.upstream) {
        Ok(upstream) => upstream,
        Err(cause) => return Err(Refusal::of_proxy(number, cause)),
    };
    Ok(Accepted {
        name: fields.name,
        upstream,
        enabled: fields.enabled,
        toxics: fields.toxics,
    })
}

#[tactic(auto, unfolding(crate::specs::Proxies::checked_proxy))]
fn check_proxy<'a>(
    value: &'a Value,
    hosts: &Hosts,
    earlier: &[Proxy],
) -> Result<Accepted<'a>, Refusal>
    ensures is { Agrees (λ r. Some r) seen_proxy result (checked_proxy hosts.now earlier.now (view value.now)) }
    ensures room { IfOk result (λ _. length earlier.now < proxy_limit) }
{
    let number = earlier.len();
    if number >= PROXY_LIMIT {
        return Err(Refusal::of_proxy(number, Cause::TooMany));
    }
    let Some(fields) = proxy_fields(value) else {
        return Err(Refusal::of_proxy(number, Cause::BadMember));
    };
    accept(fields, hosts, earlier)
}

#[tactic(auto, unfolding(crate::specs::Proxies::proxy_in))]
fn read_proxy(
    alloc: Global,
    value: &Value,
    hosts: &Hosts,
    earlier: &[Proxy],
) -> Result<Proxy, ScenarioFault>
    ensures is { AgreesUnlessMemory scenario_refusal (λ p. p) result (proxy_in hosts.now earlier.now (view value.now)) }
    ensures room { IfOk result (λ _. length earlier.now < proxy_limit) }
{
    let accepted = check_proxy(value, hosts, earlier)?;
    let toxics = read_toxics(alloc, earlier.len(), accepted.toxics)?;
    let (up, down) = toxics.into_lists();
    let name = NameText::of(accepted.name.as_bytes().to_vec(alloc)?);
    Ok(Proxy {
        name,
        upstream: accepted.upstream,
        enabled: accepted.enabled,
        up,
        down,
    })
}

#[tactic(auto, unfolding(crate::specs::Proxies::proxies_from))]
pub(crate) fn read_proxies(
    alloc: Global,
    items: &[Value],
    hosts: &Hosts,
) -> Result<Vec<Proxy>, ScenarioFault>
    ensures is { AgreesUnlessMemory scenario_refusal (λ v. v.items) result (proxies_from hosts.now [] (items_view items.now)) }
    ensures bound { IfOk result (λ v. length v.items ≤ proxy_limit) }
{
    let mut proxies = Vec::new(alloc);
    for value in items {
        let proxy = read_proxy(alloc, value, hosts, &proxies)?;
        proxies.push(proxy).map_err(AllocError::from)?;
    }
    Ok(proxies)
}
