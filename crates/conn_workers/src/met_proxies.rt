//! The proxy of a scenario that a connection meets.
ghost use Rattle.std.specs.Prelude.{◌≡◌, ◌≤◌, IfSome, length, option_map};
ghost use Rattle.toxic_defs.specs.DeliveredLines.{met_view};
ghost use Rattle.toxic_defs.specs.Limits.{most_toxics};
ghost use Rattle.conn_workers.specs.Recordings.{met_of, met_proxy};

use frame_headers::Peer;
use scenarios::{Proxy, Scenario};
use toxic_defs::MetProxy;

fn met_of(number: u32, proxy: &Proxy) -> MetProxy<'_>
    ensures met { met_view result ≡ met_of (number, proxy.now) }
    ensures up { result.up.now ≡ proxy.now.up }
    ensures down { result.down.now ≡ proxy.now.down }
{
    MetProxy {
        number,
        enabled: proxy.enabled,
        up: proxy.up.as_slice(),
        down: proxy.down.as_slice(),
    }
}

/// The first proxy of a scenario that is for a server.
pub fn met_proxy(scenario: &Scenario, server: Peer) -> Option<MetProxy<'_>>
    ensures met { option_map met_view result ≡ met_proxy server scenario.now }
    ensures few_up { IfSome result (λ m. length m.up.now ≤ most_toxics) }
    ensures few_down { IfSome result (λ m. length m.down.now ≤ most_toxics) }
{
    let number = scenario.proxy_of(server)?;
    Some(met_of(number, &scenario.proxies()[number as usize]))
}
