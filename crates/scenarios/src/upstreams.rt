//! Upstreams of proxies: HOST:PORT.
ghost use Rattle.std.specs.Prelude.{◌≡◌, option_map};
ghost use Rattle.std.specs.Char.{is_ascii_digit};
ghost use Rattle.std.specs.List.{list_all};
ghost use Rattle.scenarios.specs.Upstreams.{cut_at_last, colon, port, host_address, upstream};

use crate::error::Cause;
use crate::hosts::{Hosts, address, is_host_name};
use frame_headers::Peer;

fn cut_at_last_colon(text: &str) -> Option<(&str, &str)>
    ensures { option_map (λ parts. (parts.0.now, parts.1.now)) result ≡ cut_at_last colon text.now }
{
    text.rsplit_once(':')
}

fn all_digits(text: &[u8]) -> bool
    ensures { result ≡ list_all is_ascii_digit text.now }
{
    text.iter().all(|byte| byte.is_ascii_digit())
}

const PORT_DIGITS: usize = 5;

// The port that a text of one to five digits gives. It is not 0.
#[tactic(auto, using(crate::proofs::MappedNames::digits_are_all))]
fn port(text: &str) -> Option<u16>
    ensures { result ≡ port text.now }
{
    if text.len() > PORT_DIGITS || !all_digits(text.as_bytes()) {
        return None;
    }
    let Ok(port) = text.parse::<u16>() else {
        return None;
    };
    if port == 0 { None } else { Some(port) }
}

fn host_address(hosts: &Hosts, host: &str) -> Result<u32, Cause>
    ensures { result ≡ host_address hosts.now host.now }
{
    if let Some(address) = address(host) {
        return Ok(address);
    }
    if !is_host_name(host) {
        return Err(Cause::BadUpstream);
    }
    hosts.look_up(host).ok_or(Cause::UnknownHost)
}

pub(crate) fn upstream(hosts: &Hosts, text: &str) -> Result<Peer, Cause>
    ensures { result ≡ upstream hosts.now text.now }
{
    let (host, digits) = cut_at_last_colon(text).ok_or(Cause::BadUpstream)?;
    let port = port(digits).ok_or(Cause::BadUpstream)?;
    let addr = host_address(hosts, host)?;
    Ok(Peer { addr, port })
}
