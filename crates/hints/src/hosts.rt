//! What helps if a host was refused.
ghost use Rattle.std.specs.Prelude.{◌≡◌, IfOk};
ghost use Rattle.std.specs.String.{string_bytes};
ghost use Rattle.hints.specs.Hints.{IsAbout, host_subject};

use crate::lines::{Said, Speaker, about, numbered};
use crate::shown::{quoted, shown};
use std::alloc::Global;
use std::net::Ipv4Addr;

/// What helps if the host with this number was refused.
pub fn host_hint(alloc: Global, speaker: Speaker, hosts: &[&str], at: usize) -> Said
    ensures { IfOk result (λ line. IsAbout (host_subject speaker at) (string_bytes line)) }
{
    let host = hosts.get(at).copied().unwrap_or("");
    let expected = expected(speaker, hosts, at, host);
    let subject = subject(alloc, speaker, at)?;
    let place = match speaker {
        Speaker::Program => say!(alloc; " {}:", shown(alloc, host)?)?,
        Speaker::Call => say!(alloc; " {}:", quoted(alloc, host)?)?,
    };
    about(alloc, &subject, &place, expected)
}

fn subject(alloc: Global, speaker: Speaker, at: usize) -> Said
    ensures { IfOk result (λ text. string_bytes text ≡ host_subject speaker at) }
{
    match speaker {
        Speaker::Program => String::from_str(alloc, "--host"),
        Speaker::Call => numbered(alloc, "host ", at),
    }
}

fn expected(speaker: Speaker, hosts: &[&str], at: usize, host: &str) -> &'static str {
    let (name, addr) = host.split_once('=').unwrap_or((host, ""));
    let mut earlier = hosts.iter().take(at);
    let is_given = earlier.any(|host| host.split('=').next() == Some(name));
    if Ipv4Addr::parse_ascii(addr.as_bytes()).is_err() {
        return "NAME=ADDR with an IPv4 address is expected, such as redis=10.0.0.9";
    }
    if is_given {
        return speaker.says(
            "an earlier --host has the name",
            "an earlier host has the name",
        );
    }
    "a name of letters, digits, -, _ and . is expected, and no address"
}
