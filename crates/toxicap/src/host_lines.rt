//! Hosts as they are written, each `NAME=ADDR`: words of a command line, or the lines of a text.
ghost use Rattle.std.specs.Prelude.{◌≡◌, ◌<◌, [], length, map, option_map, IfErr, IfOk};
ghost use Rattle.toxicap.specs.{slice_split, host_lines, is_line_feed, without_last_feed, AddsHost, IsOfHost, cut_at_first, equals_sign, host_written};
ghost use Rattle.toxicap.specs.{hosts_from, UnlessMemory};

use run_files::RunFault;
use scenarios::laws::addresses_are_dotted;
use scenarios::{HostFault, Hosts};
use std::alloc::{AllocError, Global};

/// The hosts of a command line, each `NAME=ADDR`, cut at its first `=`.
#[tactic(auto, unfolding(crate::specs::Inputs::hosts_from))]
pub(crate) fn read_hosts(alloc: Global, written: &[&str]) -> Result<Hosts, RunFault>
    ensures exact { UnlessMemory (hosts_from [] (map (λ host. host.now) written.now)) result }
    ensures of_host { IfErr result IsOfHost }
{
    let mut hosts = Hosts::new(alloc);
    for (at, host) in written.iter().enumerate() {
        add_host(&mut hosts, at, host)?;
    }
    Ok(hosts)
}

/// The hosts of a text, one on each line, each `NAME=ADDR`, cut at its first `=`. The line feed at the end of the text may be left out; an
/// empty text has no host.
///
/// # Errors
/// [`RunFault::BadHost`] with the number of the first line, from 0, that has no `=`, is refused by the list, or is not UTF-8;
/// [`RunFault::Memory`].
#[tactic(auto, unfolding(crate::specs::Inputs::hosts_from))]
pub fn read_host_lines(alloc: Global, text: &[u8]) -> Result<Hosts, RunFault>
    ensures exact { UnlessMemory (hosts_from [] (host_lines text.now)) result }
    ensures of_host { IfErr result IsOfHost }
{
    let lines = lines_of(alloc, text)?;
    let mut hosts = Hosts::new(alloc);
    for (at, line) in lines.iter().enumerate() {
        add_line(&mut hosts, at, line)?;
    }
    Ok(hosts)
}

fn lines_of<'a>(alloc: Global, text: &'a [u8]) -> Result<Vec<&'a [u8]>, AllocError>
    ensures { IfOk result (λ lines. map (λ line. line.now) lines.items ≡ host_lines text.now) }
{
    if text.is_empty() {
        return Ok(Vec::new(alloc));
    }
    lines_within(alloc, without_last_feed(text))
}

fn without_last_feed(text: &[u8]) -> &[u8]
    requires { 0 < length text.now }
    ensures { result.now ≡ without_last_feed text.now }
{
    let last = text.len() - 1;
    if is_line_feed(text[last]) {
        &text[..last]
    } else {
        text
    }
}

fn is_line_feed(byte: u8) -> bool
    ensures { result ≡ is_line_feed byte }
{
    byte == b'\n'
}

fn lines_within<'a>(alloc: Global, text: &'a [u8]) -> Result<Vec<&'a [u8]>, AllocError>
    ensures { IfOk result (λ lines. map (λ line. line.now) lines.items ≡ slice_split is_line_feed text.now) }
{
    text.split(|byte| is_line_feed(*byte)).collect(alloc)
}

fn add_line(hosts: &mut Hosts, at: usize, line: &[u8]) -> Result<(), RunFault>
    ensures { AddsHost result at (host_written hosts.old line.now) hosts.old hosts.new }
{
    addresses_are_dotted();
    match str::from_utf8(line) {
        Ok(written) => add_host(hosts, at, written),
        Err(_) => Err(RunFault::BadHost { at }),
    }
}

fn add_host(hosts: &mut Hosts, at: usize, written: &str) -> Result<(), RunFault>
    ensures { AddsHost result at (host_written hosts.old written.now) hosts.old hosts.new }
{
    let Some((name, addr)) = cut_at_equals(written) else {
        return Err(RunFault::BadHost { at });
    };
    match hosts.add(name, addr) {
        Ok(()) => Ok(()),
        Err(HostFault::BadHost) => Err(RunFault::BadHost { at }),
        Err(HostFault::Memory(_)) => Err(RunFault::Memory),
    }
}

fn cut_at_equals(text: &str) -> Option<(&str, &str)>
    ensures { option_map (λ parts. (parts.0.now, parts.1.now)) result ≡ cut_at_first equals_sign text.now }
{
    text.split_once('=')
}
