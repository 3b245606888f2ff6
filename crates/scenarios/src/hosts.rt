//! Hosts that upstreams may name: their names and addresses as texts, and the list of known ones.
ghost use Rattle.std.specs.Prelude.{◌≡◌};
ghost use Rattle.std.specs.List.{list_all};
ghost use Rattle.scenarios.specs.Hosts.{address, is_name_byte, is_host_name};

use crate::error::HostFault;
use pcap_records::Values;
use std::alloc::{AllocError, Global};
use std::collections::BTreeMap;
use std::marker::Model;
use std::net::Ipv4Addr;

/// The name of a host or of a proxy, in UTF-8. Contracts see its bytes.
pub type NameText = Values<u8>;

// The address in a text of four decimal numbers with dots between them.
pub(crate) fn address(text: &str) -> Option<u32>
    ensures { result ≡ address text.now }
{
    let Ok(address) = Ipv4Addr::parse_ascii(text.as_bytes()) else {
        return None;
    };
    Some(address.to_bits())
}

fn is_name_byte(byte: u8) -> bool
    ensures { result ≡ is_name_byte byte }
{
    matches!(byte, b'a'..=b'z' | b'A'..=b'Z' | b'0'..=b'9' | b'-' | b'_' | b'.')
}

fn has_name_bytes(text: &[u8]) -> bool
    ensures { result ≡ list_all is_name_byte text.now }
{
    text.iter().all(|byte| is_name_byte(*byte))
}

pub(crate) fn is_host_name(text: &str) -> bool
    ensures { result ≡ is_host_name text.now }
{
    !text.is_empty() && has_name_bytes(text.as_bytes()) && address(text).is_none()
}

// A host's name, and its IPv4 address, the first byte the highest.
#[derive(Debug, Drop)]
pub(crate) struct KnownHost {
    pub(crate) name: NameText,
    pub(crate) addr: u32,
}

/// The hosts that upstreams may name: each name once, with its address. Contracts see `list`, in the order of adding.
/// Names are found in `index`, an ordered map, which no choice of names makes slow.
#[derive(Debug, Drop)]
pub struct Hosts {
    alloc: Global,
    list: Vec<KnownHost>,
    index: BTreeMap<String, u32>,
}

impl Model for Hosts {
    ghost use Rattle.std.specs.Prelude.{List};
    ghost use Rattle.scenarios.specs.declared.hosts.KnownHost.{KnownHost};
    ghost use Rattle.scenarios.specs.Hosts.{IsIndexOf};

    ghost Value = { List KnownHost };

    ghost view = { λ h. h.list.items };

    ghost invariant = { λ h. IsIndexOf h.index h.list.items };
}

impl Hosts {
    ghost use Rattle.std.specs.Prelude.{◌≡◌, [], ◌∷◌, ◌++◌, OnOk, OnErr};
    ghost use Rattle.scenarios.specs.Hosts.{host_for, look_up, HostAdded};

    /// A list without hosts.
    pub fn new(alloc: Global) -> Hosts
        ensures { result ≡ [] }
    {
        Hosts {
            alloc,
            list: Vec::new(alloc),
            index: BTreeMap::new(alloc),
        }
    }

    /// Adds a host. `name` has one or more ASCII letters, digits, `-`, `_` and `.`, and is no address.
    /// `addr` is four decimal numbers below 256 without leading zeros, with dots between them. After an error the list is as it was.
    pub fn add(&mut self, name: &str, addr: &str) -> Result<(), HostFault>
        ensures { HostAdded result (host_for self.old name.now addr.now) self.old self.new }
    {
        let Some(addr) = address(addr) else {
            return Err(HostFault::BadHost);
        };
        if !is_host_name(name) || self.look_up(name).is_some() {
            return Err(HostFault::BadHost);
        }
        self.put(name, addr)?;
        Ok(())
    }

    // Puts a host last, or changes nothing. A name that is there already keeps its address in the index.
    fn put(&mut self, name: &str, addr: u32) -> Result<(), AllocError>
        ensures ok { OnOk result (self.new ≡ self.old ++ record { name = name.now; addr = addr } ∷ []) }
        ensures err { OnErr result (self.new ≡ self.old) }
    {
        // The index and the list get their memory before either changes.
        let key = String::from_str(self.alloc, name)?;
        let name = NameText::of(name.as_bytes().to_vec(self.alloc)?);
        self.list.reserve(1)?;
        self.index.entry(key)?.or_insert(addr);
        self.list.push(KnownHost { name, addr })?;
        Ok(())
    }

    pub(crate) fn look_up(&self, name: &str) -> Option<u32>
        ensures { result ≡ look_up self.now name.now }
    {
        self.index.get(name).copied()
    }
}
