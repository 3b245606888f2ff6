//! Theorems about the definitions of this crate, and their worked rows: a contract is the theorem, or is evaluated.
ghost use Rattle.scenarios.specs.ProxyLaws.{AddressesAreDotted, FirstIsMet, ScenariosAreSound, ProxiesAreReadBack};
ghost use Rattle.scenarios.specs.ScenarioRows.{TextsRead, UpstreamsRead, UpstreamsRefused, HostsUnknown, ProxiesTold, ProxiesRefused, FirstMet, HostsAdded};
ghost use Rattle.scenarios.specs.ToxicFileRows.{KindsRead, ToxicitiesRead, StreamsRead, WordsRefused, NamesRefused, AttributesRefused, ToxicitiesRefused, CountsRefused};

/// A text is an address exactly if it is four decimal numbers below 256, without leading zeros and with dots between them.
pub fn addresses_are_dotted()
    ensures { AddressesAreDotted }
{}

/// A server meets the first proxy whose upstream it is, or none if it is the upstream of none.
#[tactic(auto, using(crate::proofs::FirstProxies::first_is_met))]
pub fn first_is_met()
    ensures { FirstIsMet }
{}

/// A scenario has at most 64 proxies, each with its own name, a port, and at most 8 toxics in each direction, all in range.
pub fn scenarios_are_sound()
    ensures { ScenariosAreSound }
{}

/// A list of at most 64 sound proxies (`IsProxy`), each with its own name, that is written as JSON is read as these proxies.
#[tactic(auto, using(crate::proofs::ReadBacks::proxies_are_read_back))]
pub fn proxies_are_read_back()
    ensures { ProxiesAreReadBack }
{}

// ---- worked rows

#[tactic(auto, unfolding(crate::proofs::OnLiterals::rows_on_literals))]
fn file_rows()
    ensures texts { TextsRead }
    ensures told { ProxiesTold }
    ensures refused { ProxiesRefused }
    ensures first { FirstMet }
{}

#[tactic(auto, unfolding(crate::proofs::OnLiterals::rows_on_literals))]
fn host_rows()
    ensures read { UpstreamsRead }
    ensures refused { UpstreamsRefused }
    ensures unknown { HostsUnknown }
    ensures added { HostsAdded }
{}

#[tactic(auto, unfolding(crate::proofs::OnLiterals::rows_on_literals))]
fn toxic_rows()
    ensures kinds { KindsRead }
    ensures toxicities { ToxicitiesRead }
    ensures streams { StreamsRead }
{}

#[tactic(auto, unfolding(crate::proofs::OnLiterals::rows_on_literals))]
fn refused_toxic_rows()
    ensures words { WordsRefused }
    ensures names { NamesRefused }
    ensures attributes { AttributesRefused }
    ensures toxicities { ToxicitiesRefused }
    ensures counts { CountsRefused }
{}
