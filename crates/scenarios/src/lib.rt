//! Scenarios: the proxies that a capture is rehearsed under, read from JSON in Toxiproxy's form.
#![tactic(auto)]

mod error;
mod fields;
mod hosts;
pub mod laws;
mod proxies;
mod scenario;
mod toxic_types;
mod toxics;
mod upstreams;

pub use error::{Cause, HostFault, Refusal, ScenarioFault};
pub use hosts::{Hosts, NameText};
pub use proxies::Proxy;
pub use scenario::{Scenario, read_scenario};
pub use toxics::ToxicList;
