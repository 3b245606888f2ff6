//! Why a scenario or a host is refused.
use std::alloc::AllocError;
use std::{error, fmt};
use thiserror::Error;

/// Why a scenario is refused. The causes are tested in this order, proxy by proxy and, in a proxy, toxic by toxic.
/// Only `TooMany` is out of order: it is the first test of each proxy, and the last of each toxic.
#[derive(Clone, Copy, Debug, PartialEq, Eq, Error)]
pub enum Cause {
    /// The text is not JSON, or not UTF-8, or nests deeper than 127 levels, or has a number too large for a float.
    #[error("the text is not JSON in UTF-8, or nests deeper than 127 levels, or has a number too large for a float")]
    NotJson,
    /// The text is no JSON array.
    #[error("the text is no array of proxies")]
    NotArray,
    /// A required field is missing, a field is of the wrong kind, a proxy's name is empty, or the item is no object.
    #[error("a field is missing or of the wrong kind, a proxy's name is empty, or an item is no object")]
    BadMember,
    /// An earlier proxy has the name.
    #[error("an earlier proxy has the name")]
    DuplicateProxy,
    /// The upstream is not HOST:PORT with a port from 1 to 65535.
    #[error("the upstream is not HOST:PORT with a port from 1 to 65535")]
    BadUpstream,
    /// The upstream's host is a name that the list of hosts does not have.
    #[error("the upstream's host is not known")]
    UnknownHost,
    /// There is no toxic of this type.
    #[error("there is no toxic of this type")]
    UnknownToxic,
    /// The toxic's stream is neither `upstream` nor `downstream`.
    #[error("the stream is neither upstream nor downstream")]
    BadStream,
    /// An earlier toxic of the proxy, of either direction, has the name.
    #[error("an earlier toxic of the proxy has the name")]
    DuplicateToxic,
    /// An attribute of the toxic's type is no whole number, or out of its range.
    #[error("an attribute is no whole number in its range")]
    AttributeRange,
    /// There are more than 64 proxies, or a direction of a proxy has more than 8 toxics.
    #[error("there are more than 64 proxies, or more than 8 toxics of a direction")]
    TooMany,
    /// The toxicity is neither 0 nor 1, or its parts of a million are no whole number up to a million.
    #[error("the toxicity is not 0 or 1, or toxicity_ppm is no whole number up to 1000000")]
    BadToxicity,
}

/// A refusal and its place: the proxy's number in its file and the toxic's number in its proxy, from 0, if it has them.
/// As text the place is before the cause, such as `proxy 0 toxic 1: there is no toxic of this type`.
#[derive(Clone, Copy, Debug, PartialEq, Eq)]
pub struct Refusal {
    /// The cause.
    pub cause: Cause,
    /// The number of the proxy.
    pub proxy: Option<usize>,
    /// The number of the toxic in its proxy.
    pub toxic: Option<usize>,
}

impl Refusal {
    ghost use Rattle.std.specs.Prelude.{◌≡◌};
    ghost use Rattle.scenarios.specs.Refusals.{of_text, of_proxy, of_toxic};

    pub(crate) fn of_text(cause: Cause) -> Refusal
        ensures { result ≡ of_text cause }
    {
        Refusal {
            cause,
            proxy: None,
            toxic: None,
        }
    }

    pub(crate) fn of_proxy(proxy: usize, cause: Cause) -> Refusal
        ensures { result ≡ of_proxy proxy cause }
    {
        Refusal {
            cause,
            proxy: Some(proxy),
            toxic: None,
        }
    }

    pub(crate) fn of_toxic(proxy: usize, toxic: usize, cause: Cause) -> Refusal
        ensures { result ≡ of_toxic proxy toxic cause }
    {
        Refusal {
            cause,
            proxy: Some(proxy),
            toxic: Some(toxic),
        }
    }
}

impl fmt::Display for Refusal {
    fn fmt<W: fmt::Write>(&self, f: &mut fmt::Formatter<W>) -> fmt::Result {
        let cause = self.cause;
        match (self.proxy, self.toxic) {
            (Some(proxy), Some(toxic)) => write!(f, "proxy {proxy} toxic {toxic}: {cause}"),
            (Some(proxy), None) => write!(f, "proxy {proxy}: {cause}"),
            _ => write!(f, "{cause}"),
        }
    }
}

impl error::Error for Refusal {}

/// Why there is no scenario.
#[derive(Debug, Drop, Error)]
pub enum ScenarioFault {
    /// The text is refused.
    #[error("{0}")]
    Refused(Refusal),
    /// An allocation failed.
    #[error("out of memory")]
    Memory(AllocError),
}

impl From<Refusal> for ScenarioFault {
    ghost use Rattle.std.specs.Prelude.{◌≡◌};
    ghost use Rattle.scenarios.specs.declared.error.ScenarioFault.TheVariants.{Refused};

    ghost from_gives = { λ refusal fault. fault ≡ Refused refusal };

    fn from(refusal: Refusal) -> ScenarioFault {
        ScenarioFault::Refused(refusal)
    }
}

impl From<AllocError> for ScenarioFault {
    ghost use Rattle.std.specs.Prelude.{◌≡◌};
    ghost use Rattle.scenarios.specs.declared.error.ScenarioFault.TheVariants.{Memory};

    ghost from_gives = { λ error fault. fault ≡ Memory error };

    fn from(error: AllocError) -> ScenarioFault {
        ScenarioFault::Memory(error)
    }
}

/// Why a host is not added.
#[derive(Debug, Drop, Error)]
pub enum HostFault {
    /// The name or the address is not valid, or the name is there already.
    #[error("a host is NAME=ADDR, each name once")]
    BadHost,
    /// An allocation failed.
    #[error("out of memory")]
    Memory(AllocError),
}

impl From<AllocError> for HostFault {
    ghost use Rattle.std.specs.Prelude.{◌≡◌};
    ghost use Rattle.scenarios.specs.declared.error.HostFault.TheVariants.{Memory};

    ghost from_gives = { λ error fault. fault ≡ Memory error };

    fn from(error: AllocError) -> HostFault {
        HostFault::Memory(error)
    }
}
