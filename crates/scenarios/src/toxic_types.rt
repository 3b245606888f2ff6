//! Types, streams and numbers of toxics, as a file gives them.
ghost use Rattle.std.specs.Prelude.{◌≡◌};
ghost use Rattle.serde_json.specs.View.{view};
ghost use Rattle.scenarios.specs.declared.toxic_types.ToxicType.TheVariants.{Slicer};
ghost use Rattle.scenarios.specs.ToxicTypes.{toxic_type, stream_named, default_name, name_of, attribute, kind_of, kind_in_range, ppm_of};

use crate::fields::{field, optional_whole};
use serde_json::Value;
use toxic_defs::Kind;

// A toxic with this `ppm` applies to each connection.
const MILLION: u64 = 1_000_000;

#[derive(Clone, Copy, Debug, PartialEq, Eq)]
pub(crate) enum ToxicType {
    Latency,
    Bandwidth,
    SlowClose,
    Timeout,
    ResetPeer,
    Slicer,
    LimitData,
}

// The direction that a toxic changes: from the client to the server, or back.
#[derive(Clone, Copy, Debug, PartialEq, Eq)]
pub(crate) enum Stream {
    Upstream,
    Downstream,
}

pub(crate) fn toxic_type(text: &str) -> Option<ToxicType>
    ensures { result ≡ toxic_type text.now }
{
    match text {
        "latency" => Some(ToxicType::Latency),
        "bandwidth" => Some(ToxicType::Bandwidth),
        "slow_close" => Some(ToxicType::SlowClose),
        "timeout" => Some(ToxicType::Timeout),
        "reset_peer" => Some(ToxicType::ResetPeer),
        "slicer" => Some(ToxicType::Slicer),
        "limit_data" => Some(ToxicType::LimitData),
        _ => None,
    }
}

pub(crate) fn stream_named(text: &str) -> Option<Stream>
    ensures { result ≡ stream_named text.now }
{
    match text {
        "upstream" => Some(Stream::Upstream),
        "downstream" => Some(Stream::Downstream),
        "" => Some(Stream::Downstream),
        _ => None,
    }
}

fn default_name(toxic_type: ToxicType, stream: Stream) -> &'static str
    ensures { result.now ≡ default_name toxic_type stream }
{
    match (toxic_type, stream) {
        (ToxicType::Latency, Stream::Upstream) => "latency_upstream",
        (ToxicType::Latency, Stream::Downstream) => "latency_downstream",
        (ToxicType::Bandwidth, Stream::Upstream) => "bandwidth_upstream",
        (ToxicType::Bandwidth, Stream::Downstream) => "bandwidth_downstream",
        (ToxicType::SlowClose, Stream::Upstream) => "slow_close_upstream",
        (ToxicType::SlowClose, Stream::Downstream) => "slow_close_downstream",
        (ToxicType::Timeout, Stream::Upstream) => "timeout_upstream",
        (ToxicType::Timeout, Stream::Downstream) => "timeout_downstream",
        (ToxicType::ResetPeer, Stream::Upstream) => "reset_peer_upstream",
        (ToxicType::ResetPeer, Stream::Downstream) => "reset_peer_downstream",
        (ToxicType::Slicer, Stream::Upstream) => "slicer_upstream",
        (ToxicType::Slicer, Stream::Downstream) => "slicer_downstream",
        (ToxicType::LimitData, Stream::Upstream) => "limit_data_upstream",
        (ToxicType::LimitData, Stream::Downstream) => "limit_data_downstream",
    }
}

pub(crate) fn name_of(text: &str, toxic_type: ToxicType, stream: Stream) -> &str
    ensures { result.now ≡ name_of text.now toxic_type stream }
{
    if text.is_empty() {
        default_name(toxic_type, stream)
    } else {
        text
    }
}

fn attribute(toxic: &Value, name: &str) -> Option<u64>
    ensures { result ≡ attribute name.now (view toxic.now) }
{
    match field(toxic, "attributes") {
        None => Some(0),
        Some(attributes) => optional_whole(attributes, name, 0),
    }
}

fn slicer(toxic: &Value) -> Option<Kind>
    ensures { result ≡ kind_of Slicer (view toxic.now) }
{
    let average_size = attribute(toxic, "average_size")?;
    let size_variation = attribute(toxic, "size_variation")?;
    let delay = attribute(toxic, "delay")?;
    Some(Kind::Slicer {
        average_size,
        size_variation,
        delay,
    })
}

fn kind_of(toxic_type: ToxicType, toxic: &Value) -> Option<Kind>
    ensures { result ≡ kind_of toxic_type (view toxic.now) }
{
    match toxic_type {
        ToxicType::Latency => {
            let latency = attribute(toxic, "latency")?;
            let jitter = attribute(toxic, "jitter")?;
            Some(Kind::Latency { latency, jitter })
        }
        ToxicType::Bandwidth => {
            let rate = attribute(toxic, "rate")?;
            Some(Kind::Bandwidth { rate })
        }
        ToxicType::SlowClose => {
            let delay = attribute(toxic, "delay")?;
            Some(Kind::SlowClose { delay })
        }
        ToxicType::Timeout => {
            let timeout = attribute(toxic, "timeout")?;
            Some(Kind::Timeout { timeout })
        }
        ToxicType::ResetPeer => {
            let timeout = attribute(toxic, "timeout")?;
            Some(Kind::ResetPeer { timeout })
        }
        ToxicType::Slicer => slicer(toxic),
        ToxicType::LimitData => {
            let bytes = attribute(toxic, "bytes")?;
            Some(Kind::LimitData { bytes })
        }
    }
}

pub(crate) fn kind_in_range(toxic_type: ToxicType, toxic: &Value) -> Option<Kind>
    ensures { result ≡ kind_in_range toxic_type (view toxic.now) }
{
    let kind = kind_of(toxic_type, toxic)?;
    if kind.fits() { Some(kind) } else { None }
}

// The number of connections in a million that a toxic applies to. A toxicity has to be valid even if `toxicity_ppm` is there.
pub(crate) fn ppm_of(toxic: &Value) -> Option<u64>
    ensures { result ≡ ppm_of (view toxic.now) }
{
    let toxicity = optional_whole(toxic, "toxicity", 1)?;
    if toxicity > 1 {
        return None;
    }
    let ppm = optional_whole(toxic, "toxicity_ppm", toxicity * MILLION)?;
    if ppm > MILLION { None } else { Some(ppm) }
}
