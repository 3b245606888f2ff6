//! What helps if a toxic was refused.
use crate::attributes::{field, its, text_at, wrong_attribute, wrong_field};
use crate::lines::Said;
use crate::shown::quoted;
use scenarios::Cause;
use serde_json::Value;
use std::alloc::Global;

// The fields of a toxic except both of its toxicity: what each is, and whether it has to be there.
const FIELDS: &[(&str, &str, bool)] = &[
    ("type", "a text", true),
    ("name", "a text", false),
    ("stream", "a text", false),
    ("attributes", "an object", false),
];

pub(crate) fn toxic_hint(alloc: Global, toxic: &Value, cause: Cause) -> Said {
    let (toxic_type, stream) = (text_at(toxic, "type"), text_at(toxic, "stream"));
    match cause {
        Cause::BadMember if !toxic.is_object() || !toxic_type.is_empty() => wrong_field(
            alloc, toxic, FIELDS,
        ),
        Cause::BadMember | Cause::UnknownToxic => {
            let expected =
                "latency, bandwidth, slow_close, timeout, reset_peer, slicer or limit_data is expected";
            its(alloc, toxic, "type", expected)
        }
        Cause::BadStream => its(alloc, toxic, "stream", "upstream or downstream is expected"),
        Cause::DuplicateToxic if text_at(toxic, "name").is_empty() => {
            let stream = if stream.is_empty() {
                "downstream"
            } else {
                stream
            };
            say!(alloc; "an earlier toxic of the proxy has the name \"{toxic_type}_{stream}\", which it has too without a \"name\": give it one")
        }
        Cause::DuplicateToxic => {
            let name = quoted(alloc, text_at(toxic, "name"))?;
            say!(alloc; "an earlier toxic of the proxy has the name {name}: rename one of them")
        }
        Cause::AttributeRange => wrong_attribute(alloc, toxic),
        Cause::TooMany =>
            say!(alloc; "it is the ninth of its stream: a stream has at most 8 toxics"),
        _ => wrong_toxicity(alloc, toxic),
    }
}

fn wrong_toxicity(alloc: Global, toxic: &Value) -> Said {
    let toxicity = field(toxic, "toxicity").unwrap_or(&Value::Null);
    if toxicity.is_null() || matches!(toxicity.as_u64(), Some(0 | 1)) {
        let expected = "a whole number from 0 to 1000000 is expected";
        return its(alloc, toxic, "toxicity_ppm", expected);
    }
    let text = toxicity.to_string(alloc)?;
    let expected = match text.strip_prefix("0.") {
        Some(digits) => {
            let digits = say!(alloc; "{digits}00000")?;
            let count: u32 = digits.get(..6).unwrap_or("").parse().unwrap_or(0);
            say!(alloc; "0 or 1 is expected: write \"toxicity_ppm\": {count} in its place")?
        }
        None => say!(alloc; "0 or 1 is expected, or \"toxicity_ppm\", up to 1000000")?,
    };
    its(alloc, toxic, "toxicity", &expected)
}
