//! The fields and attributes of scenarios, as a file has them and as they are to be.
use crate::lines::Said;
use crate::shown::{quoted, shown};
use serde_json::Value;
use std::alloc::{AllocError, Global};

// made: hints (by tests/tree/made.py, of docs/toxics.tsv)
// The attributes of each type of toxics: what they count, and their least and greatest number.
const ATTRIBUTES: [(&str, &str, &str, u64, u64); 10] = [
    ("latency", "latency", "milliseconds", 0, 1000000000),
    ("latency", "jitter", "milliseconds", 0, 1000000000),
    ("bandwidth", "rate", "KB a second", 1, 1000000),
    ("slow_close", "delay", "milliseconds", 0, 1000000000),
    ("timeout", "timeout", "milliseconds", 0, 1000000000),
    ("reset_peer", "timeout", "milliseconds", 0, 1000000000),
    ("slicer", "average_size", "bytes", 1, 1000000000),
    ("slicer", "size_variation", "bytes", 0, 1000000000),
    ("slicer", "delay", "microseconds", 0, 1000000000),
    ("limit_data", "bytes", "bytes", 0, 1000000000000),
];
// end

/// The first attribute of a scenario that its toxic's type does not have, and those that it has.
pub fn ignored_attribute(alloc: Global, text: &[u8]) -> Result<Option<String>, AllocError> {
    let tree = Value::from_slice(alloc, text).unwrap_or(Value::Null);
    for proxy in items(Some(&tree)) {
        for toxic in items(field(proxy, "toxics")) {
            if let Some(unknown) = unknown_attribute(alloc, toxic)? {
                return Ok(Some(unknown));
            }
        }
    }
    Ok(None)
}

/// The field of an object with a name, unless it is null, which is absent.
pub(crate) fn field<'a>(value: &'a Value, name: &str) -> Option<&'a Value> {
    value.get(name).filter(|found| !found.is_null())
}

pub(crate) fn items(value: Option<&Value>) -> &[Value] {
    let array = value.and_then(Value::as_array);
    array.map_or(&[], |array| array.as_slice())
}

pub(crate) fn text_at<'a>(value: &'a Value, name: &str) -> &'a str {
    field(value, name).and_then(Value::as_str).unwrap_or("")
}

pub(crate) fn kind_of(value: &Value) -> &'static str {
    match value {
        Value::Null => "null",
        Value::Bool(_) => "true or false",
        Value::Number(_) => "a number",
        Value::String(_) => "a text",
        Value::Array(_) => "an array",
        Value::Object(_) => "an object",
    }
}

/// The first field that is not as it is to be. If each is, a name is empty.
pub(crate) fn wrong_field(alloc: Global, value: &Value, fields: &[(&str, &str, bool)]) -> Said {
    if !value.is_object() {
        return say!(alloc; "it is {}, and an object is expected", kind_of(value));
    }
    for (name, expected, is_required) in fields.iter().copied() {
        let kind = field(value, name).map(kind_of);
        if kind.map_or(is_required, |kind| kind != expected) {
            let is = kind.unwrap_or("missing");
            return say!(alloc; "its \"{name}\" is {is}, and {expected} is expected");
        }
    }
    say!(alloc; "its \"name\" is empty, and a name is expected")
}

/// The first attribute that is out of its range. If none is, slices vary by too much.
pub(crate) fn wrong_attribute(alloc: Global, toxic: &Value) -> Said {
    let attributes = field(toxic, "attributes").unwrap_or(&Value::Null);
    let toxic_type = text_at(toxic, "type");
    for (of, name, unit, least, most) in ATTRIBUTES.iter().copied() {
        let number = field(attributes, name).map_or(Some(0), Value::as_u64);
        let is_right = number.is_some_and(|number| least <= number && number <= most);
        if of == toxic_type && !is_right {
            let expected =
                say!(alloc; "a whole number of {unit} from {least} to {most} is expected")?;
            let mut text = its(alloc, attributes, name, &expected)?;
            if let Some(unknown) = unknown_attribute(alloc, toxic)? {
                write!(text, "; {unknown}")?;
            }
            return Ok(text);
        }
    }
    let expected = "less than \"average_size\" is expected";
    its(alloc, attributes, "size_variation", expected)
}

// The first attribute of a toxic that its type does not have, and those that it has.
fn unknown_attribute(alloc: Global, toxic: &Value) -> Result<Option<String>, AllocError> {
    let toxic_type = text_at(toxic, "type");
    let Some(attributes) = field(toxic, "attributes").and_then(Value::as_object) else {
        return Ok(None);
    };
    for (name, _) in attributes.iter() {
        let mut own = ATTRIBUTES.iter().filter(|row| row.0 == toxic_type);
        if own.all(|row| row.1 != name.as_str()) {
            let mut text = say!(alloc; "{} is ignored: {toxic_type} has", quoted(alloc, name)?)?;
            for row in ATTRIBUTES.iter().filter(|row| row.0 == toxic_type) {
                write!(text, " \"{}\"", row.1)?;
            }
            return Ok(Some(text));
        }
    }
    Ok(None)
}

/// What a field is, as it stands in the file, and what is expected.
pub(crate) fn its(alloc: Global, value: &Value, name: &str, expected: &str) -> Said {
    let Some(found) = field(value, name) else {
        return say!(alloc; "its \"{name}\" is missing, and {expected}");
    };
    let text = found.to_string(alloc)?;
    say!(alloc; "its \"{name}\" is {}, and {expected}", shown(alloc, &text)?)
}
