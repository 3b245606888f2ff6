//! Fields of JSON objects; a null field is absent. `None` means that a field is of the wrong kind, or that a required one is absent.
ghost use Rattle.std.specs.Prelude.{◌≡◌, option_map};
ghost use Rattle.serde_json.specs.View.{view, items_view};
ghost use Rattle.scenarios.specs.Fields.{field, required_text, is_text_or_absent, is_object_or_absent, optional_text, optional_whole, optional_flag, optional_list};

use serde_json::Value;

// The field of an object with a name, unless it is null.
pub(crate) fn field<'a>(value: &'a Value, name: &str) -> Option<&'a Value>
    ensures { option_map (λ v. view v.now) result ≡ field name.now (view value.now) }
{
    match value.get(name) {
        Some(Value::Null) => None,
        found => found,
    }
}

pub(crate) fn required_text<'a>(value: &'a Value, name: &str) -> Option<&'a str>
    ensures { option_map (λ s. s.now) result ≡ required_text name.now (view value.now) }
{
    field(value, name)?.as_str()
}

pub(crate) fn is_text_or_absent(value: &Value, name: &str) -> bool
    ensures { result ≡ is_text_or_absent name.now (view value.now) }
{
    match field(value, name) {
        None => true,
        Some(found) => found.is_string(),
    }
}

pub(crate) fn is_object_or_absent(value: &Value, name: &str) -> bool
    ensures { result ≡ is_object_or_absent name.now (view value.now) }
{
    match field(value, name) {
        None => true,
        Some(found) => found.is_object(),
    }
}

// A text, which is empty if it is absent.
pub(crate) fn optional_text<'a>(value: &'a Value, name: &str) -> Option<&'a str>
    ensures { option_map (λ s. s.now) result ≡ optional_text name.now (view value.now) }
{
    match field(value, name) {
        None => Some(""),
        Some(found) => found.as_str(),
    }
}

// A whole number below 2^64, which is `absent` if it is absent.
pub(crate) fn optional_whole(value: &Value, name: &str, absent: u64) -> Option<u64>
    ensures { result ≡ optional_whole absent name.now (view value.now) }
{
    match field(value, name) {
        None => Some(absent),
        Some(found) => found.as_u64(),
    }
}

// A flag, which is true if it is absent.
pub(crate) fn optional_flag(value: &Value, name: &str) -> Option<bool>
    ensures { result ≡ optional_flag name.now (view value.now) }
{
    match field(value, name) {
        None => Some(true),
        Some(found) => found.as_bool(),
    }
}

// The items of an array, which has none if it is absent.
pub(crate) fn optional_list<'a>(value: &'a Value, name: &str) -> Option<&'a [Value]>
    ensures { option_map (λ s. items_view s.now) result ≡ optional_list name.now (view value.now) }
{
    match field(value, name) {
        None => Some(&[]),
        Some(found) => {
            let items = found.as_array()?;
            Some(items.as_slice())
        }
    }
}
