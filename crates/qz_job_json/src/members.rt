//! What the members of an object say.
ghost use Rattle.std.specs.Prelude.{◌≡◌, ◌≤ℤ◌, IsTrue, IfSome, option_map, string_bytes};
ghost use Rattle.std.specs.List.{list_all};
ghost use Rattle.std.specs.BTreeMap.{keys};
ghost use Rattle.serde_json.specs.View.{view};
ghost use Rattle.qz_civil.specs.Timings.{is_span, is_name, is_end};
ghost use Rattle.qz_types.specs.Rows.{is_calendar, is_node};
ghost use Rattle.qz_job_json.specs.Forms.{members_of};
ghost use Rattle.qz_job_json.specs.Members.{is_among, has_only, text_at, number_at, span_at, name_at, node_at, name_or, group_at, integer_in, integer_or, optional_integer_at, optional_span_at, optional_name_at, flag_or, flag_at};

use crate::forms::Form;
use qz_types::{LONGEST, NAME_LIMIT, NODE_LIMIT};
use serde_json::{Map, Value};

fn map_has_only(map: &Map<String, Value>, form: Form) -> bool
    ensures { result ≡ list_all (λ name. is_among (members_of form) (string_bytes name)) (keys map.now) }
{
    map.keys().all(|name| form.has(name.as_str()))
}

/// Whether each member of the object is one that it may have.
#[tactic(auto, using(crate::proofs::Names::all_names))]
pub(crate) fn has_only(value: &Value, form: Form) -> bool
    ensures { result ≡ has_only (members_of form) (view value.now) }
{
    match value.as_object() {
        Some(map) => map_has_only(map, form),
        None => true,
    }
}

/// The text under this name.
pub(crate) fn text_at<'v>(value: &'v Value, name: &str) -> Option<&'v str>
    ensures { option_map (λ text. text.now) result ≡ text_at name.now (view value.now) }
{
    value.get(name).and_then(Value::as_str)
}

/// The whole number from 0 to `u64::MAX` under this name.
pub(crate) fn number_at(value: &Value, name: &str) -> Option<u64>
    ensures { result ≡ number_at name.now (view value.now) }
{
    value.get(name).and_then(Value::as_u64)
}

/// The time or span of time under this name, in ms.
pub(crate) fn span_at(value: &Value, name: &str) -> Option<i64>
    ensures value { result ≡ span_at name.now (view value.now) }
    ensures valid { IfSome result (λ ms. IsTrue (is_span ms)) }
{
    let ms = value.get(name).and_then(Value::as_i64)?;
    if 0 <= ms && ms <= LONGEST {
        Some(ms)
    } else {
        None
    }
}

/// The whole number of 64 bits under this name, which may be missing. None is a member that is no such number.
pub fn optional_integer_at(value: &Value, name: &str) -> Option<Option<i64>>
    ensures { result ≡ optional_integer_at name.now (view value.now) }
{
    match value.get(name) {
        Some(member) => member.as_i64().map(Some),
        None => Some(None),
    }
}

fn is_name(text: &str) -> bool
    ensures { result ≡ is_name text.now }
{
    !text.is_empty() && text.len() as u64 <= NAME_LIMIT
}

fn is_node(text: &str) -> bool
    ensures { result ≡ is_node text.now }
{
    !text.is_empty() && text.len() as u64 <= NODE_LIMIT
}

/// The group, name or class under this name.
pub(crate) fn name_at<'v>(value: &'v Value, name: &str) -> Option<&'v str>
    ensures value { option_map (λ text. text.now) result ≡ name_at name.now (view value.now) }
    ensures valid { IfSome result (λ text. IsTrue (is_name text.now)) }
{
    let text = text_at(value, name)?;
    if is_name(text) { Some(text) } else { None }
}

/// The node under this name.
pub(crate) fn node_at<'v>(value: &'v Value, name: &str) -> Option<&'v str>
    ensures value { option_map (λ text. text.now) result ≡ node_at name.now (view value.now) }
    ensures valid { IfSome result (λ text. IsTrue (is_node text.now)) }
{
    let text = text_at(value, name)?;
    if is_node(text) { Some(text) } else { None }
}

/// The name under this name, and the default where there is no such member.
pub(crate) fn name_or<'v>(value: &'v Value, name: &str, default: &'v str) -> Option<&'v str>
    requires { IsTrue (is_name default.now) }
    ensures value { option_map (λ text. text.now) result ≡ name_or default.now name.now (view value.now) }
    ensures valid { IfSome result (λ text. IsTrue (is_name text.now)) }
{
    match value.get(name) {
        Some(_) => name_at(value, name),
        None => Some(default),
    }
}

/// The group under this name, and `DEFAULT` where there is no such member.
pub(crate) fn group_at<'v>(value: &'v Value, name: &str) -> Option<&'v str>
    ensures value { option_map (λ text. text.now) result ≡ group_at name.now (view value.now) }
    ensures valid { IfSome result (λ text. IsTrue (is_name text.now)) }
{
    name_or(value, name, "DEFAULT")
}

/// The whole number that the value is, if it is one from `low` to `high`.
pub fn integer_in(value: &Value, low: i64, high: i64) -> Option<i64>
    ensures value { result ≡ integer_in low high (view value.now) }
    ensures low { IfSome result (λ n. low ≤ℤ n) }
    ensures high { IfSome result (λ n. n ≤ℤ high) }
{
    let n = value.as_i64()?;
    if low <= n && n <= high { Some(n) } else { None }
}

/// The whole number from `low` to `high` under this name, and the default where there is no such member.
pub(crate) fn integer_or(
    value: &Value,
    name: &str,
    low: i64,
    high: i64,
    default: i64,
) -> Option<i64>
    requires low { low ≤ℤ default }
    requires high { default ≤ℤ high }
    ensures value { result ≡ integer_or low high default name.now (view value.now) }
    ensures low { IfSome result (λ n. low ≤ℤ n) }
    ensures high { IfSome result (λ n. n ≤ℤ high) }
{
    match value.get(name) {
        Some(member) => integer_in(member, low, high),
        None => Some(default),
    }
}

/// The time or span of time under this name, in ms, which may be missing. None is a member that is no such number.
pub(crate) fn optional_span_at(value: &Value, name: &str) -> Option<Option<i64>>
    ensures value { result ≡ optional_span_at name.now (view value.now) }
    ensures valid { IfSome result (λ end. IsTrue (is_end end)) }
{
    match value.get(name) {
        Some(_) => span_at(value, name).map(Some),
        None => Some(None),
    }
}

/// The name under this name, which may be missing. None is a member that is no name.
pub(crate) fn optional_name_at<'v>(value: &'v Value, name: &str) -> Option<Option<&'v str>>
    ensures value { option_map (λ found. option_map (λ text. text.now) found) result ≡ optional_name_at name.now (view value.now) }
    ensures valid { IfSome result (λ found. IsTrue (is_calendar (option_map (λ text. text.now) found))) }
{
    match value.get(name) {
        Some(_) => name_at(value, name).map(Some),
        None => Some(None),
    }
}

/// The truth value under this name, `otherwise` where there is no such member. None is a member that is none.
pub(crate) fn flag_or(value: &Value, name: &str, otherwise: bool) -> Option<bool>
    ensures { result ≡ flag_or otherwise name.now (view value.now) }
{
    match value.get(name) {
        Some(member) => member.as_bool(),
        None => Some(otherwise),
    }
}

/// The same, false where there is no such member.
pub(crate) fn flag_at(value: &Value, name: &str) -> Option<bool>
    ensures { result ≡ flag_at name.now (view value.now) }
{
    flag_or(value, name, false)
}
