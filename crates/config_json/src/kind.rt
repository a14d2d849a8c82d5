//! What a member may be.

ghost use Rattle.std.specs.Prelude.{◌≡◌, length, is_some};
ghost use Rattle.std.specs.List.{list_all};
ghost use Rattle.serde_json.specs.Find.{as_null};
ghost use Rattle.serde_json.specs.View.{view, items_view};
ghost use Rattle.config_json.specs.Members.{has_kind as of_kind, is_whole as whole, are_wholes as wholes};

use serde_json::Value;

/// The kinds of members.
#[derive(Clone, Copy, Debug, PartialEq, Eq)]
pub(crate) enum Kind {
    /// An unsigned number of 64 bits.
    Whole,
    WholeOrNull,
    /// `true` or `false`.
    Truth,
    Text,
    /// A list of anything.
    List,
    /// A list of whole numbers.
    Wholes,
    Object,
    ObjectOrNull,
}

/// The value is of the kind.
pub(crate) fn has_kind(kind: Kind, value: &Value) -> bool
    ensures { result ≡ of_kind kind (view value.now) }
{
    match kind {
        Kind::Whole => value.is_u64(),
        Kind::WholeOrNull => value.is_null() || value.is_u64(),
        Kind::Truth => value.is_boolean(),
        Kind::Text => value.is_string(),
        Kind::List => value.is_array(),
        Kind::Wholes => are_wholes(value),
        Kind::Object => value.is_object(),
        Kind::ObjectOrNull => value.is_null() || value.is_object(),
    }
}

/// A list of whole numbers.
#[tactic(auto, using(crate::proofs::PrintedLemmas::all_elements))]
fn are_wholes(value: &Value) -> bool
    ensures { result ≡ wholes (view value.now) }
{
    match value.as_array() {
        Some(values) => are_all_whole(values),
        None => false,
    }
}

fn are_all_whole(values: &[Value]) -> bool
    ensures { result ≡ list_all (λ value. whole (view value)) values.now }
{
    values.iter().all(Value::is_u64)
}
