//! The members of each object, in the order in which they are walked.

ghost use Rattle.std.specs.Prelude.{◌≡◌, map};
ghost use Rattle.config_json.specs.{row_of, form_numbered, top_table, event_table};

use crate::kind::Kind;
use ids_types::INTERNALS;

/// The forms of the file.
#[derive(Clone, Copy, Debug)]
pub(crate) enum Form {
    First,
    Second,
}

impl Form {
    /// The form of this number.
    pub(crate) fn numbered(number: u64) -> Option<Form>
        ensures { result ≡ form_numbered number }
    {
        match number {
            1 => Some(Form::First),
            2 => Some(Form::Second),
            _ => None,
        }
    }
}

/// A member that an object may have.
#[derive(Clone, Copy, Debug)]
pub(crate) struct MemberRow {
    pub(crate) name: &'static str,
    pub(crate) kind: Kind,
    pub(crate) required: bool,
}

/// A member that has to be there.
macro_rules! must {
    ($name:literal, $kind:ident) => {
        MemberRow { name: $name, kind: Kind::$kind, required: true }
    };
}

/// A member that may be left out.
macro_rules! may {
    ($name:literal, $kind:ident) => {
        MemberRow { name: $name, kind: Kind::$kind, required: false }
    };
}

/// The members of the top, with these after `form`.
macro_rules! top {
    ($($row:expr),*) => {
        [
            must!("form", Whole),
            $($row,)*
            must!("instance", Whole),
            may!("callers", Whole),
            may!("ring", Whole),
            may!("memory", Whole),
            may!("state", Whole),
            may!("classes", List),
            may!("rate", ObjectOrNull),
            may!("traffic", ObjectOrNull),
            must!("events", List),
            may!("internal", Object),
        ]
    };
}

const TOP: [MemberRow; 11] = top!();

const TOP_2: [MemberRow; 12] = top!(may!("profile", Whole));

/// The members of the top in a file of this form.
pub(crate) fn top_rows(form: Form) -> &'static [MemberRow]
    ensures { map row_of result.now ≡ top_table form }
{
    match form {
        Form::First => &TOP,
        Form::Second => &TOP_2,
    }
}

pub(crate) const CLASS: [MemberRow; 2] = [must!("size", Whole), must!("number", Whole)];

pub(crate) const RATE: [MemberRow; 2] = [must!("interval", Whole), must!("events", Whole)];

pub(crate) const TRAFFIC: [MemberRow; 2] = [must!("interval", Whole), must!("bytes", Whole)];

/// The members of an event, with these after `sensor`.
macro_rules! event {
    ($($row:expr),*) => {
        [
            must!("id", Whole),
            must!("sensor", Whole),
            $($row,)*
            may!("mode", Text),
            may!("send", Truth),
            may!("store", Truth),
            may!("block", Wholes),
            may!("nth", Whole),
            may!("aggregate", ObjectOrNull),
            may!("threshold", ObjectOrNull),
        ]
    };
}

const EVENT: [MemberRow; 9] = event!();

const EVENT_2: [MemberRow; 10] = event!(may!("version", Whole));

/// The members of an event in a file of this form.
pub(crate) fn event_rows(form: Form) -> &'static [MemberRow]
    ensures { map row_of result.now ≡ event_table form }
{
    match form {
        Form::First => &EVENT,
        Form::Second => &EVENT_2,
    }
}

pub(crate) const AGGREGATE: [MemberRow; 2] = [must!("interval", Whole), must!("context", Text)];

pub(crate) const THRESHOLD: [MemberRow; 2] = [must!("interval", Whole), must!("count", Whole)];

pub(crate) const INTERNAL: [MemberRow; INTERNALS] = [
    may!("lost_events", WholeOrNull),
    may!("lost_contexts", WholeOrNull),
    may!("limited", WholeOrNull),
];
