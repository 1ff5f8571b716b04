ghost use Rattle.std.specs.Prelude.{◌≡◌};
ghost use Rattle.script_text.specs.Reports.{state_name, reason_name, refusal_name};

use index_def::Reason;
use n1ql_value::State;

/// The name of a state.
pub(crate) fn state_name(state: State) -> &'static str
    ensures { result.now ≡ state_name state }
{
    match state {
        State::Deferred => "deferred",
        State::Building => "building",
        State::Online => "online",
    }
}

/// The name of a reason against a definition.
pub(crate) fn reason_name(reason: Reason) -> &'static str
    ensures { result.now ≡ reason_name reason }
{
    match reason {
        Reason::TooManyKeys => "too_many_keys",
        Reason::TwoArrays => "two_arrays",
        Reason::ConstantKey => "constant_key",
        Reason::MetaAlias => "meta_alias",
        Reason::With => "with",
    }
}

/// The name of a code of refusals.
pub(crate) fn refusal_name(code: u8) -> &'static str
    ensures { result.now ≡ refusal_name code }
{
    match code {
        0 | 1 => "parse",
        2 => "keyspace",
        3 => "bad_definition",
        4 => "exists",
        5 => "unknown_index",
        6 => "not_deferred",
        7 => "too_many_indexes",
        8 => "not_online",
        9 => "no_index",
        10 => "dropped",
        11 => "not_yet",
        12 => "answer_too_large",
        _ => "",
    }
}
