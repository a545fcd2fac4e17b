//! The words with which steps begin.
ghost use Rattle.std.specs.Prelude.{◌≡◌, option_and_then};
ghost use Rattle.serde_json.specs.Find.{as_str};
ghost use Rattle.serde_json.specs.View.{view};
ghost use Rattle.acc_schedule.specs.Words.{word_of};

use serde_json::Value;

/// The word of a step.
#[derive(Clone, Copy)]
pub(crate) enum Word {
    Begin,
    Deliver,
    Drop,
    Recover,
    Slow,
    Restart,
    Fail,
    Drain,
}

/// The word that the value is.
pub(crate) fn word_in(value: &Value) -> Option<Word>
    ensures { result ≡ option_and_then word_of (as_str (view value.now)) }
{
    match value.as_str()? {
        "begin" => Some(Word::Begin),
        "deliver" => Some(Word::Deliver),
        "drop" => Some(Word::Drop),
        "recover" => Some(Word::Recover),
        "slow" => Some(Word::Slow),
        "restart" => Some(Word::Restart),
        "fail" => Some(Word::Fail),
        "drain" => Some(Word::Drain),
        _ => None,
    }
}
