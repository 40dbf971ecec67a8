//! Which keys an event has.
ghost use Rattle.std.specs.Prelude.{◌≡◌, option_map};
ghost use Rattle.hint_core.specs.EventForms.{tracked_form, message_form, event_form};

/// Says which keys, besides `node` and `event`, a join, an update, a leave or a leave all has; `None` if `verb` names
/// none of these. `verb` is the word under the key `event`.
#[tactic(auto, unfolding(crate::specs::EventForms::tracked_form))]
fn tracked_form(verb: &str) -> Option<&'static str>
    ensures { option_map (λ form. form.now) result ≡ tracked_form verb.now }
{
    match verb {
        "join" => Some("a join has `pid`, `topic`, `key` and `meta`"),
        "update" => Some("an update has `pid`, `topic`, `key` and `meta`"),
        "leave" => Some("a leave has `pid`, `topic` and `key`"),
        "leave_all" => Some("a leave_all has `pid`"),
        _ => None,
    }
}

/// Like `tracked_form`, but also for an event that sends or takes a message: a broadcast, a request, an extract, a
/// deliver or an answer.
#[tactic(auto, unfolding(crate::specs::EventForms::message_form))]
fn message_form(verb: &str) -> Option<&'static str>
    ensures { option_map (λ form. form.now) result ≡ message_form verb.now }
{
    match verb {
        "broadcast" => Some("a broadcast has `message`"),
        "request" => Some("a request has `message`"),
        "extract" => Some("an extract has `names`, a list of strings, and `message`"),
        "deliver" => Some("a deliver has `from`, a string, and `message`"),
        "answer" => Some("an answer has `from`, a string, `message` and `sends`"),
        _ => tracked_form(verb),
    }
}

/// Like `message_form`, but also for an up, a down, a permdown and an online, and so for each event; `None` if no event
/// is called `verb`.
#[tactic(auto, unfolding(crate::specs::EventForms::event_form))]
pub(crate) fn event_form(verb: &str) -> Option<&'static str>
    ensures { option_map (λ form. form.now) result ≡ event_form verb.now }
{
    match verb {
        "up" => Some("an up has `name`, a string"),
        "down" => Some("a down has `name`, a string"),
        "permdown" => Some("a permdown has `name`, a string"),
        "online" => Some(
            "an online has `rows`, a list; each has `node`, a string, `pid`, `topic`, `key` and `meta`",
        ),
        _ => message_form(verb),
    }
}
