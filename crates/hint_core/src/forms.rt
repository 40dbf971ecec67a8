//! The form that a line should have: which words, in which order.
ghost use Rattle.std.specs.Prelude.{◌≡◌};
ghost use Rattle.hint_core.specs.Forms.{actor_form, form};

/// Says which form an actor's line with the verb `verb` has; if `verb` isn't a verb, that the verb is missing.
#[tactic(auto, unfolding(crate::specs::Forms::actor_form))]
fn actor_form(verb: &str) -> &'static str
    ensures { result.now ≡ actor_form verb.now }
{
    match verb {
        "join" => "the form of the line is `NODE join PID TOPIC KEY META`, each one word",
        "leave" => "the form of the line is `NODE leave PID TOPIC KEY`, each one word",
        "leaveall" => "the form of the line is `NODE leaveall PID`",
        "update" => "the form of the line is `NODE update PID TOPIC KEY META`, each one word",
        "broadcast" => "the form of the line is `NODE broadcast`",
        "extract" => "the form of the line is `NODE extract NAME ..`, with 1 to 32 names",
        "deliver" => "the form of the line is `NODE deliver NAME NUMBER`",
        "request" => "the form of the line is `NODE request`",
        "answer" => "the form of the line is `NODE answer NAME NUMBER`",
        "up" => "the form of the line is `NODE up NAME`",
        "down" => "the form of the line is `NODE down NAME`",
        "permdown" => "the form of the line is `NODE permdown NAME`",
        "undo" => "the form of the line is `ACTOR undo NUMBER`",
        "back" => "the form of the line is `ACTOR back NAME`",
        "unwind" => "the form of the line is `ACTOR unwind NUMBER`",
        _ => "the form of the line is `ACTOR VERB ..`; the verb is missing",
    }
}

/// Says which form a line with the first word `first` and the second word `verb` has; if `first` isn't a keyword, the
/// line counts as an actor's.
#[tactic(auto, unfolding(crate::specs::Forms::form))]
pub(crate) fn form(first: &str, verb: &str) -> &'static str
    ensures { result.now ≡ form first.now verb.now }
{
    match first {
        "nodes" => "the form of the line is `nodes NAME ..`, with 1 to 32 names",
        "consoles" => "the form of the line is `consoles NAME ..`, with 1 to 16 names",
        "show" => "the form of the line is `show NAME`",
        "dots" => "the form of the line is `dots NAME`",
        "why" => "the form of the line is `why NUMBER`",
        "journal" => "the form of the line is `journal`",
        _ => actor_form(verb),
    }
}
