//! The words that the script language itself defines: keywords and verbs. `keyword_of` and `verb_of` compare lengths
//! first, since at most two keywords and at most four verbs have the same length.
ghost use Rattle.std.specs.Prelude.{◌≡◌};
ghost use Rattle.grammar_core.specs.Grammar.{keyword_of, verb_of, is_for_consoles};

/// The first word of a line that doesn't begin with an actor's name.
#[derive(Clone, Copy)]
pub enum Keyword {
    Nodes,
    Consoles,
    Show,
    Dots,
    Why,
    Journal,
}

/// The second word of an actor's line.
#[derive(Clone, Copy)]
pub enum Verb {
    Join,
    Leave,
    LeaveAll,
    Update,
    Broadcast,
    Extract,
    Deliver,
    Request,
    Answer,
    Up,
    Down,
    Permdown,
    Undo,
    Back,
    Unwind,
}

/// The keyword that `word` spells; `None` if it spells none.
#[tactic(auto, unfolding(crate::specs::Grammar::keyword_of))]
pub fn keyword_of(word: &str) -> Option<Keyword>
    ensures { result ≡ keyword_of word.now }
{
    match word.len() {
        3 => match word {
            "why" => Some(Keyword::Why),
            _ => None,
        },
        4 => match word {
            "show" => Some(Keyword::Show),
            "dots" => Some(Keyword::Dots),
            _ => None,
        },
        5 => match word {
            "nodes" => Some(Keyword::Nodes),
            _ => None,
        },
        7 => match word {
            "journal" => Some(Keyword::Journal),
            _ => None,
        },
        8 => match word {
            "consoles" => Some(Keyword::Consoles),
            _ => None,
        },
        _ => None,
    }
}

/// The verb that `word` spells; `None` if it spells none.
#[tactic(auto, unfolding(crate::specs::Grammar::verb_of))]
pub fn verb_of(word: &str) -> Option<Verb>
    ensures { result ≡ verb_of word.now }
{
    match word.len() {
        2 => match word {
            "up" => Some(Verb::Up),
            _ => None,
        },
        4 => match word {
            "join" => Some(Verb::Join),
            "down" => Some(Verb::Down),
            "undo" => Some(Verb::Undo),
            "back" => Some(Verb::Back),
            _ => None,
        },
        5 => match word {
            "leave" => Some(Verb::Leave),
            _ => None,
        },
        6 => match word {
            "update" => Some(Verb::Update),
            "answer" => Some(Verb::Answer),
            "unwind" => Some(Verb::Unwind),
            _ => None,
        },
        7 => match word {
            "extract" => Some(Verb::Extract),
            "deliver" => Some(Verb::Deliver),
            "request" => Some(Verb::Request),
            _ => None,
        },
        8 => match word {
            "leaveall" => Some(Verb::LeaveAll),
            "permdown" => Some(Verb::Permdown),
            _ => None,
        },
        9 => match word {
            "broadcast" => Some(Verb::Broadcast),
            _ => None,
        },
        _ => None,
    }
}

/// Whether a console may use the verb, and not nodes alone.
pub fn is_for_consoles(verb: Verb) -> bool
    ensures { result ≡ is_for_consoles verb }
{
    matches!(verb, Verb::Undo | Verb::Back | Verb::Unwind)
}
