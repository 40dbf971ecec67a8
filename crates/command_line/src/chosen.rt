//! What a command line chooses.

/// What a subcommand is asked about: the presences under `topic` and `key` at the node named `node`.
#[derive(Clone, Copy, Debug, PartialEq, Eq)]
pub struct Question<'w> {
    pub node: &'w str,
    pub topic: &'w str,
    pub key: &'w str,
}

/// What an exploration is about.
#[derive(Clone, Copy, Debug, PartialEq, Eq)]
pub enum About<'w> {
    /// How the whole cluster ends.
    Cluster,
    /// How the node with this name ends.
    Node(&'w str),
    /// Which presences under a topic and a key a node lists at the end.
    Presence(Question<'w>),
}

/// What a picture of a run shows.
#[derive(Clone, Copy, Debug, PartialEq, Eq)]
pub struct Drawing<'w> {
    /// Lanes are thick where their nodes list presences under this topic and key: the lane of the node that is named,
    /// or each lane if the name is `-`.
    pub online: Option<Question<'w>>,
    /// The number of the step whose future is painted.
    pub why: Option<u64>,
    /// The number of the first step that is drawn.
    pub from: Option<u64>,
    /// The number of the last step that is drawn.
    pub to: Option<u64>,
}

/// What `import` makes of the events of logs: a script, a session or a page, unless `check` is set.
#[derive(Clone, Copy, Debug, PartialEq, Eq)]
pub struct ImportOptions {
    /// Whether to tell instead where the bench and the real nodes part.
    pub check: bool,
    /// Whether the line of each event stands below a comment with the event's line number in the logs.
    pub lines: bool,
    /// Whether to leave out, round by round, each event that takes a message which none of the rest sends.
    pub lenient: bool,
}

/// Which outcomes `explore` tells.
#[derive(Clone, Copy, Debug, PartialEq, Eq)]
pub struct ExploreOptions<'w> {
    pub about: About<'w>,
    /// How many deliveries may be missing.
    pub lost: usize,
    /// How many deliveries may come a second time.
    pub again: usize,
    /// How many different states are kept at most.
    pub states: usize,
    /// The number of the outcome to which the printed run leads; `None` for the outcomes themselves.
    pub outcome: Option<u64>,
}

/// What `whatif` tells: which single changes would have made a difference to the presences of `question`.
#[derive(Clone, Copy, Debug, PartialEq, Eq)]
pub struct WhatifOptions<'w> {
    pub question: Question<'w>,
    /// The number of the change with which the run is printed; `None` for the changes themselves.
    pub change: Option<u64>,
}

/// What the program does.
#[derive(Clone, Copy, Debug, PartialEq, Eq)]
pub enum Subcommand<'w> {
    /// Plays a script. If `strict`, a refused act or unwind is a fault.
    Play { strict: bool },
    /// Runs a script as a race: a worker for each actor asks that actor's lines.
    Race,
    /// Plays a saved session again. If `strict`, a refused act is a fault.
    Load { strict: bool },
    /// Makes a script, a session or a page from the events of logs, or tells where the bench and the real nodes part.
    Import(ImportOptions),
    /// Tells what the network could have made of a run, or prints a run that leads to one outcome.
    Explore(ExploreOptions<'w>),
    /// Takes a script line by line, and answers each before the next is read.
    Step,
    /// Draws a run.
    Draw(Drawing<'w>),
    /// Prints a page of HTML that shows a run.
    Page,
    /// Explains why presences are online at a node, or why not.
    Explain(Question<'w>),
    /// Tells which single changes would have made a difference, or prints the run with one change.
    Whatif(WhatifOptions<'w>),
}

/// What `play`, `race`, `load` or `import` prints once it is done. Other subcommands print the same in each form.
#[derive(Clone, Copy, Debug, PartialEq, Eq)]
pub enum Form {
    /// The report.
    Report,
    /// The report, with each call above what it printed.
    Steps,
    /// The calls as a script.
    Script,
    /// The session, which can be loaded again.
    Session,
    /// A page of HTML, which shows the run that logs give, and what else the logs tell.
    Page,
}

/// What the words of a command line ask for.
#[derive(Clone, Copy, Debug, PartialEq, Eq)]
pub struct Choice<'w> {
    pub command: Subcommand<'w>,
    pub form: Form,
}

/// What the options say, apart from the form.
#[derive(Clone, Copy, Debug, PartialEq, Eq)]
pub struct Options {
    /// Whether `--strict` is given; then a refused act or unwind is a fault.
    pub strict: bool,
    /// The number that `--why` gives: the step whose future is painted.
    pub why: Option<u64>,
    /// The number that `--from` gives: the first step that is drawn.
    pub from: Option<u64>,
    /// The number that `--to` gives: the last step that is drawn.
    pub to: Option<u64>,
    /// How many deliveries `--lost` allows to be missing.
    pub lost: Option<u64>,
    /// How many deliveries `--again` allows to come a second time.
    pub again: Option<u64>,
    /// How many different states `--states` allows to be kept.
    pub states: Option<u64>,
    /// The number of the outcome or of the change that `--script` names.
    pub script: Option<u64>,
    /// Whether `--check` asks where the bench and the real nodes part, in place of a script.
    pub check: bool,
    /// Whether `--lines` asks for a comment before the line of each event, with the event's line number in the logs.
    pub lines: bool,
    /// Whether `--lenient` asks to leave out, round by round, each event that takes a message which none of the rest
    /// sends.
    pub lenient: bool,
}
