//! From words to a choice, by what `clap` finds in them.
ghost use Rattle.std.specs.Prelude.{◌≡◌, ℕ, IfErr, IfNone, IfOk, IfSome, OnErr, Option, codes, map};
ghost use Rattle.clap.specs.Words.{app_of, first_value, found_of, kind_of};
ghost use Rattle.clap.specs.declared.error.kind.ErrorKind.TheVariants.{InvalidValue, OutOfMemory};
ghost use Rattle.command_line.specs.Line.{app, AreOptions, AsksOtherwise, Chooses, IsChoiceOf, IsAbout, IsFlag, IsForm, IsOnline, IsNumber, IsQuestion, IsRefusal, IsUnnamed, Misspells, NeedsLast, Spells, SpellsBefore, Takes, can_print, name_of, usual_form};
ghost use Rattle.command_line.specs.declared.chosen.About.{About as Of};
ghost use Rattle.command_line.specs.declared.chosen.Choice.{Choice as Chosen};
ghost use Rattle.command_line.specs.declared.chosen.Form.{Form as Shown};
ghost use Rattle.command_line.specs.declared.chosen.Options.{Options as Given};
ghost use Rattle.command_line.specs.declared.chosen.Question.{Question as Asked};

use crate::chosen::{
    About, Choice, Drawing, ExploreOptions, Form, ImportOptions, Options, Question, Subcommand,
    WhatifOptions,
};
use crate::help::{
    DRAW_USAGE, EXPLAIN_USAGE, EXPLORE_USAGE, IMPORT_USAGE, LOAD_USAGE, PAGE_USAGE, PLAY_USAGE,
    RACE_USAGE, STEP_USAGE, WHATIF_USAGE,
};
use crate::subcommands::line;
use clap::error::ErrorKind;
use clap::{ArgMatches, Command, Error};
use std::alloc::{AllocError, Global};
use std::convert::AsStr;

/// How many different states an exploration keeps at most, if `--states` isn't given.
const MOST_STATES: u64 = 100_000;

/// The question that NODE, TOPIC and KEY make; `None` if one of them isn't given.
fn question_of<'a>(matches: &ArgMatches<'a>) -> Option<Question<'a>>
    ensures some { IfSome result (IsQuestion (λ id. first_value (found_of matches.now) id)) }
    ensures none { IfNone result ((question : Asked) → ¬ IsQuestion (λ id. first_value (found_of matches.now) id) question) }
{
    Some(Question {
        node: matches.get_str("NODE")?,
        topic: matches.get_str("TOPIC")?,
        key: matches.get_str("KEY")?,
    })
}

/// What an exploration or a picture is about: the cluster, a node, or a topic and a key at a node; `None` if there is a
/// topic without a key.
fn about_of<'a>(matches: &ArgMatches<'a>) -> Option<About<'a>>
    ensures some { IfSome result (IsAbout (λ id. first_value (found_of matches.now) id)) }
    ensures none { IfNone result ((about : Of) → ¬ IsAbout (λ id. first_value (found_of matches.now) id) about) }
{
    let Some(node) = matches.get_str("NODE") else {
        return Some(About::Cluster);
    };
    let Some(topic) = matches.get_str("TOPIC") else {
        return Some(About::Node(node));
    };
    let key = matches.get_str("KEY")?;
    Some(About::Presence(Question { node, topic, key }))
}

/// The presences for which a picture's lanes are thick. `Some(None)` if `about` is the cluster: no lane is thick then.
/// `None` if `about` is a node alone or `None`: no picture is about these.
fn online_of<'a>(about: Option<About<'a>>) -> Option<Option<Question<'a>>>
    ensures some { IfSome result (IsOnline about.entry) }
    ensures none { IfNone result (AsksOtherwise about.entry) }
{
    match about {
        Some(About::Cluster) => Some(None),
        Some(About::Presence(question)) => Some(Some(question)),
        Some(About::Node(_)) | None => None,
    }
}

/// The subcommand with this name, with the options and words that it takes; `None` if there is no such subcommand, or
/// words are missing.
fn command_of<'a>(
    name: &str,
    options: Options,
    question: Option<Question<'a>>,
    about: Option<About<'a>>,
) -> Option<Subcommand<'a>>
    ensures name { IfSome result (λ command. name.now ≡ name_of command) }
    ensures takes { IfSome result (Takes options question.entry about.entry) }
    ensures none { IfNone result (IsUnnamed name.now question.entry about.entry) }
{
    match name {
        "play" => Some(Subcommand::Play {
            strict: options.strict,
        }),
        "race" => Some(Subcommand::Race),
        "load" => Some(Subcommand::Load {
            strict: options.strict,
        }),
        "import" => Some(Subcommand::Import(ImportOptions {
            check: options.check,
            lines: options.lines,
            lenient: options.lenient,
        })),
        "explore" => Some(Subcommand::Explore(ExploreOptions {
            about: about?,
            lost: options.lost.unwrap_or(0) as usize,
            again: options.again.unwrap_or(0) as usize,
            states: options.states.unwrap_or(MOST_STATES) as usize,
            outcome: options.script,
        })),
        "step" => Some(Subcommand::Step),
        "draw" => Some(Subcommand::Draw(Drawing {
            online: online_of(about)?,
            why: options.why,
            from: options.from,
            to: options.to,
        })),
        "page" => Some(Subcommand::Page),
        "explain" => Some(Subcommand::Explain(question?)),
        "whatif" => Some(Subcommand::Whatif(WhatifOptions {
            question: question?,
            change: options.script,
        })),
        _ => None,
    }
}

/// The form in which a subcommand prints if none is named.
fn usual_form(command: Subcommand<'_>) -> Form
    ensures { result ≡ usual_form command.entry }
{
    match command {
        Subcommand::Import(_) => Form::Script,
        _ => Form::Report,
    }
}

/// The form that `--as` names, or `usual` if `--as` isn't given; `None` if its value isn't a form.
fn form_of<'a>(matches: &ArgMatches<'a>, usual: Form) -> Option<Form>
    ensures some { IfSome result (IsForm usual (first_value (found_of matches.now) (codes "as"))) }
    ensures none { IfNone result ((form : Shown) → ¬ IsForm usual (first_value (found_of matches.now) (codes "as")) form) }
{
    match matches.get_str("as") {
        None => Some(usual),
        Some("report") => Some(Form::Report),
        Some("steps") => Some(Form::Steps),
        Some("script") => Some(Form::Script),
        Some("session") => Some(Form::Session),
        Some("page") => Some(Form::Page),
        Some(_) => None,
    }
}

/// The number that an option gives: `Some(None)` if the option isn't given, and `None` if its value can't be read as a
/// `u64`.
fn number_of<'a>(matches: &ArgMatches<'a>, option: &str) -> Option<Option<u64>>
    ensures some { IfSome result (IsNumber (first_value (found_of matches.now) option.now)) }
    ensures none { IfNone result ((number : Option ℕ) → ¬ IsNumber (first_value (found_of matches.now) option.now) number) }
{
    match matches.get_str(option) {
        None => Some(None),
        Some(digits) => match digits.parse::<u64>() {
            Ok(number) => Some(Some(number)),
            Err(_) => None,
        },
    }
}

/// Whether the option, which has no value, is given.
fn has_flag<'a>(matches: &ArgMatches<'a>, option: &str) -> bool
    ensures { IsFlag (first_value (found_of matches.now) option.now) result }
{
    matches!(matches.get_str(option), Some("true"))
}

/// What the options of a subcommand say; or the text to print if the value of an option isn't a number.
fn options_of<'a>(matches: &ArgMatches<'a>) -> Result<Options, &'static str>
    ensures ok { IfOk result (AreOptions (λ option. first_value (found_of matches.now) option)) }
    ensures err { OnErr result ((options : Given) → ¬ AreOptions (λ option. first_value (found_of matches.now) option) options) }
{
    let Some(why) = number_of(matches, "why") else {
        return Err("--why takes the number of a step");
    };
    let Some(from) = number_of(matches, "from") else {
        return Err("--from takes the number of a step");
    };
    let Some(to) = number_of(matches, "to") else {
        return Err("--to takes the number of a step");
    };
    let Some(lost) = number_of(matches, "lost") else {
        return Err("--lost takes a number of deliveries");
    };
    let Some(again) = number_of(matches, "again") else {
        return Err("--again takes a number of deliveries");
    };
    let Some(states) = number_of(matches, "states") else {
        return Err("--states takes a number of states");
    };
    let Some(script) = number_of(matches, "script") else {
        return Err("--script takes the number of an outcome or of a change");
    };
    Ok(Options {
        strict: has_flag(matches, "strict"),
        check: has_flag(matches, "check"),
        lines: has_flag(matches, "lines"),
        lenient: has_flag(matches, "lenient"),
        why,
        from,
        to,
        lost,
        again,
        states,
        script,
    })
}

/// Whether the subcommand can print in this form: an import as a script and, without `--check`, as a session or a page;
/// a race as a report or a session; any other subcommand in each form but a page.
fn can_print(command: Subcommand<'_>, form: Form) -> bool
    ensures { result ≡ can_print command.entry form }
{
    match (command, form) {
        (Subcommand::Import(options), Form::Session | Form::Page) => !options.check,
        (Subcommand::Import(_), _) => form == Form::Script,
        (Subcommand::Race, _) => form == Form::Report || form == Form::Session,
        (_, _) => form != Form::Page,
    }
}

/// The text to print if the value of `--as` isn't a form in which the subcommand can print.
fn forms_of(command: Subcommand<'_>) -> &'static str {
    match command {
        Subcommand::Import(ImportOptions { check: true, .. }) =>
            "import --check prints what it found alone",
        Subcommand::Import(_) => "import prints a script, a session or a page",
        Subcommand::Race => "race prints a report or a session",
        _ => "--as takes report, steps, script or session",
    }
}

/// The text to print if a name and its words choose nothing: which words the subcommand takes, or that there is no such
/// subcommand.
fn unnamed(name: &str) -> &'static str {
    match name {
        "explore" => "explore takes a node, or a node, a topic and a key, or none",
        "draw" => "draw takes a node (- for each), a topic and a key, or none",
        _ => "no such subcommand",
    }
}

/// What a subcommand's name and words choose; or the text to print if they choose nothing.
fn chosen<'a>(name: &str, matches: &ArgMatches<'a>) -> Result<Choice<'a>, &'static str>
    ensures ok { IfOk result (IsChoiceOf name.now (λ option. first_value (found_of matches.now) option)) }
    ensures err { OnErr result ((choice : Chosen) → ¬ IsChoiceOf name.now (λ option. first_value (found_of matches.now) option) choice) }
{
    // form: each arm is a case of the proof
    let options = match options_of(matches) {
        Ok(options) => options,
        Err(told) => return Err(told),
    };
    let Some(command) = command_of(name, options, question_of(matches), about_of(matches)) else {
        return Err(unnamed(name));
    };
    let Some(form) = form_of(matches, usual_form(command)) else {
        return Err(forms_of(command));
    };
    if !can_print(command, form) {
        return Err(forms_of(command));
    }
    Ok(Choice { command, form })
}

/// How the subcommand of this name is used; how the program is used if there is no such subcommand.
fn usage_of(name: &str) -> &'static str {
    match name {
        "play" => PLAY_USAGE,
        "race" => RACE_USAGE,
        "load" => LOAD_USAGE,
        "import" => IMPORT_USAGE,
        "explore" => EXPLORE_USAGE,
        "step" => STEP_USAGE,
        "draw" => DRAW_USAGE,
        "page" => PAGE_USAGE,
        "explain" => EXPLAIN_USAGE,
        "whatif" => WHATIF_USAGE,
        _ => "presence_bench <COMMAND>",
    }
}

/// The error for words that choose nothing: `told` says why, and `usage` how the subcommand is used.
fn misspelled(alloc: Global, usage: &str, told: &str) -> Result<Error, AllocError>
    ensures { IfOk result (λ fault. kind_of fault ≡ InvalidValue) }
{
    let mut command = Command::new(alloc, "presence_bench").override_usage(usage);
    let error = command.error(ErrorKind::InvalidValue, told);
    // form: drop before exit
    drop(command);
    error
}

/// The choice that the words spell, as clap's `line` reads them; or the error to print.
fn choice_by<'a, S: AsStr>(
    line: &mut Command<'a>,
    words: &'a [S],
    alloc: Global,
) -> Result<Choice<'a>, Error>
    requires { app_of line.old ≡ app }
    ensures ok { IfOk result (Spells (map S.text words.entry.now)) }
    ensures err { IfErr result (λ fault. Misspells (map S.text words.entry.now) (kind_of fault)) }
{
    let matches = line.try_get_matches_from_mut(words)?;
    let Some((name, entered)) = matches.subcommand() else {
        // form: drop before exit
        drop(matches);
        return Err(line.error(ErrorKind::MissingSubcommand, "a subcommand is required")?);
    };
    let usage = usage_of(name);
    let choice = chosen(name, entered);
    drop(matches);
    match choice {
        Ok(choice) => Ok(choice),
        Err(told) => Err(misspelled(alloc, usage, told)?),
    }
}

/// The choice that the words spell, or the error to print.
fn spelled<'a, S: AsStr>(alloc: Global, words: &'a [S]) -> Result<Choice<'a>, Error>
    ensures spells { IfOk result (Spells (map S.text words.entry.now)) }
    ensures misspells { IfErr result (λ fault. Misspells (map S.text words.entry.now) (kind_of fault)) }
{
    let mut line = line(alloc)?;
    let choice = choice_by(&mut line, words, alloc);
    // form: drop before exit
    drop(line);
    choice
}

/// The choice that the words before a last word `-` spell; `None` if the last word isn't `-`, or the words before it
/// spell no choice. An `Err` means that memory was refused.
fn spelled_before<'a, S: AsStr>(alloc: Global, words: &'a [S]) -> Result<Option<Choice<'a>>, Error>
    ensures some { IfOk result (λ choice. IfSome choice (SpellsBefore (map S.text words.entry.now))) }
    ensures none { IfOk result (λ choice. IfNone choice (NeedsLast (map S.text words.entry.now))) }
    ensures memory { IfErr result (λ fault. kind_of fault ≡ OutOfMemory) }
{
    let Some((last, before)) = words.split_last() else {
        return Ok(None);
    };
    if last.as_str() != "-" {
        return Ok(None);
    }
    match spelled(alloc, before) {
        Ok(choice) => Ok(Some(choice)),
        Err(fault) if fault.kind() == ErrorKind::OutOfMemory => Err(fault),
        Err(_fault) => Ok(None),
    }
}

/// What the words after the program's name choose, or the error to print. A last word `-` behind words that spell a
/// choice stands for standard input, and may be left out.
pub fn choice<'a, S: AsStr>(alloc: Global, words: &'a [S]) -> Result<Choice<'a>, Error>
    ensures chosen { IfOk result (Chooses (map S.text words.entry.now)) }
    ensures refused { IfErr result (λ fault. IsRefusal (map S.text words.entry.now) (kind_of fault)) }
{
    match spelled_before(alloc, words) {
        Ok(Some(choice)) => Ok(choice),
        Ok(None) => spelled(alloc, words),
        Err(fault) => Err(fault),
    }
}
