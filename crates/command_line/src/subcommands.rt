//! The command line that `clap` reads: the subcommands with their options and words.
//!
//! A function that adds to a line or a subcommand takes it as a `Built`, and passes on an `Err`. So a function that
//! builds a line or a subcommand in several calls has one way out.
ghost use Rattle.std.specs.Prelude.{IfOk};
ghost use Rattle.clap.specs.Words.{App, Rule, new_app, with_rule, with_subcommand};
ghost use Rattle.command_line.specs.Line.{HasRule, HasShape, about_app, app, as_rule, bare_app, draw_app, explain_app, explore_app, flag_rule, import_app, load_app, number_rule, optional_rule, page_app, play_app, question_app, race_app, step_app, strict_app, whatif_app, word_rule};

use crate::help::{
    AGAIN, CHANGE, CHECK, DRAW, DRAW_USAGE, EVENTS, EXPLAIN, EXPLAIN_USAGE, EXPLORE, EXPLORE_USAGE,
    FORMS, FROM, IMPORT, IMPORT_FORMS, IMPORT_USAGE, KEY, LANGUAGE, LENIENT, LINES, LOAD,
    LOAD_EXAMPLE, LOAD_USAGE, LOST, NODE, OUTCOME, PAGE, PAGE_USAGE, PLAY, PLAY_EXAMPLE,
    PLAY_USAGE, PURPOSE, RACE, RACE_FORMS, RACE_USAGE, STATES, STEP, STEP_USAGE, STRICT, TO, TOPIC,
    VERSION, WHATIF, WHATIF_USAGE, WHY,
};
use clap::{Arg, ArgAction, Command};
use std::alloc::{AllocError, Global};

/// A command line or a subcommand; an `Err` means that memory was refused.
type Built<'a> = Result<Command<'a>, AllocError>;

/// The option `--as`, which names a form. `forms` is its help.
fn form_option<'a>(alloc: Global, forms: &'a str) -> Arg<'a>
    ensures { HasRule as_rule result }
{
    Arg::new(alloc, "as")
        .long("as")
        .value_name("FORM")
        .help(forms)
}

/// The option `--NAME`, which takes a number. `about` is its help.
fn number_option<'a>(alloc: Global, name: &'a str, about: &'a str) -> Arg<'a>
    ensures { HasRule (number_rule name.entry.now) result }
{
    Arg::new(alloc, name)
        .long(name)
        .value_name("NUMBER")
        .help(about)
}

/// The option `--NAME`, which has no value. `about` is its help.
fn flag_option<'a>(alloc: Global, name: &'a str, about: &'a str) -> Arg<'a>
    ensures { HasRule (flag_rule name.entry.now) result }
{
    Arg::new(alloc, name)
        .long(name)
        .action(ArgAction::SetTrue)
        .help(about)
}

/// A word that must be given. `name` is what the help calls it, and `about` its help.
fn word_place<'a>(alloc: Global, name: &'a str, about: &'a str) -> Arg<'a>
    ensures { HasRule (word_rule name.entry.now) result }
{
    Arg::new(alloc, name).required(true).help(about)
}

/// A word that may be left out. `name` is what the help calls it, and `about` its help.
fn optional_place<'a>(alloc: Global, name: &'a str, about: &'a str) -> Arg<'a>
    ensures { HasRule (optional_rule name.entry.now) result }
{
    Arg::new(alloc, name).help(about)
}

/// The subcommand with one more option or word.
fn with_arg<'a>(command: Built<'a>, arg: Arg<'a>) -> Built<'a>
    ensures { (app : App) (rule : Rule) → IfOk command.entry (HasShape app) → HasRule rule arg.entry → IfOk result (HasShape (with_rule app rule)) }
{
    command?.arg(arg)
}

/// The command line with one more subcommand.
fn with_command<'a>(line: Built<'a>, subcommand: Built<'a>) -> Built<'a>
    ensures { (app other : App) → IfOk line.entry (HasShape app) → IfOk subcommand.entry (HasShape other)
        → IfOk result (HasShape (with_subcommand app other.top)) }
{
    add_command(line, subcommand?)
}

/// Like `with_command`, for a subcommand that was built without a fault.
// form: one way out in each of the two
fn add_command<'a>(line: Built<'a>, subcommand: Command<'a>) -> Built<'a>
    ensures { (app other : App) → IfOk line.entry (HasShape app) → HasShape other subcommand.entry → IfOk result (HasShape (with_subcommand app other.top)) }
{
    line?.subcommand(subcommand)
}

/// The subcommand with a text at the end of its help.
fn with_end<'a>(command: Built<'a>, end: &'a str) -> Built<'a>
    ensures { (app : App) → IfOk command.entry (HasShape app) → IfOk result (HasShape app) }
{
    Ok(command?.after_help(end))
}

/// A subcommand that takes neither options nor words; `with_arg` adds them. `about` is its help, and `usage` says how
/// to write it.
fn bare_subcommand<'a>(alloc: Global, name: &'a str, about: &'a str, usage: &'a str) -> Built<'a>
    ensures { IfOk result (HasShape (new_app name.entry.now)) }
{
    Ok(Command::new(alloc, name).about(about).override_usage(usage))
}

/// A subcommand with the options `--as` and `--strict`.
fn strict_subcommand<'a>(alloc: Global, name: &'a str, about: &'a str, usage: &'a str) -> Built<'a>
    ensures { IfOk result (HasShape (strict_app name.entry.now)) }
{
    let bare = bare_subcommand(alloc, name, about, usage);
    let formed = with_arg(bare, form_option(alloc, FORMS));
    with_arg(formed, flag_option(alloc, "strict", STRICT))
}

/// A subcommand that takes a node, or a node, a topic and a key, or none of them.
fn about_subcommand<'a>(alloc: Global, name: &'a str, about: &'a str, usage: &'a str) -> Built<'a>
    ensures { IfOk result (HasShape (about_app name.entry.now)) }
{
    let bare = bare_subcommand(alloc, name, about, usage);
    let node = with_arg(bare, optional_place(alloc, "NODE", NODE));
    let topic = with_arg(node, optional_place(alloc, "TOPIC", TOPIC));
    with_arg(topic, optional_place(alloc, "KEY", KEY))
}

/// A subcommand that takes a node, a topic and a key, all three.
fn question_subcommand<'a>(
    alloc: Global,
    name: &'a str,
    about: &'a str,
    usage: &'a str,
) -> Built<'a>
    ensures { IfOk result (HasShape (question_app name.entry.now)) }
{
    let bare = bare_subcommand(alloc, name, about, usage);
    let node = with_arg(bare, word_place(alloc, "NODE", NODE));
    let topic = with_arg(node, word_place(alloc, "TOPIC", TOPIC));
    with_arg(topic, word_place(alloc, "KEY", KEY))
}

fn play<'a>(alloc: Global) -> Built<'a>
    ensures { IfOk result (HasShape play_app) }
{
    let strict = strict_subcommand(alloc, "play", PLAY, PLAY_USAGE);
    with_end(strict, PLAY_EXAMPLE)
}

fn race<'a>(alloc: Global) -> Built<'a>
    ensures { IfOk result (HasShape race_app) }
{
    let bare = bare_subcommand(alloc, "race", RACE, RACE_USAGE);
    with_arg(bare, form_option(alloc, RACE_FORMS))
}

fn load<'a>(alloc: Global) -> Built<'a>
    ensures { IfOk result (HasShape load_app) }
{
    let strict = strict_subcommand(alloc, "load", LOAD, LOAD_USAGE);
    with_end(strict, LOAD_EXAMPLE)
}

fn explore<'a>(alloc: Global) -> Built<'a>
    ensures { IfOk result (HasShape explore_app) }
{
    let about = about_subcommand(alloc, "explore", EXPLORE, EXPLORE_USAGE);
    let lost = with_arg(about, number_option(alloc, "lost", LOST));
    let again = with_arg(lost, number_option(alloc, "again", AGAIN));
    let states = with_arg(again, number_option(alloc, "states", STATES));
    with_arg(states, number_option(alloc, "script", OUTCOME))
}

fn step<'a>(alloc: Global) -> Built<'a>
    ensures { IfOk result (HasShape step_app) }
{
    bare_subcommand(alloc, "step", STEP, STEP_USAGE)
}

fn draw<'a>(alloc: Global) -> Built<'a>
    ensures { IfOk result (HasShape draw_app) }
{
    let about = about_subcommand(alloc, "draw", DRAW, DRAW_USAGE);
    let why = with_arg(about, number_option(alloc, "why", WHY));
    let from = with_arg(why, number_option(alloc, "from", FROM));
    with_arg(from, number_option(alloc, "to", TO))
}

fn page<'a>(alloc: Global) -> Built<'a>
    ensures { IfOk result (HasShape page_app) }
{
    bare_subcommand(alloc, "page", PAGE, PAGE_USAGE)
}

fn explain<'a>(alloc: Global) -> Built<'a>
    ensures { IfOk result (HasShape explain_app) }
{
    question_subcommand(alloc, "explain", EXPLAIN, EXPLAIN_USAGE)
}

fn whatif<'a>(alloc: Global) -> Built<'a>
    ensures { IfOk result (HasShape whatif_app) }
{
    let question = question_subcommand(alloc, "whatif", WHATIF, WHATIF_USAGE);
    with_arg(question, number_option(alloc, "script", CHANGE))
}

fn import<'a>(alloc: Global) -> Built<'a>
    ensures { IfOk result (HasShape import_app) }
{
    let bare = bare_subcommand(alloc, "import", IMPORT, IMPORT_USAGE);
    let formed = with_arg(bare, form_option(alloc, IMPORT_FORMS));
    let checked = with_arg(formed, flag_option(alloc, "check", CHECK));
    let numbered = with_arg(checked, flag_option(alloc, "lines", LINES));
    let lenient = with_arg(numbered, flag_option(alloc, "lenient", LENIENT));
    with_end(lenient, EVENTS)
}

/// The command line without its subcommands.
fn bare_line<'a>(alloc: Global) -> Built<'a>
    ensures { IfOk result (HasShape bare_app) }
{
    Ok(
        Command::new(alloc, "presence_bench")
            .about(PURPOSE)
            .version(VERSION)
            .after_help(LANGUAGE)
            .no_binary_name(true)
            .subcommand_required(true),
    )
}

/// The command line `presence_bench`, with all of its subcommands.
pub(crate) fn line<'a>(alloc: Global) -> Built<'a>
    ensures { IfOk result (HasShape app) }
{
    let line = with_command(bare_line(alloc), play(alloc));
    let line = with_command(line, race(alloc));
    let line = with_command(line, load(alloc));
    let line = with_command(line, explore(alloc));
    let line = with_command(line, step(alloc));
    let line = with_command(line, draw(alloc));
    let line = with_command(line, page(alloc));
    let line = with_command(line, explain(alloc));
    let line = with_command(line, whatif(alloc));
    with_command(line, import(alloc))
}
