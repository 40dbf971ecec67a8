//! Writes a report with each line of a script, or each recorded call, above what it printed.
ghost use Rattle.std.specs.Prelude.{◌≡◌, ◌++◌, IfOk, OnOk, map, string_bytes, true};
ghost use Rattle.bench_core.specs.Acts.{plain_act};
ghost use Rattle.bench_core.specs.Machine.{opening_machine};
ghost use Rattle.grammar_core.specs.Scripts.{plain_command, plain_lines, plain_script};
ghost use Rattle.run_core.specs.Report.{after_command, call_of, commands_of, played};
ghost use Rattle.transcript_core.specs.Scripts.{cast_of};
ghost use Rattle.transcript_core.specs.Steps.{bench_steps, byte_text, command_head, command_steps, head_line, indented, note_text, number_text, reply_at, script_steps, steps_text, taker_of, taker_text, takers_of, undone_text, unwind_number, unwinds_one, with_reply, with_taker};

use crate::actors::{CastRef, actor_name};
use crate::lines::put_call;
use bench_core::{Act, Bench, Event, History, Limits, Names, Reply, TextSet};
use dots_core::Oom;
use grammar_core::{Command, Line, Script, console_names, lines, node_names};
use report_core::{act, name_at};
use run_core::command as obey;
use std::alloc::Allocator;

/// If `reply` says that a step was taken back, notes `actor` in `takers` at the place of that step's number. Changes
/// nothing after another reply, or if `takers` has no such place.
fn note_reply<A: Allocator>(takers: &mut Vec<Option<u16>, A>, actor: u16, reply: Reply)
    ensures { takers.new.items ≡ with_reply takers.old.items actor reply }
{
    if let Reply::Undone(number) = reply {
        if let Some(taker) = takers.get_mut(number as usize) {
            *taker = Some(actor);
        }
    }
}

/// Notes in `takers` the actor of the recorded call, if the call took a step back.
fn note_event<A: Allocator, W: Allocator>(takers: &mut Vec<Option<u16>, A>, event: &Event<W>)
    ensures { takers.new.items ≡ with_taker takers.old.items event.now }
{
    note_reply(takers, event.actor, event.reply);
}

/// Who took steps back: at the place of each step's number the actor who took that step back, or `None` if nobody did.
#[tactic(auto, unfolding(crate::specs::Steps::takers_of))]
fn takers_of<'a, B: Allocator>(
    bench: &Bench<'a, B>,
    alloc: &'a B,
) -> Result<Vec<Option<u16>, &'a B>, Oom>
    ensures { IfOk result (λ takers. takers.items ≡ takers_of bench.now.state.history) }
{
    // form: hands out what the bench keeps
    bench.bench_law();
    let history = bench.history();
    let mut takers = vec![in alloc; None; history.len() + 1]?;
    for place in 0..history.len() {
        if let Some(event) = history.at(place) {
            note_event(&mut takers, event);
        }
    }
    Ok(takers)
}

/// Who took back the step with this number; `None` if nobody did.
fn taker_of(takers: &[Option<u16>], number: u64) -> Option<u16>
    ensures { result ≡ taker_of takers.now number }
{
    match takers.get(number as usize) {
        Some(taker) => *taker,
        None => None,
    }
}

/// The reply that was recorded at `place`, counted from 0; `None` if none was recorded there.
fn reply_at<'a, B: Allocator>(history: &History<'a, B>, place: usize) -> Option<Reply>
    ensures { result ≡ reply_at history.now place }
{
    match history.at(place) {
        Some(event) => Some(event.reply),
        None => None,
    }
}

/// Appends the number of the step that a call took or took back, or a dash if it did neither, and two spaces.
fn put_number<A: Allocator>(text: &mut String<A>, reply: Option<Reply>) -> Result<(), Oom>
    ensures { OnOk result (string_bytes text.new ≡ string_bytes text.old ++ number_text reply) }
{
    // form: each arm is a case of the proof
    match reply {
        Some(Reply::Taken(number)) => Ok(write!(text, "{number}  ")?),
        Some(Reply::Undone(number)) => Ok(write!(text, "{number}  ")?),
        Some(Reply::Refused(_)) => Ok(text.push_str("-  ")?),
        None => Ok(text.push_str("-  ")?),
    }
}

/// Appends `undone by ACTOR` after two spaces.
fn put_undone<A: Allocator, N: Allocator, C: Allocator>(
    text: &mut String<A>,
    cast: &CastRef<'_, N, C>,
    actor: u16,
) -> Result<(), Oom>
    ensures { OnOk result (string_bytes text.new ≡ string_bytes text.old ++
        undone_text (record { nodes = cast.now.nodes.now; consoles = cast.now.consoles.now }) actor) }
{
    text.push_str("  undone by ")?;
    Ok(text.push_str(actor_name(cast, actor))?)
}

/// Appends that `taker` took the step back; nothing if `taker` is `None`.
fn put_taker<A: Allocator, N: Allocator, C: Allocator>(
    text: &mut String<A>,
    cast: &CastRef<'_, N, C>,
    taker: Option<u16>,
) -> Result<(), Oom>
    ensures { OnOk result (string_bytes text.new ≡ string_bytes text.old ++
        taker_text (record { nodes = cast.now.nodes.now; consoles = cast.now.consoles.now }) taker) }
{
    match taker {
        Some(actor) => put_undone(text, cast, actor),
        None => Ok(()),
    }
}

/// If the reply says that a step was taken, appends who took that step back; nothing if nobody did.
fn put_note<A: Allocator, N: Allocator, C: Allocator>(
    text: &mut String<A>,
    cast: &CastRef<'_, N, C>,
    takers: &[Option<u16>],
    reply: Option<Reply>,
) -> Result<(), Oom>
    ensures { OnOk result (string_bytes text.new ≡ string_bytes text.old ++
        note_text (record { nodes = cast.now.nodes.now; consoles = cast.now.consoles.now }) takers.now reply) }
{
    match reply {
        Some(Reply::Taken(number)) => put_taker(text, cast, taker_of(takers, number)),
        _ => Ok(()),
    }
}

/// Appends the line of a call: `NUMBER  ACTOR VERB ..`, and then who took the call's step back later, if anybody did.
/// NUMBER is that of the step that the call took or took back, or a dash if it did neither.
#[tactic(auto, unfolding(crate::specs::Steps::head_line))]
fn put_head<A: Allocator, N: Allocator, C: Allocator, W: Allocator>(
    text: &mut String<A>,
    cast: &CastRef<'_, N, C>,
    takers: &[Option<u16>],
    actor: u16,
    act: &Act<W>,
    reply: Option<Reply>,
) -> Result<(), Oom>
    ensures { OnOk result (string_bytes text.new ≡ string_bytes text.old ++
        head_line (record { nodes = cast.now.nodes.now; consoles = cast.now.consoles.now }) takers.now actor (plain_act act.now) reply) }
{
    put_number(text, reply)?;
    put_call(text, cast, actor, act)?;
    put_note(text, cast, takers, reply)?;
    Ok(text.push_str("\n")?)
}

/// Appends the number of the step that the line unwinds, or a dash if the step doesn't remain, and two spaces.
fn put_unwind_number<A: Allocator>(
    text: &mut String<A>,
    remains: bool,
    number: u64,
) -> Result<(), Oom>
    ensures { OnOk result (string_bytes text.new ≡ string_bytes text.old ++ unwind_number remains number) }
{
    if remains {
        return Ok(write!(text, "{number}  ")?);
    }
    Ok(text.push_str("-  ")?)
}

/// Appends the line that stands above what a command printed. `reply` is the reply to a call; `remains` says whether
/// the step of an unwind remained before the unwind.
#[tactic(auto, unfolding(crate::specs::Steps::command_head))]
fn put_command_head<A: Allocator, N: Allocator, C: Allocator, W: Allocator>(
    text: &mut String<A>,
    cast: &CastRef<'_, N, C>,
    takers: &[Option<u16>],
    command: &Command<W>,
    reply: Option<Reply>,
    remains: bool,
) -> Result<(), Oom>
    ensures { OnOk result (string_bytes text.new ≡ string_bytes text.old ++
        command_head (record { nodes = cast.now.nodes.now; consoles = cast.now.consoles.now }) takers.now (plain_command command.now) reply remains) }
{
    match command {
        Command::Call(actor, act) => put_head(text, cast, takers, *actor, act, reply),
        Command::Unwind(actor, number) => {
            let actor = actor_name(cast, *actor);
            put_unwind_number(text, remains, *number)?;
            Ok(writeln!(text, "{actor} unwind {number}")?)
        }
        Command::Show(node) => {
            let name = name_at(cast.nodes, *node);
            Ok(writeln!(text, "show {name}")?)
        }
        Command::Dots(node) => {
            let name = name_at(cast.nodes, *node);
            Ok(writeln!(text, "dots {name}")?)
        }
        Command::Why(number) => Ok(writeln!(text, "why {number}")?),
        Command::Journal => Ok(text.push_str("journal\n")?),
    }
}

/// Appends a byte, and two spaces before it if it begins a line.
fn put_byte<A: Allocator>(out: &mut Vec<u8, A>, begins: bool, byte: u8) -> Result<(), Oom>
    ensures { OnOk result (out.new.items ≡ out.old.items ++ byte_text begins byte) }
{
    if begins {
        out.push(b' ')?;
        out.push(b' ')?;
    }
    out.push(byte)?;
    Ok(())
}

/// Appends the text with two spaces before each line.
#[tactic(auto, unfolding(crate::specs::Steps::indented))]
fn put_indented<A: Allocator>(out: &mut Vec<u8, A>, text: &[u8]) -> Result<(), Oom>
    ensures { OnOk result (out.new.items ≡ out.old.items ++ indented true text.now) }
{
    let mut begins = true;
    for byte in text {
        put_byte(out, begins, *byte)?;
        begins = *byte == b'\n';
    }
    Ok(())
}

/// Appends a head, and below it what was printed, indented by two spaces.
fn put_below<A: Allocator, H: Allocator>(
    out: &mut Vec<u8, A>,
    head: &String<H>,
    printed: &String<H>,
) -> Result<(), Oom>
    ensures { OnOk result (out.new.items ≡ out.old.items ++ string_bytes head.now ++ indented true (string_bytes printed.now)) }
{
    out.extend_from_slice(head.as_bytes())?;
    put_indented(out, printed.as_bytes())
}

/// Whether the command unwinds a step, and that step remains.
fn unwinds_one<'a, B: Allocator>(bench: &Bench<'a, B>, command: &Command<&'a B>) -> bool
    ensures { result ≡ unwinds_one bench.now (plain_command command.now) }
{
    match command {
        Command::Unwind(_, number) => bench.remaining().find(*number).is_some(),
        _ => false,
    }
}

/// Carries out a command on the bench, and appends the command's line and below that what the command printed.
#[tactic(auto, unfolding(crate::specs::Steps::command_steps))]
fn put_line<'a, B: Allocator>(
    out: &mut Vec<u8, &'a B>,
    bench: &mut Bench<'a, B>,
    consoles: &TextSet<&'a B>,
    takers: &[Option<u16>],
    command: &Command<&'a B>,
    alloc: &'a B,
) -> Result<(), Oom>
    ensures bench { OnOk result (bench.new ≡ after_command bench.old (plain_command command.now)) }
    ensures text { OnOk result (out.new.items ≡ out.old.items ++
        command_steps (cast_of bench.old consoles.now) takers.now bench.old (plain_command command.now)) }
{
    let place = bench.history().len();
    let remains = unwinds_one(bench, command);
    let mut printed = String::new(alloc);
    obey(&mut printed, bench, command, alloc)?;
    let reply = reply_at(bench.history(), place);
    let mut head = String::new(alloc);
    let cast = CastRef {
        nodes: bench.names(),
        consoles,
    };
    put_command_head(&mut head, &cast, takers, command, reply, remains)?;
    put_below(out, &head, &printed)
}

/// Makes a recorded call on the bench, and appends the call's line and below that what the call printed.
#[tactic(auto, unfolding(crate::specs::Steps::command_steps, crate::specs::Steps::command_head, run_core::specs::Report::command_text, run_core::specs::Report::after_command))]
fn put_event<'a, B: Allocator>(
    out: &mut Vec<u8, &'a B>,
    bench: &mut Bench<'a, B>,
    consoles: &TextSet<&'a B>,
    takers: &[Option<u16>],
    event: &Event<&'a B>,
    alloc: &'a B,
) -> Result<(), Oom>
    ensures bench { OnOk result (bench.new ≡ after_command bench.old (call_of event.now)) }
    ensures text { OnOk result (out.new.items ≡ out.old.items ++ command_steps (cast_of bench.old consoles.now) takers.now bench.old (call_of event.now)) }
{
    let place = bench.history().len();
    let mut printed = String::new(alloc);
    act(&mut printed, alloc, bench, event.actor, &event.act)?;
    let reply = reply_at(bench.history(), place);
    let mut head = String::new(alloc);
    let cast = CastRef {
        nodes: bench.names(),
        consoles,
    };
    put_head(&mut head, &cast, takers, event.actor, &event.act, reply)?;
    put_below(out, &head, &printed)
}

/// Carries out the lines of a script on the bench, and appends each line and below that what the line printed.
#[tactic(auto, unfolding(crate::specs::Steps::steps_text))]
fn put_lines<'a, B: Allocator>(
    out: &mut Vec<u8, &'a B>,
    bench: &mut Bench<'a, B>,
    consoles: &TextSet<&'a B>,
    takers: &[Option<u16>],
    lines: &[Line<&'a B>],
    alloc: &'a B,
) -> Result<(), Oom>
    ensures { OnOk result (out.new.items ≡ out.old.items ++
        steps_text (cast_of bench.old consoles.now) takers.now bench.old (commands_of (plain_lines lines.now))) }
{
    for line in lines {
        put_line(out, bench, consoles, takers, &line.command, alloc)?;
    }
    Ok(())
}

/// Makes the calls of `history` on the bench, and appends each call's line and below that what the call printed.
#[tactic(auto, unfolding(crate::specs::Steps::steps_text))]
fn put_events<'a, B: Allocator>(
    out: &mut Vec<u8, &'a B>,
    bench: &mut Bench<'a, B>,
    consoles: &TextSet<&'a B>,
    takers: &[Option<u16>],
    history: &History<'a, B>,
    alloc: &'a B,
) -> Result<(), Oom>
    ensures { OnOk result (out.new.items ≡ out.old.items ++
        steps_text (cast_of bench.old consoles.now) takers.now bench.old (map call_of history.now)) }
{
    for place in 0..history.len() {
        if let Some(event) = history.at(place) {
            put_event(out, bench, consoles, takers, event, alloc)?;
        }
    }
    Ok(())
}

/// Carries out the lines of a script on the bench, and gives a text of these lines, each above what it printed.
fn lines_steps<'a, B: Allocator>(
    bench: &mut Bench<'a, B>,
    consoles: &TextSet<&'a B>,
    takers: &[Option<u16>],
    lines: &[Line<&'a B>],
    alloc: &'a B,
) -> Result<Vec<u8, &'a B>, Oom>
    ensures { IfOk result (λ text. text.items ≡ steps_text (cast_of bench.old consoles.now) takers.now bench.old (commands_of (plain_lines lines.now))) }
{
    let mut out = Vec::new(alloc);
    put_lines(&mut out, bench, consoles, takers, lines, alloc)?;
    Ok(out)
}

/// Makes the calls of `history` on the bench, and gives a text of their lines, each above what its call printed.
fn events_steps<'a, B: Allocator>(
    bench: &mut Bench<'a, B>,
    consoles: &TextSet<&'a B>,
    takers: &[Option<u16>],
    history: &History<'a, B>,
    alloc: &'a B,
) -> Result<Vec<u8, &'a B>, Oom>
    ensures { IfOk result (λ text. text.items ≡ steps_text (cast_of bench.old consoles.now) takers.now bench.old (map call_of history.now)) }
{
    let mut out = Vec::new(alloc);
    put_events(&mut out, bench, consoles, takers, history, alloc)?;
    Ok(out)
}

/// A new bench with these names and limits.
fn opened<'a, B: Allocator>(
    names: &Names<&'a B>,
    limits: Limits,
    alloc: &'a B,
) -> Result<Bench<'a, B>, Oom>
    ensures { IfOk result (λ bench. bench ≡ opening_machine names.now limits) }
{
    Bench::new(alloc, names.try_copy()?, limits)
}

/// Makes the calls of `history` on a new bench with these names and limits, and gives a text of their lines, each above
/// what its call printed.
fn events_anew<'a, B: Allocator>(
    names: &Names<&'a B>,
    limits: Limits,
    consoles: &TextSet<&'a B>,
    takers: &[Option<u16>],
    history: &History<'a, B>,
    alloc: &'a B,
) -> Result<Vec<u8, &'a B>, Oom>
    ensures { IfOk result (λ text. text.items ≡ steps_text (cast_of (opening_machine names.now limits) consoles.now) takers.now
        (opening_machine names.now limits) (map call_of history.now)) }
{
    let mut again = opened(names, limits, alloc)?;
    let steps = events_steps(&mut again, consoles, takers, history, alloc);
    // form: drop before exit
    again.discard();
    steps
}

/// The lines of a script, and below each what it printed. `bench` must be what a play of the script with these limits
/// left; the history of `bench` tells who took a step back later.
pub fn script_steps<'a, B: Allocator>(
    script: &Script<&'a B>,
    alloc: &'a B,
    limits: Limits,
    bench: &Bench<'a, B>,
) -> Result<Vec<u8, &'a B>, Oom>
    requires { bench.now ≡ played limits (plain_script script.now) }
    ensures { IfOk result (λ text. text.items ≡ script_steps limits (plain_script script.now)) }
{
    let takers = takers_of(bench, alloc)?;
    let mut again = opened(node_names(script), limits, alloc)?;
    let steps = lines_steps(
        &mut again,
        console_names(script),
        &takers,
        lines(script),
        alloc,
    );
    // form: drop before exit
    again.discard();
    steps
}

/// The lines of a bench's recorded calls, and below each what its call printed. `consoles` has the names of the
/// consoles.
#[tactic(auto, unfolding(crate::specs::Steps::bench_steps))]
pub fn bench_steps<'a, B: Allocator>(
    bench: &Bench<'a, B>,
    alloc: &'a B,
    consoles: &TextSet<&'a B>,
) -> Result<Vec<u8, &'a B>, Oom>
    ensures { IfOk result (λ text. text.items ≡ bench_steps bench.now consoles.now) }
{
    let takers = takers_of(bench, alloc)?;
    events_anew(
        bench.names(),
        bench.limits(),
        consoles,
        &takers,
        bench.history(),
        alloc,
    )
}
