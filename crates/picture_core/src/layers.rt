//! Draws all recorded calls.
ghost use Rattle.std.specs.Prelude.{◌≡◌, ◌≤◌, ◌++◌, List, IfOk, OnOk, length, option_copied, string_bytes};
ghost use Rattle.bench_core.specs.Limits.{most_acts};
ghost use Rattle.diff_core.specs.Diffs.{alone};
ghost use Rattle.diff_core.specs.Rows.{Row};
ghost use Rattle.report_core.specs.ActRows.{acted_text};
ghost use Rattle.report_core.specs.ActTexts.{after_act};
ghost use Rattle.report_core.specs.Shown.{rows_of};
ghost use Rattle.svg_core.specs.Trees.{text_of};
ghost use Rattle.picture_core.specs.Online.{switch_at, with_call};
ghost use Rattle.picture_core.specs.Pictures.{longest, messages, rows, switches, switches_from};
ghost use Rattle.picture_core.specs.Rows.{longest_from, message_of, messages_from, row_if, row_of, row_told, rows_from, with_length, with_row, with_words};
ghost use Rattle.picture_core.specs.Words.{title_told, words_told};

use crate::call::Call;
use crate::online::{Asked, Switch, note_switch};
use crate::range::Range;
use crate::rows::{lane_of, node_changed, node_undone, put_message_of, put_row};
use crate::shade::Drawn;
use crate::sheet::Sheet;
use crate::words::{title_of, words_of};
use bench_core::{Bench, Event, History, Names, TextSet};
use dots_core::Oom;
use grammar_core::LONGEST_LINE;
use report_core::ask;
use std::alloc::Allocator;
use transcript_core::CastRef;

/// What is drawn of the recorded calls: the messages and the rows, which lie over the lanes; how many bytes the longest
/// words of a drawn row have, at most `LONGEST_LINE` (`longest`); and the changes of the lanes. At such a change a node
/// begins or stops listing what is asked about.
#[derive(Drop)]
pub struct Layers<'a, B: Allocator> {
    pub messages: String<&'a B>,
    pub rows: String<&'a B>,
    pub longest: u32,
    pub switches: Vec<Switch, &'a B>,
}

/// The greater of `longest` and `bytes`. More than `LONGEST_LINE` bytes count as `LONGEST_LINE`.
#[tactic(auto, unfolding(crate::specs::Rows::with_length))]
pub fn with_length(longest: u32, bytes: usize) -> u32
    ensures { result ≡ with_length longest bytes }
{
    // form: `min` and `max`, spelled out for the proof
    let bytes = if bytes > LONGEST_LINE {
        LONGEST_LINE as u32
    } else {
        bytes as u32
    };
    if longest < bytes { bytes } else { longest }
}

/// Appends a call's row to `layers.rows`, and raises `layers.longest` if the row's words are longer than that.
#[tactic(auto, unfolding(crate::specs::Rows::row_told))]
fn put_drawn<'a, N: Allocator, B: Allocator>(
    layers: &mut Layers<'a, B>,
    names: &Names<N>,
    sheet: &Sheet<'a, '_, B>,
    call: &Call<'a, '_, B>,
) -> Result<(), Oom>
    ensures rows { OnOk result (string_bytes layers.new.rows ≡ string_bytes layers.old.rows ++
        text_of (row_told sheet.now.nodes sheet.now.steps.now call.now.changed call.now.row call.now.event.now
        (title_told names.now sheet.now.consoles.now call.now.event.now
        (acted_text names.now call.now.acted.now.reply call.now.acted.now.change.left.items call.now.acted.now.change.joined.items))
        (words_told names.now sheet.now.consoles.now call.now.event.now
        call.now.acted.now.change.left.items call.now.acted.now.change.joined.items))) }
    ensures longest { OnOk result (layers.new.longest ≡ with_length layers.old.longest
        (length (words_told names.now sheet.now.consoles.now call.now.event.now
        call.now.acted.now.change.left.items call.now.acted.now.change.joined.items))) }
    ensures messages { layers.new.messages ≡ layers.old.messages }
    ensures switches { layers.new.switches ≡ layers.old.switches }
{
    let event = call.event;
    let cast = CastRef {
        nodes: names,
        consoles: sheet.consoles,
    };
    let lane = lane_of(sheet.nodes, event.actor, event.reply, call.changed);
    let title = title_of(event, &cast, call.acted, sheet.alloc)?;
    let words = words_of(event, &cast, call.acted, sheet.alloc)?;
    put_row(&mut layers.rows, sheet, call, lane, &title, &words)?;
    layers.longest = with_length(layers.longest, words.len());
    Ok(())
}

/// Notes in `layers` if the node that the call changed begins or stops listing what `sheet.of` asks about, and draws
/// the call if its row is in the range. `asked` is the bench after the call.
#[tactic(auto, unfolding(crate::specs::Rows::row_if, crate::specs::Rows::with_words))]
fn put_told<'a, B: Allocator>(
    asked: &Bench<'a, B>,
    layers: &mut Layers<'a, B>,
    sheet: &Sheet<'a, '_, B>,
    call: &Call<'a, '_, B>,
) -> Result<(), Oom>
    ensures rows { OnOk result (string_bytes layers.new.rows ≡ string_bytes layers.old.rows ++
        text_of (row_if sheet.now.nodes sheet.now.steps.now sheet.now.range call.now.changed call.now.row call.now.event.now
        (title_told asked.now.names sheet.now.consoles.now call.now.event.now
        (acted_text asked.now.names call.now.acted.now.reply call.now.acted.now.change.left.items call.now.acted.now.change.joined.items))
        (words_told asked.now.names sheet.now.consoles.now call.now.event.now
        call.now.acted.now.change.left.items call.now.acted.now.change.joined.items))) }
    ensures longest { OnOk result (layers.new.longest ≡ with_words sheet.now.range call.now.row
        (words_told asked.now.names sheet.now.consoles.now call.now.event.now
        call.now.acted.now.change.left.items call.now.acted.now.change.joined.items) layers.old.longest) }
    ensures messages { layers.new.messages ≡ layers.old.messages }
    ensures switches { OnOk result ((before : List Row) → call.now.acted.now.change.left.items ≡ alone before (rows_of asked.now call.now.changed) →
        call.now.acted.now.change.joined.items ≡ alone (rows_of asked.now call.now.changed) before →
        layers.new.switches.items ≡ layers.old.switches.items ++
        switch_at (option_copied sheet.now.of) call.now.row call.now.changed before (rows_of asked.now call.now.changed)) }
{
    note_switch(asked, &mut layers.switches, sheet.of, call, sheet.alloc)?;
    if !sheet.range.draws(call.row) {
        return Ok(());
    }
    put_drawn(layers, asked.names(), sheet, call)
}

/// Makes a recorded call on the bench `asked`, and draws in `layers` what `range` shows of the call. Also notes in
/// `layers` if the node that the call changed begins or stops listing what `of` asks about.
fn put_event<'a, B: Allocator>(
    asked: &mut Bench<'a, B>,
    layers: &mut Layers<'a, B>,
    sheet: &Sheet<'a, '_, B>,
    row: u32,
    event: &Event<&'a B>,
) -> Result<(), Oom>
    ensures asked { OnOk result (asked.new ≡ after_act asked.old event.now.actor event.now.act) }
    ensures messages { OnOk result (string_bytes layers.new.messages ≡ string_bytes layers.old.messages ++
        text_of (message_of sheet.now.nodes sheet.now.steps.now sheet.now.range asked.old.state.remaining row event.now)) }
    ensures rows { OnOk result (string_bytes layers.new.rows ≡ string_bytes layers.old.rows ++
        text_of (row_of sheet.now.nodes sheet.now.steps.now sheet.now.range sheet.now.consoles.now asked.old row event.now)) }
    ensures longest { OnOk result (layers.new.longest ≡ with_row sheet.now.range sheet.now.consoles.now asked.old row event.now layers.old.longest) }
    ensures switches { OnOk result (layers.new.switches.items ≡ with_call (option_copied sheet.now.of) asked.old row event.now layers.old.switches.items) }
{
    put_message_of(asked.remaining(), &mut layers.messages, sheet, row, event)?;
    let undone = node_undone(asked, &event.act);
    let acted = ask(asked, sheet.alloc, event.actor, &event.act)?;
    let changed = node_changed(event.actor, acted.reply, undone);
    let call = Call {
        row,
        event,
        acted: &acted,
        changed,
    };
    let told = put_told(asked, layers, sheet, &call);
    // form: drop before exit
    drop(acted);
    told
}

/// Does for each call of `history`, in turn, what `put_event` does; the row of a call is its place, counted from 0.
fn put_events<'a, B: Allocator>(
    asked: &mut Bench<'a, B>,
    history: &History<'a, B>,
    layers: &mut Layers<'a, B>,
    sheet: &Sheet<'a, '_, B>,
) -> Result<(), Oom>
    requires { length history.now ≤ most_acts }
    ensures messages { OnOk result (string_bytes layers.new.messages ≡ string_bytes layers.old.messages ++
        text_of (messages_from sheet.now.nodes sheet.now.steps.now sheet.now.range asked.old 0 history.now)) }
    ensures rows { OnOk result (string_bytes layers.new.rows ≡ string_bytes layers.old.rows ++
        text_of (rows_from sheet.now.nodes sheet.now.steps.now sheet.now.range sheet.now.consoles.now asked.old 0 history.now)) }
    ensures longest { OnOk result (layers.new.longest ≡ longest_from sheet.now.range sheet.now.consoles.now asked.old 0 history.now layers.old.longest) }
    ensures switches { OnOk result (layers.new.switches.items ≡ switches_from (option_copied sheet.now.of) asked.old 0 history.now layers.old.switches.items) }
{
    for place in 0..history.len() {
        let event = history.at(place).unwrap();
        put_event(asked, layers, sheet, place as u32, event)?;
    }
    Ok(())
}

/// What is drawn of the calls that a bench recorded: the rows in `range`, the messages that `range` shows, and every
/// change of a lane for the topic and key in `of`. To draw the calls, `layers_of` makes them again on a new bench.
#[tactic(auto, unfolding(crate::specs::Pictures::messages, crate::specs::Pictures::rows, crate::specs::Pictures::longest, crate::specs::Pictures::switches))]
pub fn layers_of<'a, B: Allocator>(
    bench: &Bench<'a, B>,
    consoles: &TextSet<&'a B>,
    steps: &[Drawn],
    range: Range,
    of: Option<&Asked<&'a B>>,
    alloc: &'a B,
) -> Result<Layers<'a, B>, Oom>
    ensures messages { IfOk result (λ layers. string_bytes layers.messages ≡ text_of (messages bench.now steps.now range)) }
    ensures rows { IfOk result (λ layers. string_bytes layers.rows ≡ text_of (rows bench.now steps.now range consoles.now)) }
    ensures longest { IfOk result (λ layers. layers.longest ≡ longest bench.now range consoles.now) }
    ensures switches { IfOk result (λ layers. layers.switches.items ≡ switches bench.now (option_copied of.entry)) }
{
    // form: hands out what the bench keeps
    bench.bench_law();
    let names = bench.names().try_copy()?;
    let mut asked = Bench::new(alloc, names, bench.limits())?;
    let mut layers = Layers {
        messages: String::new(alloc),
        rows: String::new(alloc),
        longest: 0,
        switches: Vec::new(alloc),
    };
    let sheet = Sheet {
        nodes: bench.names().len() as u32,
        steps,
        range,
        consoles,
        of,
        alloc,
    };
    let drawn = put_events(&mut asked, bench.history(), &mut layers, &sheet);
    // form: drop before exit
    asked.discard();
    drawn?;
    Ok(layers)
}
