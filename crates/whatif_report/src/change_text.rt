//! The text of a difference, with the rows that its changes take away and bring.
ghost use Rattle.std.specs.Prelude.{◌≡◌, ◌++◌, IfOk, OnOk, Some, string_bytes};
ghost use Rattle.diff_core.specs.Diffs.{alone};
ghost use Rattle.diff_core.specs.Rows.{is_among};
ghost use Rattle.journal_core.specs.Holdings.{kepts};
ghost use Rattle.whatif_report.specs.Texts.{change_line, changed_words, difference_text, kept_words, kind_word, places_words, side_words, step_words};

use bench_core::{Journal, Kept, Names};
use diff_core::OnlineRow;
use dots_core::Oom;
use report_core::{put_act, put_lines};
use std::alloc::Allocator;
use whatif_core::{Difference, Kind};

/// The recorded run, whose steps and rows the text tells of.
#[derive(Drop)]
pub(crate) struct Recorded<'a, 't, N: Allocator, B: Allocator> {
    /// The names of the nodes.
    pub names: &'t Names<N>,
    /// The steps of the run.
    pub journal: &'t Journal<'a, B>,
    /// The rows that are asked for, at the end of the run.
    pub before: &'t [OnlineRow<&'a B>],
}

/// Appends the step as `NUMBER NODE VERB ..`: its number, and then its line in a script.
fn put_kept<A: Allocator, N: Allocator, W: Allocator>(
    text: &mut String<A>,
    names: &Names<N>,
    kept: &Kept<W>,
) -> Result<(), Oom>
    ensures { OnOk result (string_bytes text.new ≡ string_bytes text.old ++ kept_words names.now (Some kept.now)) }
{
    let number = kept.number;
    write!(text, "{number} ")?;
    put_act(text, names, kept.node, &kept.step)
}

/// Appends the step at `place`, if there is one, as `put_kept` does.
#[tactic(auto, unfolding(crate::specs::Texts::step_words))]
fn put_step<'a, A: Allocator, N: Allocator, B: Allocator>(
    recorded: &Recorded<'a, '_, N, B>,
    text: &mut String<A>,
    place: usize,
) -> Result<(), Oom>
    ensures { OnOk result (string_bytes text.new ≡ string_bytes text.old ++
        step_words recorded.now.names.now (kepts recorded.now.journal.now.steps) place) }
{
    match recorded.journal.at(place) {
        Some(kept) => put_kept(text, recorded.names, kept),
        None => Ok(()),
    }
}

/// The word for a kind, and a space; the same word for `Before` and `Behind`.
fn kind_word(kind: Kind) -> &'static str
    ensures { result.now ≡ kind_word kind }
{
    match kind {
        Kind::Lost => "lost ",
        Kind::Never => "never ",
        Kind::Before | Kind::Behind => "moved ",
        Kind::Again => "again ",
    }
}

/// Appends ` before ` or ` behind ` and the step at `beside`; nothing for `Lost` and `Never`.
fn put_side<'a, A: Allocator, N: Allocator, B: Allocator>(
    recorded: &Recorded<'a, '_, N, B>,
    text: &mut String<A>,
    kind: Kind,
    beside: usize,
) -> Result<(), Oom>
    ensures { OnOk result (string_bytes text.new ≡ string_bytes text.old ++
        side_words kind (step_words recorded.now.names.now (kepts recorded.now.journal.now.steps) beside)) }
{
    match kind {
        Kind::Lost | Kind::Never => Ok(()),
        Kind::Before => {
            text.push_str(" before ")?;
            put_step(recorded, text, beside)
        }
        Kind::Behind | Kind::Again => {
            text.push_str(" behind ")?;
            put_step(recorded, text, beside)
        }
    }
}

/// Appends ` places K`, where K is `count`, if `count` is above 1.
fn put_places<A: Allocator>(text: &mut String<A>, count: usize) -> Result<(), Oom>
    ensures { OnOk result (string_bytes text.new ≡ string_bytes text.old ++ places_words count) }
{
    if count > 1 {
        write!(text, " places {count}")?;
    }
    Ok(())
}

/// Appends `change N KIND NUMBER NODE VERB ..`, where N is `number`, the difference's number in the text, and KIND is
/// the word for the difference's kind.
#[tactic(auto, unfolding(crate::specs::Texts::changed_words))]
fn put_changed<'a, A: Allocator, N: Allocator, B: Allocator>(
    recorded: &Recorded<'a, '_, N, B>,
    text: &mut String<A>,
    number: usize,
    difference: &Difference<&'a B>,
) -> Result<(), Oom>
    ensures { OnOk result (string_bytes text.new ≡ string_bytes text.old ++
        changed_words recorded.now.names.now (kepts recorded.now.journal.now.steps) number difference.now) }
{
    let kind = kind_word(difference.kind);
    write!(text, "change {number} {kind}")?;
    put_step(recorded, text, difference.place)
}

/// Appends the line of a difference: `change N KIND NUMBER NODE VERB ..`; then, for a step that is moved or comes
/// again, the nearest step before or behind which it comes; then, if there are several such steps, how many.
#[tactic(auto, unfolding(crate::specs::Texts::change_line))]
fn put_line<'a, A: Allocator, N: Allocator, B: Allocator>(
    recorded: &Recorded<'a, '_, N, B>,
    text: &mut String<A>,
    number: usize,
    difference: &Difference<&'a B>,
) -> Result<(), Oom>
    ensures { OnOk result (string_bytes text.new ≡ string_bytes text.old ++
        change_line recorded.now.names.now (kepts recorded.now.journal.now.steps) number difference.now) }
{
    put_changed(recorded, text, number, difference)?;
    put_side(recorded, text, difference.kind, difference.nearest().beside)?;
    put_places(text, difference.besides.len())?;
    Ok(text.push_str("\n")?)
}

fn is_among<A: Allocator>(rows: &[OnlineRow<A>], row: &OnlineRow<A>) -> bool
    ensures { result ≡ is_among rows.now row.now }
{
    for other in rows {
        if row == other {
            return true;
        }
    }
    false
}

/// Copies of the rows that aren't among `others`, in the order of `rows`.
fn rows_alone<A: Allocator + Copy>(
    alloc: A,
    rows: &[OnlineRow<A>],
    others: &[OnlineRow<A>],
) -> Result<Vec<OnlineRow<A>, A>, Oom>
    ensures { IfOk result (λ found. found.items ≡ alone rows.now others.now) }
{
    let mut found = Vec::new(alloc);
    for row in rows {
        if !is_among(others, row) {
            found.push(row.try_copy()?)?;
        }
    }
    Ok(found)
}

/// Appends the text of a difference: its line, and the rows that its changes take away and bring.
#[tactic(auto, unfolding(crate::specs::Texts::difference_text))]
pub(crate) fn put_difference<'a, A: Allocator, N: Allocator, B: Allocator>(
    recorded: &Recorded<'a, '_, N, B>,
    text: &mut String<A>,
    number: usize,
    difference: &Difference<&'a B>,
    alloc: &'a B,
) -> Result<(), Oom>
    ensures { OnOk result (string_bytes text.new ≡ string_bytes text.old ++
        difference_text recorded.now.names.now (kepts recorded.now.journal.now.steps) recorded.now.before.now number difference.now) }
{
    put_line(recorded, text, number, difference)?;
    let gone = rows_alone(alloc, recorded.before, difference.rows.as_slice())?;
    let come = rows_alone(alloc, difference.rows.as_slice(), recorded.before)?;
    put_lines(text, recorded.names, gone.as_slice(), come.as_slice())
}
