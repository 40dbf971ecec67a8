//! The rows that a real node listed, as rows of an online list of the bench.
ghost use Rattle.std.specs.Prelude.{◌≡◌, ◌++◌, ◌∷◌, [], Err, IfOk, OnOk};
ghost use Rattle.serde_json.specs.View.{items_view};
ghost use Rattle.log_core.specs.Views.{event as shown_event, row as shown_row};
ghost use Rattle.import_core.specs.Tables.{Keeps, all_of};
ghost use Rattle.import_core.specs.Listed.{AreRowsOf, IsListOf, IsRowOf};
ghost use Rattle.import_core.specs.Seen.{HasTooMany, SeesNodes, nodes_among, row_names};
ghost use Rattle.import_core.specs.Sights.{SeesValues, pids_among, row_pids, row_words, tracked_words, words_among};

use crate::note_fault::NoteFault;
use crate::noting::presence_for;
use crate::tables::Tables;
use diff_core::OnlineRow;
use dots_core::Oom;
use log_core::{LogEvent, Row, row_at};
use serde_json::Value;
use std::alloc::{Allocator, Global};

/// The listed row as a row of the bench. Its clock is 0, since a real node lists no clocks. In the tables, a new node,
/// a new process, and a new value whose word must be cut, get numbers.
fn row_for<A: Allocator + Copy>(
    heap: Global,
    alloc: A,
    tables: &mut Tables<A>,
    row: &Row<'_>,
) -> Result<OnlineRow<A>, NoteFault>
    ensures row { IfOk result (λ r. IsRowOf (all_of tables.new) (shown_row row.now) r) }
    ensures seen { OnOk result (SeesNodes (all_of tables.old) (all_of tables.new) ((shown_row row.now).node ∷ [])) }
    ensures extends { Keeps (all_of tables.old) (all_of tables.new) }
    ensures values { OnOk result (SeesValues (all_of tables.old) (all_of tables.new)
        ((shown_row row.now).tracked.pid ∷ []) (tracked_words (shown_row row.now).tracked)) }
    ensures many { result ≡ Err NoteFault.TooManyNodes → HasTooMany (all_of tables.old) ((shown_row row.now).node ∷ []) }
{
    let name = tables.node(row.node)?;
    let p = presence_for(heap, alloc, tables, &row.tracked)?;
    Ok(OnlineRow {
        topic: p.topic,
        key: p.key,
        name,
        pid: p.pid,
        clock: 0,
        metadata: p.metadata,
    })
}

/// Appends the row. A refused push becomes `Oom`, which `rows_for` passes on as a `NoteFault`.
fn add_row<A: Allocator + Copy>(
    rows: &mut Vec<OnlineRow<A>, A>,
    row: OnlineRow<A>,
) -> Result<(), Oom>
    ensures { OnOk result (rows.new.items ≡ rows.old.items ++ row ∷ []) }
{
    rows.push(row)?;
    Ok(())
}

/// The listed rows as rows of the bench. Passes over values that aren't rows; an event has none of these. The tables
/// change as in `row_for`.
fn rows_for<A: Allocator + Copy>(
    heap: Global,
    alloc: A,
    tables: &mut Tables<A>,
    values: &[Value],
) -> Result<Vec<OnlineRow<A>, A>, NoteFault>
    ensures rows { IfOk result (λ rows. AreRowsOf (all_of tables.new) [] (items_view values.now) rows.items) }
    ensures seen { OnOk result (SeesNodes (all_of tables.old) (all_of tables.new) (nodes_among (items_view values.now))) }
    ensures extends { Keeps (all_of tables.old) (all_of tables.new) }
    ensures values { OnOk result (SeesValues (all_of tables.old) (all_of tables.new)
        (pids_among (items_view values.now)) (words_among (items_view values.now))) }
    ensures many { result ≡ Err NoteFault.TooManyNodes → HasTooMany (all_of tables.old) (nodes_among (items_view values.now)) }
{
    let mut rows = Vec::new(alloc);
    for value in values {
        if let Some(listed) = row_at(value) {
            let row = row_for(heap, alloc, tables, &listed)?;
            add_row(&mut rows, row)?;
        }
    }
    Ok(rows)
}

/// The rows that an event lists, as rows of the bench; none if it lists none. The tables change as in `row_for`.
pub(crate) fn listed_for<A: Allocator + Copy>(
    heap: Global,
    alloc: A,
    tables: &mut Tables<A>,
    event: &LogEvent<'_>,
) -> Result<Vec<OnlineRow<A>, A>, NoteFault>
    ensures rows { IfOk result (λ rows. IsListOf (all_of tables.new) (shown_event event.now) rows.items) }
    ensures seen { OnOk result (SeesNodes (all_of tables.old) (all_of tables.new) (row_names (shown_event event.now))) }
    ensures extends { Keeps (all_of tables.old) (all_of tables.new) }
    ensures values { OnOk result (SeesValues (all_of tables.old) (all_of tables.new)
        (row_pids (shown_event event.now)) (row_words (shown_event event.now))) }
    ensures many { result ≡ Err NoteFault.TooManyNodes → HasTooMany (all_of tables.old) (row_names (shown_event event.now)) }
{
    match event {
        LogEvent::Online(values) => rows_for(heap, alloc, tables, values),
        _ => Ok(Vec::new(alloc)),
    }
}
