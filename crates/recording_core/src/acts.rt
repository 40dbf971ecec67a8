//! `Acts`: the events that the items of a JSON array stand for.
ghost use Rattle.std.specs.Prelude.{◌≡◌, ◌<◌, ◌∷◌, ◌++◌, [], List, length, Some, None, Err, IfOk, OnOk, false};
ghost use Rattle.json.specs.Json.{value, items};
ghost use Rattle.serde_json.specs.Data.{Data, Items};
ghost use Rattle.serde_json.specs.Read.{of_items, converted};
ghost use Rattle.serde_json.specs.View.{view};
ghost use Rattle.recording_core.specs.Drafts.{AreRead};
ghost use Rattle.recording_core.specs.Sessions.{data_of};
ghost use Rattle.json_core.specs.declared.unread.Unread.TheVariants.{Shape};

use bench_core::Event;
use dots_core::Oom;
use event_core::event_at;
use json::Reader;
use json_core::{Unread, value_of};
use serde_json::Value;
use std::alloc::{Allocator, Global};

/// How deep an item of the acts may nest: one level less than their array. The array may nest 126 levels, as a member
/// of the outermost object (`MEMBER_DEPTH` in `draft`).
const ITEM_DEPTH: usize = 125;

/// The events that a list of JSON values stands for, up to the first value that doesn't stand for one.
#[derive(Drop)]
pub struct Acts<A: Allocator> {
    pub events: Vec<Event<A>>,
    /// Whether a value that doesn't stand for an event follows these events.
    pub is_cut: bool,
}

impl<'a, B: Allocator> Acts<&'a B> {
    pub(crate) fn none(heap: Global) -> Acts<&'a B>
        ensures { (result.events.items ≡ []) × (result.is_cut ≡ false) }
    {
        Acts {
            events: Vec::new(heap),
            is_cut: false,
        }
    }

    /// Appends to `events` the event that the next value stands for, or sets `is_cut` if that value stands for none.
    /// Once `is_cut` is set, changes nothing.
    fn add(&mut self, alloc: &'a B, value: &Value) -> Result<(), Oom>
        ensures { OnOk result ((ds : List Data) → AreRead ds self.old.events.items self.old.is_cut
            → AreRead (ds ++ view value.now ∷ []) self.new.events.items self.new.is_cut) }
    {
        if self.is_cut {
            return Ok(());
        }
        match event_at(alloc, value) {
            Ok(event) => Ok(self.events.push(event)?),
            Err(Unread::Memory) => Err(Oom),
            Err(Unread::Shape) => {
                self.is_cut = true;
                Ok(())
            }
        }
    }

    /// Reads the items of an array, from behind the bracket that opens it through the one that closes it. `Shape` if
    /// the text there isn't JSON, or nests too deep. Each item's JSON is dropped once its event is known.
    pub(crate) fn of_items(
        heap: Global,
        alloc: &'a B,
        reader: &mut Reader<'_>,
    ) -> Result<Acts<&'a B>, Unread>
        ensures ok { IfOk result (λ acts. (ds : Items)
            × (converted of_items (items (value 125) (length reader.old) reader.old) ≡ Some (ds, reader.new))
            × AreRead (data_of ds) acts.events.items acts.is_cut) }
        ensures shorter { OnOk result (length reader.new < length reader.old) }
        ensures err { result ≡ Err Shape → converted of_items (items (value 125) (length reader.old) reader.old) ≡ None }
    {
        let mut acts = Acts::none(heap);
        // form: the proof names the loop
        'items: while !reader.take_end_array() {
            let item = value_of(heap, reader, ITEM_DEPTH)?;
            acts.add(alloc, &item)?;
        }
        Ok(acts)
    }
}
