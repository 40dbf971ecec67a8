//! Words, entries, sets of entries, messages and outboxes.
use crate::cases::holds;
use dots_core::{Dot, DotSet, NameSet};
use payload_core::{Entry, EntrySet, Outbox, OutboxFault, Payload, Word, WordFault};
use std::alloc::{Allocator, Global};
use std::process::Abort;
use test_alloc::Refusing;

type Heap = Refusing<Global>;

/// The word that `text` spells. The text must spell one; if it has more than 14 bytes, there must be memory for it.
pub fn word<A: Allocator + Clone>(rt: &impl Abort, alloc: A, text: &str) -> Word<A> {
    Word::new(alloc, text).expect(rt, "a word")
}

/// An entry of process 7 under the topic `room` and this key, with the metadata `phone`, at the dot of this name and
/// clock.
fn entry<A: Allocator + Copy>(
    rt: &impl Abort,
    alloc: A,
    name: u16,
    clock: u64,
    key: &str,
) -> Entry<A> {
    let dot = Dot { name, clock };
    let topic = word(rt, alloc, "room");
    let key = word(rt, alloc, key);
    Entry::new(dot, 7, topic, key, word(rt, alloc, "phone"))
}

/// Inserts `entry`. Its dot must have no entry in `entries` yet, and there must be memory or room for it.
fn put<A: Allocator + Copy>(rt: &impl Abort, entries: &mut EntrySet<A>, entry: Entry<A>) {
    assert!(rt; entries.get(entry.dot).is_none());
    let is_in = entries.insert(entry).ok().is_some();
    holds!(rt, is_in);
}

/// The entries of `alice` at node 0's clocks 9 and 5, and that of `bob` at node 31's clock 1.
fn three<A: Allocator + Copy>(rt: &impl Abort, alloc: A) -> EntrySet<A> {
    let mut entries = EntrySet::new(alloc);
    put(rt, &mut entries, entry(rt, alloc, 0, 9, "alice"));
    put(rt, &mut entries, entry(rt, alloc, 31, 1, "bob"));
    put(rt, &mut entries, entry(rt, alloc, 0, 5, "alice"));
    entries
}

#[test]
fn a_word_has_1_to_200_visible_bytes(rt: HostRuntime) {
    let longest = "a".repeat(rt.alloc(), 200).expect(&rt, "a text");
    for text in ["!", "~", "alice", longest.as_str()] {
        holds!(&rt, word(&rt, rt.alloc(), text).as_str() == text);
    }
}

#[test]
fn another_text_is_a_bad_word(rt: HostRuntime) {
    let longer = "a".repeat(rt.alloc(), 201).expect(&rt, "a text");
    for text in ["", "a b", "a\n", "\u{7f}", "\u{e9}", longer.as_str()] {
        let fault = Word::new(rt.alloc(), text).err();
        holds(&rt, fault == Some(WordFault::BadWord), text);
    }
}

/// A word of more than 14 bytes takes one request for memory. A text that isn't a word takes none. A copy takes none
/// either: it shares the bytes, and outlives its source.
#[test]
fn a_refused_word_is_out_of_memory(rt: HostRuntime) {
    let heap = Refusing::new(rt.alloc());
    let alice = word(&rt, &heap, "alice.of.lobby.");
    heap.refuse_from(1);
    holds!(
        &rt,
        Word::new(&heap, "alice.of.lobby.").err() == Some(WordFault::OutOfMemory)
    );
    holds!(
        &rt,
        Word::new(&heap, "alice of lobby.").err() == Some(WordFault::BadWord)
    );
    let copy = alice.try_copy().expect(&rt, "a copy");
    drop(alice);
    holds!(
        &rt,
        copy.as_str() == "alice.of.lobby." && heap.requests() == 1
    );
    drop(copy);
}

/// A word of at most 14 bytes takes no memory.
#[test]
fn a_short_word_takes_no_memory(rt: HostRuntime) {
    let heap = Refusing::new(rt.alloc());
    heap.refuse_from(1);
    let alice = word(&rt, &heap, "alice.of.lobby");
    let copy = alice.try_copy().expect(&rt, "a copy");
    holds!(
        &rt,
        copy.as_str() == "alice.of.lobby" && heap.requests() == 0
    );
    drop(alice);
    drop(copy);
}

const IN_ORDER: [(&str, &str); 4] = [("B", "a"), ("a", "a!"), ("a!", "aa"), ("aa", "b")];

#[test]
fn words_are_ordered_by_their_bytes(rt: HostRuntime) {
    for (lower, upper) in IN_ORDER {
        let one = word(&rt, rt.alloc(), lower);
        let other = word(&rt, rt.alloc(), upper);
        holds(&rt, one < other && one != other && !one.same(&other), lower);
        drop(one);
        drop(other);
    }
}

/// Whether the entry of `alice` at the clock 1 is the same as the entry of `key` at `clock`, and whether the entry of
/// `alice` is tracked under `key`.
fn compare<A: Allocator + Copy>(rt: &impl Abort, alloc: A, clock: u64, key: &str) -> (bool, bool) {
    let alice = entry(rt, alloc, 0, 1, "alice");
    let other = entry(rt, alloc, 0, clock, key);
    let is_same = alice.same(&other);
    let is_tracked = alice.is_tracked_as(7, alice.topic(), other.key());
    drop(alice);
    drop(other);
    (is_same, is_tracked)
}

#[test]
fn entries_differ_by_dot_and_by_key(rt: HostRuntime) {
    holds!(&rt, compare(&rt, rt.alloc(), 1, "alice") == (true, true));
    holds!(&rt, compare(&rt, rt.alloc(), 2, "alice") == (false, true));
    holds!(&rt, compare(&rt, rt.alloc(), 1, "bob") == (false, false));
}

/// Whether the set that `only` makes of the entries of these names has `count` entries, and is the same as `entries`
/// if and only if `count` is the length of `entries`.
fn has_only<A: Allocator + Copy>(
    rt: &impl Abort,
    entries: &EntrySet<A>,
    names: NameSet,
    count: usize,
) -> bool {
    let part = entries.only(names).expect(rt, "a part");
    let is_whole = part.same(entries) == (count == entries.len());
    let has_these = is_whole && part.len() == count && part.is_empty() == (count == 0);
    drop(part);
    has_these
}

/// The places of three entries, by rising dot, each with the name and the clock of its dot.
const PLACES: [(usize, u16, u64); 3] = [(0, 0, 5), (1, 0, 9), (2, 31, 1)];

/// Whether the entries are three, and stand at the places of `PLACES`.
fn rise_by_dot<A: Allocator>(entries: &EntrySet<A>) -> bool {
    for (place, name, clock) in PLACES {
        let dot = Dot { name, clock };
        match (entries.at(place), entries.get(dot)) {
            (Some(entry), Some(found)) if entry.dot == dot && found.dot == dot => {}
            _ => return false,
        }
    }
    entries.len() == 3 && entries.at(3).is_none()
}

/// Whether `find` gives the least dot of the entries of `alice`, and nothing for another process or name.
fn finds_least<A: Allocator + Copy>(rt: &impl Abort, alloc: A, entries: &EntrySet<A>) -> bool {
    let room = word(rt, alloc, "room");
    let alice = word(rt, alloc, "alice");
    let least = Dot { name: 0, clock: 5 };
    let is_so = entries.find(0, 7, &room, &alice) == Some(least)
        && entries.find(0, 8, &room, &alice) == None
        && entries.find(31, 7, &room, &alice) == None;
    drop(room);
    drop(alice);
    is_so
}

/// Takes out the entry of `dot`, and says whether there was one, with this dot.
fn takes_out<A: Allocator>(entries: &mut EntrySet<A>, dot: Dot) -> bool {
    match entries.remove(dot) {
        Some(entry) => {
            let is_there = entry.dot == dot;
            drop(entry);
            is_there
        }
        None => false,
    }
}

/// Tests how many entries of a set `only` gives, at which places the entries stand, what a search finds, and what a
/// removal leaves.
#[test]
fn a_set_of_entries_rises_by_dot(rt: HostRuntime) {
    let mut entries = three(&rt, rt.alloc());
    let all = NameSet::empty().with(0).with(31);
    holds!(&rt, has_only(&rt, &entries, all, 3));
    holds!(&rt, has_only(&rt, &entries, all.without(0), 1));
    holds!(&rt, has_only(&rt, &entries, NameSet::empty().with(1), 0));
    holds!(&rt, rise_by_dot(&entries));
    holds!(&rt, finds_least(&rt, rt.alloc(), &entries));
    holds!(&rt, !takes_out(&mut entries, Dot { name: 0, clock: 1 }));
    holds!(&rt, entries.len() == 3);
    holds!(&rt, takes_out(&mut entries, Dot { name: 0, clock: 5 }));
    holds!(&rt, entries.len() == 2);
    drop(entries);
}

/// Whether the insert of `entry` is refused and gives back an entry that is the same as `copy`. The dot of `entry` must
/// have no entry in `entries` yet.
fn is_given_back<A: Allocator + Copy>(
    rt: &impl Abort,
    entries: &mut EntrySet<A>,
    entry: Entry<A>,
    copy: &Entry<A>,
) -> bool {
    assert!(rt; entries.get(entry.dot).is_none());
    match entries.insert(entry) {
        Ok(()) => false,
        Err((given_back, _oom)) => {
            let is_same = given_back.same(copy);
            drop(given_back);
            is_same
        }
    }
}

/// Tries to insert an entry with all memory refused, and must get the entry back. Then makes room, starts the count of
/// requests anew, and inserts an equal entry, again with all memory refused.
fn puts_into_room<'a>(entries: &mut EntrySet<&'a Heap>, heap: &'a Heap, rt: &impl Abort) {
    let one = entry(rt, heap, 0, 1, "alice");
    let other = entry(rt, heap, 0, 1, "alice");
    heap.refuse_from(1);
    holds!(rt, is_given_back(rt, entries, one, &other));
    heap.refuse_none();
    holds!(rt, entries.make_room(1).is_ok());
    heap.refuse_from(1);
    put(rt, entries, other);
}

#[test]
fn an_insert_into_room_takes_no_memory(rt: HostRuntime) {
    let heap = Refusing::new(rt.alloc());
    let mut entries = EntrySet::new(&heap);
    puts_into_room(&mut entries, &heap, &rt);
    holds!(&rt, entries.len() == 1 && heap.requests() == 0);
    drop(entries);
}

/// The set that `only` makes takes the memory for its list from the allocator of the set that it is made from, also
/// when it grows. The two sets share the entries.
#[test]
fn a_part_of_a_set_keeps_the_memory_of_its_set(rt: HostRuntime) {
    let own = Refusing::new(rt.alloc());
    let others = Refusing::new(rt.alloc());
    let mut entries = EntrySet::new(&own);
    put(&rt, &mut entries, entry(&rt, &others, 0, 1, "alice"));
    let new = entry(&rt, &others, 0, 2, "bob");
    own.refuse_none();
    others.refuse_none();
    let name = NameSet::empty().with(0);
    let mut part = entries.only(name).expect(&rt, "a part");
    holds!(&rt, (own.requests(), others.requests()) == (1, 0));
    others.refuse_from(1);
    holds!(&rt, part.make_room(100).is_ok());
    put(&rt, &mut part, new);
    holds!(&rt, own.requests() > 1 && others.requests() == 0);
    drop(part);
    drop(entries);
}

/// A set of one dot, that of node 0 with this clock.
fn seen_of<A: Allocator + Copy>(rt: &impl Abort, alloc: A, clock: u64) -> DotSet<A> {
    let mut seen = DotSet::new(alloc);
    let dot = Dot { name: 0, clock };
    assert!(rt; dot.ok());
    holds!(rt, seen.insert(dot).is_ok());
    seen
}

/// A message of node 0 that has node 0's dot with this clock, and no entry.
fn message<'a>(heap: &'a Heap, clock: u64, rt: &impl Abort) -> Payload<&'a Heap> {
    let seen = seen_of(rt, heap, clock);
    Payload::new(0, seen, EntrySet::new(heap))
}

/// Whether the parts of the message make a message that is the same as `other`.
pub fn is_made_of_its_parts<'a>(message: Payload<&'a Heap>, other: &Payload<&'a Heap>) -> bool {
    let (sender, seen, entries) = message.into_parts();
    let made = Payload::new(sender, seen, entries);
    let is_same = made.same(other);
    drop(made);
    is_same
}

/// Whether the parts of a copy make the same message.
fn is_copied<'a>(message: &Payload<&'a Heap>) -> bool {
    match message.try_copy() {
        Ok(copy) => is_made_of_its_parts(copy, message),
        Err(_) => false,
    }
}

#[test]
fn a_message_gives_its_parts(rt: HostRuntime) {
    let heap = Refusing::new(rt.alloc());
    let message = message(&heap, 4, &rt);
    holds!(&rt, message.asked().is_none());
    holds!(&rt, message.seen().contains(Dot { name: 0, clock: 4 }));
    holds!(&rt, is_copied(&message));
    drop(message);
}

/// Whether the message differs from `other`.
fn is_other<'a>(message: Payload<&'a Heap>, other: &Payload<&'a Heap>) -> bool {
    let is_same = message.same(other);
    drop(message);
    !is_same
}

/// Whether the request differs from a request for other names, and from the empty message that isn't a request.
fn is_told<'a>(request: &Payload<&'a Heap>, heap: &'a Heap) -> bool {
    let names = NameSet::empty().with(31);
    let none = Payload::new(0, DotSet::new(heap), EntrySet::new(heap));
    is_other(Payload::request(heap, 0, names), request) && is_other(none, request)
}

/// A request gives the names that it asks for, and takes no memory.
#[test]
fn a_request_gives_its_names(rt: HostRuntime) {
    let heap = Refusing::new(rt.alloc());
    heap.refuse_from(1);
    let names = NameSet::empty().with(0).with(31);
    let request = Payload::request(&heap, 0, names);
    let asked = request.asked();
    holds!(&rt, is_told(&request, &heap));
    holds!(&rt, heap.requests() == 0);
    drop(request);
    holds!(&rt, matches!(asked, Some(asked) if asked.same(names)));
}

/// Whether the message has node 0's dot with this clock.
fn has_clock<'a>(message: Payload<&'a Heap>, clock: u64) -> bool {
    let has_clock = message.seen().contains(Dot { name: 0, clock });
    drop(message);
    has_clock
}

/// Takes out the last message, and says whether it has node 0's dot with this clock; `false` if there is no message.
fn pops<'a>(outbox: &mut Outbox<'a, Heap>, clock: u64) -> bool {
    match outbox.pop() {
        Some(last) => has_clock(last, clock),
        None => false,
    }
}

/// Pushes the message of this clock with all memory refused, after making room for it if `has_room`. Gives the number
/// of the message, or the fault, with which the message must come back.
fn pushes<'a>(
    outbox: &mut Outbox<'a, Heap>,
    clock: u64,
    has_room: bool,
    heap: &'a Heap,
    rt: &impl Abort,
) -> Result<u64, OutboxFault> {
    let message = message(heap, clock, rt);
    if has_room {
        holds!(rt, outbox.make_room().is_ok());
    }
    heap.refuse_from(1);
    let pushed = match outbox.push(message) {
        Ok(number) => Ok(number),
        Err((given_back, fault)) => {
            holds!(rt, has_clock(given_back, clock));
            Err(fault)
        }
    };
    heap.refuse_none();
    pushed
}

/// Fills an empty outbox for two messages: the first is refused memory, then gets room, and so does the second; a third
/// is one too many.
fn is_filled<'a>(outbox: &mut Outbox<'a, Heap>, heap: &'a Heap, rt: &impl Abort) {
    let refused = pushes(outbox, 1, false, heap, rt);
    holds!(rt, refused == Err(OutboxFault::OutOfMemory));
    holds!(rt, outbox.is_empty() && !outbox.is_full());
    holds!(rt, pushes(outbox, 1, true, heap, rt) == Ok(1));
    holds!(rt, pushes(outbox, 2, true, heap, rt) == Ok(2));
    let refused = pushes(outbox, 3, true, heap, rt);
    holds!(rt, refused == Err(OutboxFault::OutboxFull));
}

/// Reads and empties a full outbox of two messages with all memory refused.
fn is_emptied<'a>(outbox: &mut Outbox<'a, Heap>, heap: &'a Heap, rt: &impl Abort) {
    heap.refuse_from(1);
    holds!(rt, outbox.get(0).is_none() && outbox.get(1).is_some());
    holds!(rt, outbox.get(2).is_some() && outbox.get(3).is_none());
    holds!(rt, outbox.is_full() && outbox.make_room().is_ok());
    holds!(rt, pops(outbox, 2) && pops(outbox, 1));
    holds!(rt, outbox.len() == 0 && heap.requests() == 0);
}

/// Messages are numbered from 1, up to a limit, and taken out from the end.
#[test]
fn an_outbox_holds_as_many_messages_as_its_limit(rt: HostRuntime) {
    let heap = Refusing::new(rt.alloc());
    let mut outbox = Outbox::new(&heap, 2);
    is_filled(&mut outbox, &heap, &rt);
    is_emptied(&mut outbox, &heap, &rt);
    drop(outbox);
}
