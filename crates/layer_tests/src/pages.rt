//! The data of pages, worked by hand: for a run without calls, for hostile words, and for each kind of step (the leave
//! all is refused); and with each request for memory refused in turn.
use crate::benches::Heap;
use bench_core::Limits;
use grammar_core::{console_names, parse_script};
use page_data::page_data;
use run_core::run_script;
use std::process::Abort;
use test_alloc::Refusing;

/// Cases: a script, and the data of its page.
const PAGES: &[(&str, &str)] = &[
    (
        "nodes a\n",
        r#"{"version":1,"nodes":["a"],"consoles":[],"calls":[]}"#,
    ),
    (
        "nodes a b
consoles x y
a join 18446744073709551615 </script> \"q\\ <!--
y back b
",
        r#"{"version":1,"nodes":["a","b"],"consoles":["x","y"],"calls":[{"by":0,"line":"a join 18446744073709551615 \u003c/script> \"q\\ \u003c!--","step":1,"node":0,"made":[1,"18446744073709551615","\u003c/script>","\"q\\","\u003c!--"],"hops":[0,1,1],"plus":[0,1],"dots":[0,1,1,0]},{"by":3,"line":"y back b","no":"NothingToUndo"}]}"#,
    ),
    (
        "nodes a b c
consoles desk
b up a
a join 1 r k m
a update 1 r k n
a broadcast
c deliver a 1
b deliver a 1
b down a
b permdown a
a leave 1 r k
b request
a answer b 1
a extract a b
desk back a
desk undo 6
desk back c
a leaveall 2
",
        r#"{"version":1,"nodes":["a","b","c"],"consoles":["desk"],"calls":[{"by":1,"line":"b up a","step":1,"node":1,"dots":[0,1,0,0]},{"by":0,"line":"a join 1 r k m","step":2,"node":0,"made":[1,"1","r","k","m"],"hops":[0,1,1],"plus":[0,1],"dots":[0,1,1,0]},{"by":0,"line":"a update 1 r k n","step":3,"node":0,"prev":2,"made":[2,"1","r","k","n"],"hops":[0,1,2,0,2,1],"minus":[0,1],"plus":[0,2],"dots":[0,1,2,0]},{"by":0,"line":"a broadcast","step":4,"node":0,"prev":3,"sends":1,"live":[2],"gone":[1]},{"by":2,"line":"c deliver a 1","step":5,"node":2,"from":4,"missed":[0,2,0]},{"by":1,"line":"b deliver a 1","step":6,"node":1,"prev":1,"from":4,"hops":[0,1,2,0,2,1],"plus":[0,2],"dots":[0,1,2,0]},{"by":1,"line":"b down a","step":7,"node":1,"prev":6,"minus":[0,2],"dots":[0,2,2,0]},{"by":1,"line":"b permdown a","step":8,"node":1,"prev":7,"dots":[0,0,0,0]},{"by":0,"line":"a leave 1 r k","step":9,"node":0,"prev":4,"hops":[0,2,2],"minus":[0,2],"dots":[0,1,3,0]},{"by":1,"line":"b request","step":10,"node":1,"prev":8,"sends":1},{"by":0,"line":"a answer b 1","step":11,"node":0,"prev":9,"from":10,"sends":2},{"by":0,"line":"a extract a b","step":12,"node":0,"prev":11,"sends":3,"of":[0]},{"by":3,"line":"desk back a","undoes":12,"node":0},{"by":3,"line":"desk undo 6","no":"HasConsequence 6 by 7","held":[6,7]},{"by":3,"line":"desk back c","undoes":5,"node":2},{"by":0,"line":"a leaveall 2","no":"NotTracked"}]}"#,
    ),
];

/// What came of a refused request for memory.
#[derive(Clone, Copy)]
struct Refused {
    /// Whether the request was made.
    was_made: bool,
    /// Whether the data was given all the same.
    has_data: bool,
}

/// Asks for the data of the script's page, while the heap refuses one request for memory: the one with the number
/// `refused`. The data must be `wanted`; there may be none only if the request was made. Even then there may be data,
/// since a node can do without the memory that it asks for ahead.
fn refuse<'a>(
    script: &str,
    wanted: &str,
    refused: u64,
    heap: &'a Heap,
    rt: &impl Abort,
) -> Refused {
    let script = parse_script(heap, script.as_bytes()).expect(rt, script);
    let played = run_script(&script, heap, Limits::usual()).expect(rt, "a bench");
    heap.refuse_only(refused);
    let told = page_data(&played.bench, heap, console_names(&script));
    let was_made = heap.requests() >= refused;
    heap.refuse_none();
    drop(played);
    drop(script);
    let has_data = told.is_ok();
    holds!(rt, told.map_or(was_made, |text| text.as_str() == wanted));
    Refused { was_made, has_data }
}

#[test]
fn the_data_of_a_page(rt: HostRuntime) {
    let heap = Refusing::new(rt.alloc());
    for (script, data) in PAGES {
        let told = refuse(script, data, 1000000, &heap, &rt);
        holds!(&rt, !told.was_made && told.has_data);
    }
}

#[test]
fn no_data_without_memory(rt: HostRuntime) {
    let heap = Refusing::new(rt.alloc());
    for (script, data) in PAGES {
        let mut has_failed = false;
        let mut was_made = true;
        for refused in 1..400 {
            let told = refuse(script, data, refused, &heap, &rt);
            was_made = told.was_made;
            if !was_made {
                break;
            }
            has_failed |= !told.has_data;
        }
        holds!(&rt, has_failed && !was_made);
    }
}
