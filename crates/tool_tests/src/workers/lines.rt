//! What a race is given: a bench of two nodes, and the lines of a script.
use bench_core::{Act, Bench, Limits, Names};
use script_core::{acts, parse_script};
use std::alloc::Allocator;
use std::process::Abort;

/// Lines, each with its actor.
pub type Lines<'a, B> = Vec<(u16, Act<&'a B>), &'a B>;

/// The act lines of a script.
pub fn lines_of<'a, B: Allocator>(alloc: &'a B, script: &str, rt: &impl Abort) -> Lines<'a, B> {
    let script = parse_script(alloc, script.as_bytes()).expect(rt, "a script");
    let lines = acts(alloc, &script);
    drop(script);
    lines.expect(rt, "act lines")
}

/// Drops the lines. It is a function of its own, so that their drop is proved only here.
pub fn let_go_of_lines<'a, B: Allocator>(lines: Lines<'a, B>) {
    drop(lines);
}

/// A bench of the nodes `a` and `b`, with this limit on acts.
pub fn open<'a, B: Allocator>(alloc: &'a B, acts: u64, rt: &impl Abort) -> Bench<'a, B> {
    let names = Names::new(alloc, &["a", "b"]).expect(rt, "names");
    let limits = Limits::new(acts, 10_000, 1_000_000, 10_000).expect(rt, "limits");
    Bench::new(alloc, names, limits).expect(rt, "a bench")
}
