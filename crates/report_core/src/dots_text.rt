//! Prints the statuses, clocks and clouds at a node.
ghost use Rattle.std.specs.Prelude.{◌≡◌, ◌++◌, ◌<◌, OnOk, string_bytes, option_map};
ghost use Rattle.dots_core.specs.Dots.{AreValid};
ghost use Rattle.dots_core.specs.Names.{most_names};
ghost use Rattle.report_core.specs.Dots.{clock_of, cloud_of, status_text, cloud_text, more_clocks, name_line, name_lines, seen_line, dots_text};

use crate::rows::name_at;
use bench_core::{Names, Node};
use dots_core::{DotSet, Oom};
use replica_core::{Replica, Status};
use std::alloc::Allocator;

/// The context clock of a name, which must be below 32. Each dot in `dots` must have a name below 32 and a clock from 1
/// to 1,000,000,000.
pub fn clock_of<A: Allocator>(dots: &DotSet<A>, name: u16) -> u64
    requires name { name < most_names }
    requires valid { AreValid dots.now }
    ensures { result ≡ clock_of dots.now name }
{
    // form: the proof reads the cloud beside the clock
    let _cloud = dots.cloud_of(name);
    dots.clock_of(name)
}

/// The cloud of a name, by rising clock. Name and dots must be as in `clock_of`.
pub fn cloud_of<A: Allocator>(dots: &DotSet<A>, name: u16) -> &[u64]
    requires name { name < most_names }
    requires valid { AreValid dots.now }
    ensures { result.now ≡ cloud_of dots.now name }
{
    // form: the proof reads the clock beside the cloud
    let _clock = dots.clock_of(name);
    dots.cloud_of(name)
}

/// `up` or `down`; `unknown` for `None`.
#[tactic(auto, unfolding(crate::specs::Dots::status_text))]
fn status_text(status: Option<Status>) -> &'static str
    ensures { result.now ≡ status_text status }
{
    match status {
        None => "unknown",
        Some(Status::Up) => "up",
        Some(Status::Down) => "down",
    }
}

/// Appends each clock after a comma.
#[tactic(auto, unfolding(crate::specs::Dots::more_clocks))]
fn put_more<A: Allocator>(text: &mut String<A>, clocks: &[u64]) -> Result<(), Oom>
    ensures { OnOk result (string_bytes text.new ≡ string_bytes text.old ++ more_clocks clocks.now) }
{
    for clock in clocks {
        write!(text, ",{clock}")?;
    }
    Ok(())
}

/// Appends the clocks separated by commas, or `-` if there are none.
#[tactic(auto, unfolding(crate::specs::Dots::cloud_text))]
fn put_cloud<A: Allocator>(text: &mut String<A>, cloud: &[u64]) -> Result<(), Oom>
    ensures { OnOk result (string_bytes text.new ≡ string_bytes text.old ++ cloud_text cloud.now) }
{
    let [first, rest @ ..] = cloud else {
        return Ok(text.push_str("-")?);
    };
    write!(text, "{first}")?;
    put_more(text, rest)
}

/// Appends `dots NAME STATUS CLOCK CLOUD` from these values, with a line feed.
#[tactic(auto, unfolding(crate::specs::Dots::seen_line))]
fn put_seen<A: Allocator>(
    text: &mut String<A>,
    name: &str,
    status: &str,
    clock: u64,
    cloud: &[u64],
) -> Result<(), Oom>
    ensures { OnOk result (string_bytes text.new ≡ string_bytes text.old ++ seen_line name.now status.now clock cloud.now) }
{
    write!(text, "dots {name} {status} {clock} ")?;
    put_cloud(text, cloud)?;
    Ok(text.push_str("\n")?)
}

/// Appends `dots NAME STATUS CLOCK CLOUD`, with a line feed: NAME is `name`, the rest is what the replica has of the
/// name with this number, which must be below 32.
#[tactic(auto, unfolding(crate::specs::Dots::name_line))]
fn put_name<A: Allocator, R: Allocator>(
    text: &mut String<A>,
    replica: &Replica<R>,
    number: u16,
    name: &str,
) -> Result<(), Oom>
    requires name { number < most_names }
    requires valid { AreValid replica.now.store.seen }
    ensures { OnOk result (string_bytes text.new ≡ string_bytes text.old ++ name_line replica.now number name.now) }
{
    let status = status_text(replica.status(number));
    let seen = replica.seen();
    put_seen(
        text,
        name,
        status,
        clock_of(seen, number),
        cloud_of(seen, number),
    )
}

/// Appends `dots NAME STATUS CLOCK CLOUD` for each name, by rising number.
fn put_names<A: Allocator, N: Allocator, R: Allocator>(
    text: &mut String<A>,
    names: &Names<N>,
    replica: &Replica<R>,
) -> Result<(), Oom>
    requires { AreValid replica.now.store.seen }
    ensures { OnOk result (string_bytes text.new ≡ string_bytes text.old ++ name_lines replica.now 0 names.now) }
{
    for number in 0..names.len() as u16 {
        put_name(text, replica, number, name_at(names, number))?;
    }
    Ok(())
}

/// Appends the statuses, clocks and clouds at a node; nothing if `node` is `None`.
#[tactic(auto, unfolding(crate::specs::Dots::dots_text))]
pub fn put_dots<'a, A: Allocator, N: Allocator, B: Allocator>(
    node: Option<&Node<'a, B>>,
    text: &mut String<A>,
    names: &Names<N>,
) -> Result<(), Oom>
    ensures { OnOk result (string_bytes text.new ≡ string_bytes text.old ++ dots_text names.now (option_map (λ n. n.now) node.entry)) }
{
    match node {
        Some(node) => {
            // form: hands out what the node keeps
            node.node_law();
            put_names(text, names, node.replica())
        }
        None => Ok(()),
    }
}
