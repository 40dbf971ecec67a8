//! `Line`: the end of a text, gathered in place, so that many short pieces are appended to the text at once.
ghost use Rattle.std.specs.Prelude.{◌≡◌, ◌+◌, ◌≤◌, [], ◌++◌, OnOk, codes, length, string_bytes};
ghost use Rattle.arrayvec.specs.ArrayString.{array_string_len};
ghost use Rattle.payload_core.specs.Words.{longest_word};
ghost use Rattle.report_core.specs.Rows.{parts_text, reply_line};
ghost use Rattle.bench_core.specs.declared.reply.Reply.TheVariants.{Taken, Undone};

use arrayvec::ArrayString;
use dots_core::Oom;
use itoa::Buffer;
use std::alloc::Allocator;

/// The end of a text, up to 512 bytes, until it is appended to the text. Writing to it asks for no memory.
pub(crate) type Line = ArrayString<512>;

/// What a row shows, in the order in which it is printed.
#[derive(Drop)]
pub(crate) struct Parts<'t> {
    pub(crate) topic: &'t str,
    pub(crate) key: &'t str,
    pub(crate) node: &'t str,
    pub(crate) pid: u64,
    pub(crate) metadata: &'t str,
}

/// Appends the line to the text, and leaves the line as it is.
pub(crate) fn end<A: Allocator>(text: &mut String<A>, line: &Line) -> Result<(), Oom>
    ensures { OnOk result (string_bytes text.new ≡ string_bytes text.old ++ line.now.bytes) }
{
    Ok(text.push_str(line.as_str())?)
}

/// Appends the line to the text, and empties the line.
fn flush<A: Allocator>(text: &mut String<A>, line: &mut Line) -> Result<(), Oom>
    ensures text { OnOk result (string_bytes text.new ≡ string_bytes text.old ++ line.old.bytes) }
    ensures line { OnOk result (line.new.bytes ≡ []) }
{
    end(text, line)?;
    line.clear();
    Ok(())
}

/// Appends `part` to the line, if there is room. Else appends the line and then `part` to the text, and empties the
/// line.
#[inline(always)]
pub(crate) fn put_part<A: Allocator>(
    text: &mut String<A>,
    line: &mut Line,
    part: &str,
) -> Result<(), Oom>
    ensures { OnOk result (string_bytes text.new ++ line.new.bytes ≡ (string_bytes text.old ++ line.old.bytes) ++ part.now) }
{
    if part.len() <= line.remaining_capacity() {
        line.push_str(part);
        return Ok(());
    }
    flush(text, line)?;
    Ok(text.push_str(part)?)
}

/// Appends `TOPIC KEY ` to the line, which must have room for it.
#[inline(always)]
fn put_tracked(line: &mut Line, topic: &str, key: &str)
    requires { array_string_len line.old + length topic.now + length key.now + 2 ≤ 512 }
    ensures bytes { line.new.bytes ≡ line.old.bytes ++ (topic.now ++ codes " " ++ key.now ++ codes " ") }
    ensures len { array_string_len line.new ≡ array_string_len line.old + length topic.now + length key.now + 2 }
{
    line.push_str(topic);
    line.push_str(" ");
    line.push_str(key);
    line.push_str(" ");
}

/// Appends `NODE/PID META` and a line feed to the line, which must have room for them. `digits` are those of PID.
#[inline(always)]
fn put_process(line: &mut Line, node: &str, digits: &str, metadata: &str)
    requires { array_string_len line.old + length node.now + length digits.now + length metadata.now + 3 ≤ 512 }
    ensures { line.new.bytes ≡ line.old.bytes ++ (node.now ++ codes "/" ++ digits.now ++ codes " " ++ metadata.now ++ codes "\n") }
{
    line.push_str(node);
    line.push_str("/");
    line.push_str(digits);
    line.push_str(" ");
    line.push_str(metadata);
    line.push_str("\n");
}

/// Appends `TOPIC KEY NODE/PID META` and a line feed to the text itself.
fn put_whole<A: Allocator>(text: &mut String<A>, parts: &Parts) -> Result<(), Oom>
    ensures { OnOk result (string_bytes text.new ≡ string_bytes text.old ++
        parts_text parts.now.topic.now parts.now.key.now parts.now.node.now parts.now.pid parts.now.metadata.now) }
{
    let topic = parts.topic;
    let key = parts.key;
    let node = parts.node;
    let pid = parts.pid;
    let metadata = parts.metadata;
    // form: in two pieces, which the proof takes one after the other
    write!(text, "{topic} {key} ")?;
    Ok(writeln!(text, "{node}/{pid} {metadata}")?)
}

/// Appends the row `TOPIC KEY NODE/PID META`, with a line feed, to the line, if there is room. Else appends the line
/// and then the row to the text, and empties the line. Topic, key and metadata must have at most 200 bytes each.
pub(crate) fn put_parts<A: Allocator>(
    text: &mut String<A>,
    line: &mut Line,
    parts: &Parts,
) -> Result<(), Oom>
    requires topic { length parts.now.topic.now ≤ longest_word }
    requires key { length parts.now.key.now ≤ longest_word }
    requires metadata { length parts.now.metadata.now ≤ longest_word }
    ensures { OnOk result (string_bytes text.new ++ line.new.bytes ≡ (string_bytes text.old ++ line.old.bytes) ++
        parts_text parts.now.topic.now parts.now.key.now parts.now.node.now parts.now.pid parts.now.metadata.now) }
{
    let mut buffer = Buffer::new();
    let digits = buffer.format(parts.pid);
    // 5: three spaces, a slash and a line feed
    let words = parts.topic.len() + parts.key.len() + parts.metadata.len() + digits.len() + 5;
    if words + parts.node.len() <= line.remaining_capacity() {
        put_tracked(line, parts.topic, parts.key);
        put_process(line, parts.node, digits, parts.metadata);
        return Ok(());
    }
    flush(text, line)?;
    put_whole(text, parts)
}

/// Puts the number, ` ok` and a line feed into the empty line.
#[tactic(auto, unfolding(crate::specs::Rows::reply_line))]
pub(crate) fn put_taken(line: &mut Line, number: u64)
    requires { line.old.bytes ≡ [] }
    ensures { line.new.bytes ≡ reply_line (Taken number) }
{
    let mut buffer = Buffer::new();
    line.push_str(buffer.format(number));
    line.push_str(" ok\n");
}

/// Puts `undone `, the number and a line feed into the empty line.
#[tactic(auto, unfolding(crate::specs::Rows::reply_line))]
pub(crate) fn put_one_undone(line: &mut Line, number: u64)
    requires { line.old.bytes ≡ [] }
    ensures { line.new.bytes ≡ reply_line (Undone number) }
{
    let mut buffer = Buffer::new();
    line.push_str("undone ");
    line.push_str(buffer.format(number));
    line.push_str("\n");
}
