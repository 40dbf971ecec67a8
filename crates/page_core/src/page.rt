//! Writes the text of a page.
ghost use Rattle.std.specs.Prelude.{◌≡◌, ◌++◌, OnOk};
ghost use Rattle.page_core.specs.Page.{escaped, escaped_byte, page_after, page_before, page_text, report_text};

use crate::body::BODY;
use crate::frame::{
    BODY_BEGINS, HEAD, REPORT_BEGINS, RUN_BEGINS, SCRIPT_BEGINS, STILL_BEGINS, TAIL,
};
use crate::script::SCRIPT;
use crate::style::STYLE;
use std::alloc::{AllocError, Allocator};

/// Appends a byte, escaped where HTML needs it.
#[tactic(auto, unfolding(crate::specs::Page::escaped_byte))]
fn put_byte<A: Allocator>(page: &mut Vec<u8, A>, byte: u8) -> Result<(), AllocError>
    ensures { OnOk result (page.new.items ≡ page.old.items ++ escaped_byte byte) }
{
    if byte == b'&' {
        return page.extend_from_slice(b"&amp;");
    }
    if byte == b'<' {
        return page.extend_from_slice(b"&lt;");
    }
    if byte == b'>' {
        return page.extend_from_slice(b"&gt;");
    }
    page.push(byte)?;
    Ok(())
}

/// Appends a text, escaped where HTML needs it.
#[tactic(auto, unfolding(crate::specs::Page::escaped))]
fn put_escaped<A: Allocator>(page: &mut Vec<u8, A>, text: &[u8]) -> Result<(), AllocError>
    ensures { OnOk result (page.new.items ≡ page.old.items ++ escaped text.now) }
{
    for byte in text {
        put_byte(page, *byte)?;
    }
    Ok(())
}

/// Appends a text unchanged.
fn put_text<A: Allocator>(page: &mut Vec<u8, A>, text: &str) -> Result<(), AllocError>
    ensures { OnOk result (page.new.items ≡ page.old.items ++ text.now) }
{
    page.extend_from_slice(text.as_bytes())
}

/// Appends what all pages have in common up to the still picture.
fn put_before<A: Allocator>(page: &mut Vec<u8, A>) -> Result<(), AllocError>
    ensures { OnOk result (page.new.items ≡ page.old.items ++ page_before) }
{
    put_text(page, HEAD)?;
    put_text(page, STYLE)?;
    put_text(page, BODY_BEGINS)?;
    put_text(page, BODY)?;
    put_text(page, STILL_BEGINS)?;
    Ok(())
}

/// Appends the page from the end of the data on.
fn put_after<A: Allocator>(page: &mut Vec<u8, A>) -> Result<(), AllocError>
    ensures { OnOk result (page.new.items ≡ page.old.items ++ page_after) }
{
    put_text(page, SCRIPT_BEGINS)?;
    put_text(page, SCRIPT)?;
    put_text(page, TAIL)?;
    Ok(())
}

/// Appends all that stands between the still picture and the data: the report, escaped, and what frames the report.
#[tactic(auto, unfolding(crate::specs::Page::report_text))]
fn put_report<A: Allocator>(page: &mut Vec<u8, A>, report: &[u8]) -> Result<(), AllocError>
    ensures { OnOk result (page.new.items ≡ page.old.items ++ report_text report.now) }
{
    put_text(page, REPORT_BEGINS)?;
    put_escaped(page, report)?;
    put_text(page, RUN_BEGINS)
}

/// Appends the page of a run, made of its still picture (HTML), its report (any text) and its data (JSON without `<`).
pub fn put_page<A: Allocator>(
    page: &mut Vec<u8, A>,
    still: &[u8],
    report: &[u8],
    run: &[u8],
) -> Result<(), AllocError>
    ensures { OnOk result (page.new.items ≡ page.old.items ++ page_text still.now report.now run.now) }
{
    put_before(page)?;
    page.extend_from_slice(still)?;
    put_report(page, report)?;
    page.extend_from_slice(run)?;
    put_after(page)?;
    Ok(())
}
