//! Whether a browser runs a page: the page's policy names the digests of its script and of its styles.
use crate::program::printed;
use base64::engine::general_purpose::STANDARD;
use sha2::{Digest, Sha256};
use std::alloc::Global;
use std::process::Abort;
use std::str;

const JOINED: &[u8] = b"nodes a\na join 1 r alice phone\n";

/// What stands in `text` between the first `begin` and the first `end` after it, and what follows.
fn between<'t>(text: &'t str, begin: &str, end: &str) -> Option<(&'t str, &'t str)> {
    let (_, behind) = text.split_once(begin)?;
    behind.split_once(end)
}

/// Whether the sources of a policy have the digest of the text.
fn allows<T: Abort>(heap: Global, sources: &str, text: &str, rt: &T) -> bool {
    let digest: [u8; 32] = Sha256::digest(text);
    let named = STANDARD.encode(heap, &digest).ok().expect(rt, "memory");
    let allows = sources.split('\'').any(|source| source.strip_prefix("sha256-")
        == Some(named.as_str()));
    drop(named);
    allows
}

/// Whether the page's policy allows its script, its style and that of its picture; `None` if the page lacks one of
/// them, or a policy for it.
fn runs<T: Abort>(heap: Global, page: &str, rt: &T) -> Option<bool> {
    let (policy, behind) = between(page, "\"Content-Security-Policy\" content=\"", "\">")?;
    let (scripts, _) = between(policy, "script-src ", ";")?;
    let (styles, _) = between(policy, "style-src ", ";")?;
    let (style, behind) = between(behind, "<style>", "</style>")?;
    let (picture, behind) = between(behind, "<style>", "</style>")?;
    let (script, _) = between(behind, "<script>", "</script>")?;
    Some(
        allows(heap, scripts, script, rt)
            && allows(heap, styles, style, rt)
            && allows(heap, styles, picture, rt),
    )
}

#[test]
fn a_browser_runs_a_page(rt: HostRuntime) {
    let writer = printed(rt.alloc(), &["page"], JOINED, &rt);
    let page = str::from_utf8(writer.taken()).unwrap_or("");
    let is_so = runs(rt.alloc(), page, &rt) == Some(true);
    drop(writer);
    assert!(rt; is_so);
}
