//! Sessions of many calls, of either version, are carried to the latest version.
use session_core::carry;
use std::alloc::Global;
use std::process::Abort;

/// A session of 65 joins, in this version.
fn session(heap: Global, version: u8, rt: &impl Abort) -> String {
    let mut text = String::new(heap);
    text.push_str("{\"acts\":[").expect(rt, "memory");
    for pid in 1..66u64 {
        let comma = if pid == 1 { "" } else { "," };
        let join = r#"["do","join","#;
        let words = r#","r","alice","phone"],["ok","#;
        write!(text, "{comma}[0,{join}{pid}{words}{pid}]]").expect(rt, "memory");
    }
    let head = r#"],"limits":[1000,100,100,10],"nodes":["a"],"version":"#;
    write!(text, "{head}{version}}}").expect(rt, "memory");
    text
}

/// Whether the session in this version is carried to the same session in version 2.
fn is_carried(heap: Global, version: u8, rt: &impl Abort) -> bool {
    let text = session(heap, version, rt);
    let latest = session(heap, 2, rt);
    let carried = carry(heap, text.as_bytes()).expect(rt, "a session");
    let is_so = carried.as_slice() == latest.as_bytes();
    drop(carried);
    drop(latest);
    drop(text);
    is_so
}

#[test]
fn a_session_of_many_calls_is_carried(rt: HostRuntime) {
    assert!(rt; is_carried(rt.alloc(), 1, &rt));
    assert!(rt; is_carried(rt.alloc(), 2, &rt));
}
