//! What no clause says of the allocator that these tests use: which requests it refuses, and what it counts.
use std::alloc::Global;
use test_alloc::Refusing;

/// The length of a new list with room for a byte, or `None` if the request for that is refused.
fn length_of_new(heap: &Refusing<Global>) -> Option<usize> {
    let bytes: Vec<u8, _> = Vec::with_capacity(heap, 1).ok()?;
    let length = bytes.len();
    drop(bytes);
    Some(length)
}

#[test]
fn refuses_the_one_request_that_is_named(rt: HostRuntime) {
    let heap = Refusing::new(rt.alloc());
    heap.refuse_only(2);
    holds!(&rt, length_of_new(&heap) == Some(0));
    holds!(&rt, length_of_new(&heap).is_none());
    holds!(&rt, length_of_new(&heap) == Some(0));
    holds!(&rt, (heap.requests(), heap.bytes()) == (3, 3));
    heap.refuse_none();
    holds!(&rt, (heap.requests(), heap.bytes()) == (0, 0));
}

#[test]
fn refuses_all_from_the_one_that_is_named(rt: HostRuntime) {
    let heap = Refusing::new(rt.alloc());
    let mut bytes: Vec<u8, _> = Vec::with_capacity(&heap, 1).expect(&rt, "a list");
    heap.refuse_from(1);
    holds!(&rt, bytes.push(7).is_ok());
    holds!(&rt, heap.requests() == 0);
    for number in 1..=3u8 {
        holds!(&rt, bytes.reserve(9).is_err());
        holds!(&rt, heap.requests() == u64::from(number));
    }
    heap.refuse_none();
    holds!(&rt, bytes.reserve(9).is_ok());
    holds!(&rt, heap.requests() == 1);
    holds!(&rt, bytes.as_slice() == [7].as_slice());
    drop(bytes);
}
