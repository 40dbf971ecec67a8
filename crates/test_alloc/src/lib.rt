//! An allocator for the tests of this workspace. It counts each request and its bytes, and hands the request on to an
//! inner allocator, or refuses it. A test asks that the n-th request alone be refused, or all from the n-th on.
//!
//! The crate uses std alone. Only tests use it; its own tests stand in `layer_tests`.
#![tactic(auto)]

ghost use Rattle.std.specs.Prelude.{◌≡◌};

use std::alloc::{AllocError, Allocator};
use std::sync::atomic::{AtomicU64, Ordering};

/// How many requests were made since the count last started anew, how many bytes they asked for, and the numbers of the
/// first and the last request to refuse. Requests are numbered from 1, so a `last` of 0 refuses none. The fields are
/// atomic, since threads share them.
#[derive(Drop)]
struct Requests {
    made: AtomicU64,
    bytes: AtomicU64,
    first: AtomicU64,
    last: AtomicU64,
}

/// An allocator that a test passes on as `&heap`: the reference is an allocator, too, and is `Copy`. A request is one
/// call of `allocate`. A `Vec` that grows makes one, and an empty collection makes none.
pub struct Refusing<B: Allocator> {
    inner: B,
    requests: Requests,
}

impl<B: Allocator> Refusing<B> {
    ghost use Rattle.test_alloc.specs.Refusing.{inner_of};

    /// An allocator that refuses nothing yet, and takes its memory from `inner`.
    pub fn new(inner: B) -> Refusing<B>
        ensures { inner_of result ≡ inner }
    {
        Refusing {
            inner,
            requests: Requests {
                made: AtomicU64::new(0),
                bytes: AtomicU64::new(0),
                first: AtomicU64::new(0),
                last: AtomicU64::new(0),
            },
        }
    }

    /// Starts the count anew, and refuses nothing from now on.
    pub fn refuse_none(&self) {
        self.refuse(0, 0);
    }

    /// Starts the count anew, and refuses the request with this number, counted from 1, alone.
    pub fn refuse_only(&self, number: u64) {
        self.refuse(number, number);
    }

    /// Starts the count anew, and refuses the request with this number, counted from 1, and each later one.
    pub fn refuse_from(&self, number: u64) {
        self.refuse(number, u64::MAX);
    }

    /// Starts the count anew, and refuses the requests with the numbers from `first` to `last`.
    fn refuse(&self, first: u64, last: u64) {
        self.requests.made.store(0, Ordering::SeqCst);
        self.requests.bytes.store(0, Ordering::SeqCst);
        self.requests.first.store(first, Ordering::SeqCst);
        self.requests.last.store(last, Ordering::SeqCst);
    }

    /// How many requests were made since the count last started anew, refused ones too.
    pub fn requests(&self) -> u64 {
        self.requests.made.load(Ordering::SeqCst)
    }

    /// How many bytes the requests asked for since the count last started anew, refused ones too.
    pub fn bytes(&self) -> u64 {
        self.requests.bytes.load(Ordering::SeqCst)
    }
}

impl<B: Allocator> Drop for Refusing<B> {
    fn drop(self) {
        let Self {
            inner: _,
            requests: _,
        } = self;
    }
}

/// Counts one more request, of `size` bytes, and says whether it is refused.
fn is_refused(requests: &Requests, size: usize) -> bool {
    requests.bytes.fetch_add(size as u64, Ordering::SeqCst);
    // form: saturating spares a requirement
    let number = requests
        .made
        .fetch_add(1, Ordering::SeqCst)
        .saturating_add(1);
    let first = requests.first.load(Ordering::SeqCst);
    let last = requests.last.load(Ordering::SeqCst);
    first <= number && number <= last
}

// safe because `inner` is an allocator: all memory comes from `inner`, and goes back to it
unsafe impl<B: Allocator> Allocator for Refusing<B> {
    ghost dealloc_token = { λ heap ty ptr. B.dealloc_token heap.inner ty ptr };

    fn allocate(&self, size: usize, align: usize) -> Result<*mut u8, AllocError> {
        if is_refused(&self.requests, size) {
            return Err(AllocError);
        }
        self.inner.allocate(size, align)
    }

    unsafe fn deallocate(&self, ptr: *mut u8, size: usize, align: usize) {
        self.inner.deallocate(ptr, size, align);
    }
}
