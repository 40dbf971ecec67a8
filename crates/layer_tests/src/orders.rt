//! Orders of small runs, worked by hand.
use order_core::{Mark, order};
use std::alloc::Global;
use std::process::Abort;

/// A case: steps; and the order that must be found, as the steps' places in `steps`, counted from 0, or `None` if the
/// steps have no order. A step has its node, and the sender and the number of the message that it delivers. A step that
/// delivers no message sends one.
struct Case {
    steps: &'static [(u16, Option<(u16, u64)>)],
    places: Option<&'static [usize]>,
}

/// The cases in turn: a delivery waits for the second message of its sender, and so does the next step of the
/// delivery's node; two deliveries wait for each other; no message has the number 0; a message may be delivered twice;
/// there are no steps.
const CASES: &[Case] = &[
    Case {
        steps: &[(1, Some((0, 2))), (0, None), (1, None), (0, None)],
        places: Some(&[1, 3, 0, 2]),
    },
    Case {
        steps: &[(0, Some((1, 1))), (0, None), (1, Some((0, 1))), (1, None)],
        places: None,
    },
    Case {
        steps: &[(0, None), (1, Some((0, 0)))],
        places: None,
    },
    Case {
        steps: &[(1, Some((3, 1))), (1, Some((3, 1))), (3, None)],
        places: Some(&[2, 0, 1]),
    },
    Case {
        steps: &[],
        places: Some(&[]),
    },
];

/// The marks of the case's steps.
fn marks_of(alloc: Global, case: &Case, rt: &impl Abort) -> Vec<Mark> {
    let mut marks = Vec::new(alloc);
    for (place, step) in case.steps.iter().enumerate() {
        let (node, delivers) = *step;
        let mark = Mark {
            place,
            node,
            delivers,
            sends: delivers.is_none(),
        };
        marks.push(mark).expect(rt, "memory");
    }
    marks
}

/// Whether the order that was found has these places.
fn has_places(found: &[Mark], places: &[usize]) -> bool {
    for (mark, place) in found.iter().zip(places) {
        if mark.place != *place {
            return false;
        }
    }
    found.len() == places.len()
}

/// Whether `order` gives the order that the case says, or none if the case says `None`.
fn is_found(alloc: Global, case: &Case, rt: &impl Abort) -> bool {
    let marks = marks_of(alloc, case, rt);
    let found = order(alloc, marks.as_slice()).expect(rt, "memory");
    match (&found, case.places) {
        (Some(found), Some(places)) => has_places(found.as_slice(), places),
        (None, None) => true,
        _ => false,
    }
}

#[test]
fn a_message_is_sent_before_it_comes(rt: HostRuntime) {
    for case in CASES {
        holds!(&rt, is_found(rt.alloc(), case, &rt));
    }
}
