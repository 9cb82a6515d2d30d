//! Scans and shades done by hand on the words of a heap with two threads, in cycle 1.

use crate::machine_tests::grey_hand::{scanned, shaded, shaded_words};
use crate::machine_tests::rows::{over, unit, went};
use crate::machine_tests::small::{BLACK, GREY, GREY_TO_6, NIL, PAIR, SEVEN, Spots, WHITE};
use block_store::{OutOfMemory, Places};
use grey_steps::GreyRow;
use heap_machine::{Op, Step, Words};

// Grey blocks after which block 9 or 13 is.
const GREY_TO_9: u64 = 75;

const GREY_TO_13: u64 = 107;

// Payloads.
const TO_12: u64 = 24;

const TO_13: u64 = 26;

// The other thread's list is 11 and 6. Block 11 holds nil, a number, a reference to block 13, which
// is white, and one to block 12, which is black.
#[test]
fn a_block_is_scanned(rt: HostRuntime) {
    let places = Spots::of(&PAIR);
    let rows = [
        went(Op::exchange(places.grey_list(0), 0), 0),
        went(Op::exchange(places.grey_list(1), 0), 11),
        went(Op::load(places.colour(11)), GREY_TO_6),
        went(Op::load(places.payload(11, 0)), NIL),
        went(Op::load(places.payload(11, 1)), SEVEN),
        went(Op::load(places.payload(11, 2)), TO_13),
        went(
            Op::compare_exchange(places.colour(13), WHITE, GREY_TO_6),
            WHITE,
        ),
        went(Op::load(places.payload(11, 3)), TO_12),
        went(
            Op::compare_exchange(places.colour(12), WHITE, GREY_TO_13),
            BLACK,
        ),
        unit(went(Op::exchange(places.colour(11), BLACK), GREY_TO_6)),
        unit(over(Op::exchange(places.grey_list(0), 13), 0)),
    ];
    assert_eq!(rt; scanned(&PAIR, 0, &rows), Some(false));
}

#[test]
fn nothing_is_grey(rt: HostRuntime) {
    let places = Spots::of(&PAIR);
    let rows = [
        went(Op::exchange(places.grey_list(1), 0), 0),
        over(Op::exchange(places.grey_list(0), 0), 0),
    ];
    assert_eq!(rt; scanned(&PAIR, 1, &rows), Some(true));
}

// The first time it is white, and the second time grey, and the own list empty.
#[test]
fn a_block_is_shaded(rt: HostRuntime) {
    let places = Spots::of(&PAIR);
    let list = places.grey_list(1);
    let colour = places.colour(12);
    let rows = [
        went(Op::exchange(list, 0), 9),
        went(Op::compare_exchange(colour, WHITE, GREY_TO_9), WHITE),
        over(Op::exchange(list, 12), 0),
    ];
    assert_eq!(rt; shaded(&PAIR, 1, 12, &rows), Some(false));
    let again = [
        went(Op::exchange(list, 0), 0),
        over(Op::compare_exchange(colour, WHITE, GREY), GREY_TO_9),
    ];
    assert_eq!(rt; shaded(&PAIR, 1, 12, &again), Some(false));
}

// Block 1 is shaded by events on the words of the heap up to its colour, and by hand on a copy.
#[test]
fn an_event_is_want_and_act(rt: HostRuntime) -> Result<(), OutOfMemory> {
    let places = Places::new(&PAIR);
    let mut words = Words::zeroed(rt.alloc(), 8)?;
    words.put(places.colour(1), WHITE);
    let mut copy = Words::zeroed(rt.alloc(), 8)?;
    copy.put(places.colour(1), WHITE);
    let rows = [
        (Step::Went, places.grey_list(1), 0),
        (Step::Went, places.colour(1), GREY),
        (Step::Over, places.grey_list(1), 1),
    ];
    assert_eq!(rt;
        shaded_words(&PAIR, 1, 1, &mut words, &mut copy, &rows),
        Some(GreyRow::Shaded { target: 1 })
    );
    Ok(())
}
