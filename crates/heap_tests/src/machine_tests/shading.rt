//! Stores and the write barrier before them, done by hand on the words of a heap with one thread,
//! in cycle 1. Its register 1 refers to a record of one field, in block 9.

use crate::machine_tests::hand::{behind, over};
use crate::machine_tests::small::{
    BLACK, GREY, GREY_TO_6, MARK, NIL, ONE, SHARED, SHARED_NAME, SMALL, SWEEP, Spots, THREE, TO_8,
    TO_9, WHITE, WIDE,
};
use heap_machine::Op;
use never_heap::{Command, Reply};

#[test]
fn mov_shades_a_white_block(rt: HostRuntime) {
    let places = Spots::of(&SMALL);
    let events = [
        (Op::load(places.payload(2, 1)), TO_9),
        (Op::exchange(places.grey_list(0), 0), 6),
        (
            Op::compare_exchange(places.colour(9), WHITE, GREY_TO_6),
            WHITE,
        ),
        (Op::exchange(places.grey_list(0), 9), 0),
        (Op::exchange(places.payload(2, 2), TO_9), NIL),
    ];
    assert_eq!(rt;
        behind(&SMALL, MARK, Command::Mov { d: 2, s: 1 }, &events),
        over(5, Reply::Stored)
    );
}

// The own list is empty and the block black, so there is no list to put back. Register 9 is in the
// second block of registers.
#[test]
fn put_finds_its_block_black(rt: HostRuntime) {
    let places = Spots::of(&WIDE);
    let put = Command::Put { s: 1, i: 0, v: 9 };
    let events = [
        (Op::load(places.payload(2, 1)), TO_9),
        (Op::load(places.shape(9)), ONE),
        (Op::load(places.payload(3, 1)), TO_8),
        (Op::exchange(places.grey_list(0), 0), 0),
        (Op::compare_exchange(places.colour(8), WHITE, GREY), BLACK),
        (Op::exchange(places.payload(9, 1), TO_8), NIL),
    ];
    assert_eq!(rt; behind(&WIDE, MARK, put, &events), over(6, Reply::Stored));
}

// It is decided, and its value known, before it shades.
#[test]
fn get_shades_what_it_loaded(rt: HostRuntime) {
    let places = Spots::of(&SMALL);
    let get = Command::Get { d: 3, s: 1, i: 0 };
    let events = [
        (Op::load(places.payload(2, 1)), TO_9),
        (Op::load(places.shape(9)), ONE),
        (Op::load(places.payload(9, 1)), TO_8),
        (Op::load(places.owner(8)), SHARED),
        (Op::exchange(places.grey_list(0), 0), 0),
        (Op::compare_exchange(places.colour(8), WHITE, GREY), WHITE),
        (Op::exchange(places.grey_list(0), 8), 0),
        (Op::exchange(places.payload(2, 3), TO_8), NIL),
    ];
    assert_eq!(rt; behind(&SMALL, MARK, get, &events), over(3, SHARED_NAME));
}

// Nothing is shaded for a number, nor in Sweep.
#[test]
fn stores_come_at_once(rt: HostRuntime) {
    let places = Spots::of(&WIDE);
    let copy = Command::Mov { d: 2, s: 1 };
    let register = Op::load(places.payload(2, 1));
    for (phase, word) in [(MARK, THREE), (SWEEP, TO_9)] {
        assert_eq!(rt;
            behind(&WIDE, phase, copy, &[(register, word)]),
            Some((None, Op::exchange(places.payload(2, 2), word), None))
        );
    }
    let shape = (Op::load(places.shape(9)), ONE);
    let get = [
        (register, TO_9),
        shape,
        (Op::load(places.payload(9, 1)), TO_8),
        (Op::load(places.owner(8)), SHARED),
    ];
    assert_eq!(rt;
        behind(&WIDE, SWEEP, Command::Get { d: 3, s: 1, i: 0 }, &get),
        Some((Some(3), Op::exchange(places.payload(2, 3), TO_8), None))
    );
    let put = [
        (register, TO_9),
        shape,
        (Op::load(places.payload(2, 2)), TO_8),
    ];
    assert_eq!(rt;
        behind(&WIDE, SWEEP, Command::Put { s: 1, i: 0, v: 2 }, &put),
        Some((None, Op::exchange(places.payload(9, 1), TO_8), None))
    );
}
