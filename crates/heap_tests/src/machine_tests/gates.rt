//! Operations on a few words, and the gate of a heap of 64 blocks.

use crate::machine_tests::gate_hand::{TreePath, at_gate};
use crate::machine_tests::rows::{over, waited, waited_over, went};
use crate::machine_tests::small::{BLACK, GREY, INSIDE, MARK, OPEN, PAIR, SMALL, Spots};
use block_store::{Config, OutOfMemory, Width};
use heap_machine::{Op, Words};

const ONE: Config = Config {
    blocks: 64,
    ..SMALL
};

const TWO: Config = Config { blocks: 64, ..PAIR };

// Phase words of cycle 1: Mark with the gate closed; Sweep; and Sweep closed. Then Mark of cycle 2,
// with nobody and with one thread inside.
const CLOSED: u64 = 1536;

const SWEEP: u64 = 1280;

const SWEEP_CLOSED: u64 = 1792;

const NEXT: u64 = 2048;

const NEXT_INSIDE: u64 = 2049;

// Grey with a link to block 1.
const GREY_TO_FIRST: u64 = 11;

// The cursor after all 64 blocks, and at the first.
const BEHIND_ALL: u64 = 65;

const AT_FIRST: u64 = 1;

#[test]
fn operations_answer_the_word_before(rt: HostRuntime) -> Result<(), OutOfMemory> {
    let mut words = Words::zeroed(rt.alloc(), 3)?;
    assert_eq!(rt; words.len(), 3);
    assert_eq!(rt; words.word(2), 0);
    words.put(1, 7);
    assert_eq!(rt; words.act(&Op::load(1)), 7);
    assert_eq!(rt; words.act(&Op::exchange(1, 9)), 7);
    assert_eq!(rt; words.act(&Op::compare_exchange(1, 8, 1)), 9);
    assert_eq!(rt; words.act(&Op::compare_exchange(1, 9, 5)), 9);
    assert_eq!(rt; words.word(1), 5);
    assert_eq!(rt; words.word(0), 0);
    Ok(())
}

#[test]
fn a_thread_goes_in_and_out(rt: HostRuntime) {
    let phase = Spots::of(&ONE).phase();
    let look = Op::load(phase);
    let enter = [
        waited(look, CLOSED),
        went(look, OPEN),
        over(Op::compare_exchange(phase, OPEN, INSIDE), OPEN),
    ];
    assert_eq!(rt;
        at_gate(&ONE, TreePath::In, &enter),
        Some((look, Some(MARK), None))
    );
    let leave = [over(
        Op::FetchSub {
            place: phase,
            by: 1,
        },
        INSIDE,
    )];
    assert_eq!(rt;
        at_gate(&ONE, TreePath::Out, &leave),
        Some((look, None, None))
    );
}

// The turn over of thread `t` of two, after a Mark pass of cycle 1.
fn turn_over(thread: u32) -> TreePath {
    TreePath::Over {
        thread,
        cycle: 1,
        sweep: false,
    }
}

#[test]
fn a_turn_over_that_finds_nothing_flips(rt: HostRuntime) {
    let places = Spots::of(&TWO);
    let phase = places.phase();
    let look = Op::load(phase);
    let rows = [
        went(look, OPEN),
        went(Op::compare_exchange(phase, OPEN, CLOSED), OPEN),
        went(Op::load(places.grey_list(0)), 0),
        went(Op::load(places.grey_list(1)), 0),
        went(Op::exchange(places.cursor(), AT_FIRST), BEHIND_ALL),
        over(Op::exchange(phase, SWEEP), CLOSED),
    ];
    assert_eq!(rt;
        at_gate(&TWO, turn_over(1), &rows),
        Some((look, None, None))
    );
}

#[test]
fn a_turn_over_that_finds_a_grey_block_reopens(rt: HostRuntime) {
    let places = Spots::of(&TWO);
    let phase = places.phase();
    let look = Op::load(phase);
    let rows = [
        went(look, OPEN),
        went(Op::compare_exchange(phase, OPEN, CLOSED), OPEN),
        went(Op::load(places.grey_list(0)), 0),
        went(Op::load(places.grey_list(1)), 7),
        over(Op::exchange(phase, OPEN), CLOSED),
    ];
    assert_eq!(rt;
        at_gate(&TWO, turn_over(0), &rows),
        Some((look, None, None))
    );
}

// The look whether the gate can be closed, in Mark of cycle 1, and a lost exchange.
#[test]
fn a_turn_over_waits_where_the_gate_is_in_use(rt: HostRuntime) {
    let phase = Spots::of(&TWO).phase();
    let look = Op::load(phase);
    let close = Op::compare_exchange(phase, OPEN, CLOSED);
    let kept_out = Some((look, None, None));
    assert_eq!(rt;
        at_gate(&TWO, turn_over(0), &[went(look, OPEN)]),
        Some((close, None, None))
    );
    for word in [INSIDE, CLOSED] {
        assert_eq!(rt;
            at_gate(&TWO, turn_over(0), &[waited_over(look, word)]),
            kept_out
        );
    }
    for word in [SWEEP, SWEEP_CLOSED, NEXT, NEXT_INSIDE] {
        assert_eq!(rt; at_gate(&TWO, turn_over(0), &[over(look, word)]), kept_out);
    }
    let lost = [went(look, OPEN), waited_over(close, INSIDE)];
    assert_eq!(rt; at_gate(&TWO, turn_over(0), &lost), kept_out);
}

// The start of the next cycle by thread 1 of two, whose root is this block, after a Sweep pass of
// cycle 1. The words that it reads are those of a heap whose roots are black.
#[test]
fn a_sweep_pass_that_finds_nothing_starts_a_cycle(rt: HostRuntime) {
    for (width, root) in [(Width::Four, 6), (Width::Eight, 4)] {
        let c = Config { width, ..TWO };
        let places = Spots::of(&c);
        let phase = places.phase();
        let look = Op::load(phase);
        let rows = [
            went(look, SWEEP),
            went(Op::compare_exchange(phase, SWEEP, SWEEP_CLOSED), SWEEP),
            went(Op::exchange(places.colour(1), GREY), BLACK),
            went(Op::exchange(places.colour(root), GREY_TO_FIRST), BLACK),
            went(Op::exchange(places.grey_list(1), u64::from(root)), 0),
            over(Op::exchange(phase, NEXT), SWEEP_CLOSED),
        ];
        let way = TreePath::Over {
            thread: 1,
            cycle: 1,
            sweep: true,
        };
        assert_eq!(rt; at_gate(&c, way, &rows), Some((look, None, Some(2))));
    }
}
