//! Commands done by hand on the words of a heap with one thread. Its register 0 refers to an array
//! of five elements, in blocks 6 to 8, and register 1 to a record of one field, in block 9.

use crate::machine_tests::hand::{behind, got, over};
use crate::machine_tests::small::{
    FIVE, FOUR, MARK, NIL, ONE, SEVEN, SHARED, SHARED_NAME, SMALL, Spots, THREE, TO_6, TO_8, TO_9,
};
use barrier_steps::FieldPass;
use block_store::{OutOfMemory, Places, Value};
use heap_machine::{Op, Step, Words};
use never_heap::{Command, Reply};

#[test]
#[tactic(auto, unfolding(block_store::specs::Payloads::payload_of, block_store::specs::Payloads::target, block_store::specs::Shapes::shape_of, array_trees::specs::Levels::tree_depth))]
fn get_of_an_element(rt: HostRuntime) {
    let places = Places::new(&SMALL);
    let mut get = FieldPass::new(0, 1, MARK, Command::Get { d: 3, s: 0, i: 4 });
    assert_eq!(rt; get.want(&places), Op::load(places.payload(2, 0)));
    assert_eq!(rt; got(&mut get, &places, TO_6), Step::Went);
    assert_eq!(rt; get.want(&places), Op::load(places.shape(6)));
    assert_eq!(rt; got(&mut get, &places, FIVE), Step::Went);
    assert_eq!(rt; get.want(&places), Op::load(places.payload(6, 1)));
    assert_eq!(rt; got(&mut get, &places, TO_8), Step::Went);
    assert_eq!(rt; get.want(&places), Op::load(places.payload(8, 0)));
    assert!(rt; !get.decided());
    assert_eq!(rt; got(&mut get, &places, SEVEN), Step::Went);
    assert!(rt; get.decided());
    assert_eq!(rt; get.reply(), None);
    assert_eq!(rt;
        get.want(&places),
        Op::exchange(places.payload(2, 3), SEVEN)
    );
    assert_eq!(rt; got(&mut get, &places, NIL), Step::Over);
    assert_eq!(rt; get.reply(), Some(Reply::Val(Value::Int(7))));
}

#[test]
fn put_in_a_field(rt: HostRuntime) {
    let places = Spots::of(&SMALL);
    let put = Command::Put { s: 1, i: 0, v: 2 };
    let events = [
        (Op::load(places.payload(2, 1)), TO_9),
        (Op::load(places.shape(9)), ONE),
        (Op::load(places.payload(2, 2)), FOUR),
        (Op::exchange(places.payload(9, 1), FOUR), NIL),
    ];
    assert_eq!(rt; behind(&SMALL, MARK, put, &events), over(4, Reply::Stored));
}

#[test]
fn registers_are_shown(rt: HostRuntime) {
    let places = Spots::of(&SMALL);
    let from = (Op::load(places.payload(2, 0)), TO_6);
    let len = [from, (Op::load(places.shape(6)), FIVE)];
    assert_eq!(rt;
        behind(&SMALL, MARK, Command::Len { s: 0 }, &len),
        over(2, Reply::Len(5))
    );
    let same = [from, (Op::load(places.payload(2, 1)), TO_9)];
    assert_eq!(rt;
        behind(&SMALL, MARK, Command::Same { a: 0, b: 1 }, &same),
        over(2, Reply::No)
    );
    let say = [from, (Op::load(places.owner(6)), SHARED)];
    assert_eq!(rt;
        behind(&SMALL, MARK, Command::Say { s: 0 }, &say),
        over(1, SHARED_NAME)
    );
}

#[test]
fn refusals(rt: HostRuntime) {
    let places = Spots::of(&SMALL);
    let get = Command::Get { d: 3, s: 0, i: 5 };
    let from = Op::load(places.payload(2, 0));
    assert_eq!(rt;
        behind(&SMALL, MARK, get, &[(from, NIL)]),
        over(1, Reply::Null)
    );
    assert_eq!(rt;
        behind(&SMALL, MARK, get, &[(from, THREE)]),
        over(1, Reply::Kind)
    );
    let range = [(from, TO_6), (Op::load(places.shape(6)), FIVE)];
    assert_eq!(rt; behind(&SMALL, MARK, get, &range), over(2, Reply::Range));
}

// One event at a time over the words themselves: a register becomes 3, and says so.
#[test]
#[tactic(auto, unfolding(block_store::specs::Payloads::payload_of, block_store::specs::Payloads::target))]
fn events_over_words(rt: HostRuntime) -> Result<(), OutOfMemory> {
    let places = Places::new(&SMALL);
    let mut words = Words::zeroed(rt.alloc(), 40)?;
    let mut set = FieldPass::new(0, 1, MARK, Command::Set { d: 2, value: 3 });
    assert_eq!(rt; set.event(&places, &mut words, &()), Step::Over);
    assert_eq!(rt; set.reply(), Some(Reply::Stored));
    assert_eq!(rt; words.word(places.payload(2, 2)), THREE);
    let mut say = FieldPass::new(0, 1, MARK, Command::Say { s: 2 });
    assert_eq!(rt; say.event(&places, &mut words, &()), Step::Over);
    assert_eq!(rt; say.reply(), Some(Reply::Val(Value::Int(3))));
    Ok(())
}
