//! Letters of a post that are taken before and after the senders are gathered.

use crate::slim::mail::Row::{Comes, Sends};
use crate::slim::mail::{closes, gathers_one, gathers_two, post_of_one, post_of_two, works};
use std::test::Fail;

#[test]
fn a_letter_is_taken_before_its_sender_is_gathered(rt: HostRuntime) -> Result<(), Fail> {
    let (post, sender, taker) = post_of_one(rt.alloc(), 2)?;
    let mut sender = sender;
    let mut taker = taker;
    let rows = [
        Comes(None),
        Sends(7),
        Comes(Some((0, 7))),
        Comes(None),
        Sends(8),
    ];
    works(&rt, &post, &mut sender, &mut taker, &rows);
    gathers_one(&rt, rt.alloc(), &post, sender, &mut taker)?;
    let taken = closes(&rt, post, taker, &[Some((0, 8)), None]);
    assert_eq!(rt; taken.numbers(0), [7, 8].as_slice());
    Ok(())
}

#[test]
fn the_letters_of_two_senders_are_taken_in_their_order(rt: HostRuntime) -> Result<(), Fail> {
    let (post, first, second, taker) = post_of_two(rt.alloc())?;
    let mut first = first;
    let mut second = second;
    let mut taker = taker;
    works(&rt, &post, &mut first, &mut taker, &[Sends(5)]);
    let rows = [Sends(6), Comes(Some((0, 5))), Comes(Some((1, 6))), Sends(7)];
    works(&rt, &post, &mut second, &mut taker, &rows);
    let rows = [Sends(8), Comes(Some((1, 7))), Comes(Some((0, 8)))];
    works(&rt, &post, &mut first, &mut taker, &rows);
    gathers_two(&rt, rt.alloc(), &post, first, second, &mut taker)?;
    let taken = closes(&rt, post, taker, &[None]);
    assert_eq!(rt; taken.numbers(0), [5, 8].as_slice());
    assert_eq!(rt; taken.numbers(1), [6, 7].as_slice());
    Ok(())
}

#[test]
fn a_post_has_room_for_many_letters(rt: HostRuntime) -> Result<(), Fail> {
    let (post, sender, taker) = post_of_one(rt.alloc(), 100_000)?;
    let mut sender = sender;
    let mut taker = taker;
    let rows = [Sends(7), Comes(Some((0, 7)))];
    works(&rt, &post, &mut sender, &mut taker, &rows);
    gathers_one(&rt, rt.alloc(), &post, sender, &mut taker)?;
    let taken = closes(&rt, post, taker, &[None]);
    assert_eq!(rt; taken.numbers(0), [7].as_slice());
    Ok(())
}
