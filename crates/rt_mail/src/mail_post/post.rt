//! The post and its ends.

ghost use Rattle.std.specs.Prelude.{◌≡◌, ◌≢◌, ◌+◌, ◌<◌, ◌≤◌, ℕ, List, [], ◌∷◌, ◌++◌, length, map, slice_index_or, Some, None, Ok, IfOk, IfSome, OnErr, IsSome};
ghost use Rattle.crossbeam_queue.specs.Passes.{view, IsPassOf, IsSamePass};
ghost use Rattle.rt_mail.specs.declared.mail_post.views.Letter.{Letter};
ghost use Rattle.rt_mail.specs.declared.mail_post.views.View.TheVariants.{Sending, Taking};
ghost use Rattle.rt_mail.specs.mail_post.Rule.{IsTaking, sent_in, letters_in, gathered_in, senders_in, Tells};
ghost use Rattle.rt_mail.specs.mail_post.PostStates.{fresh_sender, fresh_senders, fresh_taker, all_sent, whole_of, AreAll, OfPost, Begins};
ghost use Rattle.rt_mail.specs.mail_post.NumberRows.{rows_of, took};

use crate::mail_post::rows::{Row, make_room, put_in};
use crate::mail_post::rule::{End, Line, Roles, Sends, Takes};
use crate::mail_post::views::Letter;
use block_store::OutOfMemory;
use std::alloc::Global;
use std::marker::Model;
use std::sync::Wait;
use std::thread;

/// A queue between a few senders and one taker.
#[derive(Drop)]
pub struct Post {
    line: Line,
    senders: u32,
}

impl Model for Post {
    ghost use Rattle.crossbeam_queue.specs.Passes.{ruled_capacity};
    ghost use Rattle.rt_mail.specs.mail_post.PostStates.{PostState};

    ghost Value = { PostState };

    ghost view = { λ p. record {
      id = p.line.table.shared.table_id;
      senders = p.senders;
      room = ruled_capacity p.line;
    } };
}

/// The end at which one thread sends.
#[derive(Drop)]
pub struct Sender {
    pass: End,
    thread: u32,
}

impl Model for Sender {
    ghost use Rattle.std.specs.Prelude.{◌≡◌, []};
    ghost use Rattle.crossbeam_queue.specs.Passes.{view as known};
    ghost use Rattle.rt_mail.specs.declared.mail_post.views.View.TheVariants.{Sending};
    ghost use Rattle.rt_mail.specs.mail_post.Rule.{sent_in, letters_in, gathered_in, senders_in, Tells};
    ghost use Rattle.rt_mail.specs.mail_post.PostStates.{SenderState};

    ghost Value = { SenderState };

    ghost view = { λ s. record {
      post = s.pass.table_id;
      thread = s.thread;
      sent = sent_in (known s.pass);
    } };

    ghost invariant = { λ s. (s.pass.me.1 ≡ [])
        × (known s.pass ≡ Sending s.thread (sent_in (known s.pass))) };
}

/// The end at which letters are taken.
#[derive(Drop)]
pub struct Taker {
    pass: End,
    rows: Vec<Row>,
}

impl Model for Taker {
    ghost use Rattle.std.specs.Prelude.{◌≡◌, [], length};
    ghost use Rattle.crossbeam_queue.specs.Passes.{view as known};
    ghost use Rattle.rt_mail.specs.mail_post.Rule.{gathered_in};
    ghost use Rattle.rt_mail.specs.mail_post.NumberRows.{rows_of};
    ghost use Rattle.rt_mail.specs.mail_post.PostStates.{TakerState, IsTaker, known_sent};

    ghost Value = { TakerState };

    ghost view = { λ s. record {
      post = s.pass.table_id;
      taken = rows_of s.rows.items;
      sent = known_sent (length (rows_of s.rows.items)) (gathered_in (known s.pass));
    } };

    ghost invariant = { λ s. (s.pass.me.1 ≡ []) × IsTaker (rows_of s.rows.items) (known s.pass) };
}

/// What was taken of each sender.
#[derive(Drop)]
pub struct Taken {
    pass: End,
    rows: Vec<Row>,
}

impl Model for Taken {
    ghost use Rattle.std.specs.Prelude.{length};
    ghost use Rattle.crossbeam_queue.specs.Passes.{view as known};
    ghost use Rattle.rt_mail.specs.mail_post.Rule.{gathered_in};
    ghost use Rattle.rt_mail.specs.mail_post.NumberRows.{rows_of};
    ghost use Rattle.rt_mail.specs.mail_post.PostStates.{TakenState, IsTakenState, all_sent};

    ghost Value = { TakenState };

    ghost view = { λ s. record {
      taken = rows_of s.rows.items;
      sent = all_sent (length (rows_of s.rows.items)) (gathered_in (known s.pass));
    } };

    ghost invariant = { λ s. IsTakenState (rows_of s.rows.items)
        (all_sent (length (rows_of s.rows.items)) (gathered_in (known s.pass))) };
}

// Pushes a letter; where the queue is full it tries again.
fn push_letter<R: Wait>(rt: &R, line: &Line, pass: &mut End, letter: Letter)
    requires line { IsPassOf line.now pass.old }
    requires sends { view pass.old ≡ Sending letter.thread (sent_in (view pass.old)) }
    ensures line { IsSamePass pass.old pass.new }
    ensures sent { view pass.new
        ≡ Sending letter.thread (sent_in (view pass.old) ++ letter.number ∷ []) }
{
    for _ in rt.forever() {
        if line.push_as::<Sends, R>(rt, pass, letter).is_ok() {
            return;
        }
        thread::yield_now();
    }
    unreachable!()
}

// Takes a letter. Where there is none, what was taken of each sender that was gathered is what it
// sent.
fn pop_letter<R: Wait>(rt: &R, line: &Line, pass: &mut End) -> Option<Letter>
    requires line { IsPassOf line.now pass.old }
    requires takes { IsTaking (view pass.old) }
    ensures line { IsSamePass pass.old pass.new }
    ensures some { IfSome result (λ x.
        (view pass.new ≡ Taking (senders_in (view pass.old)) (letters_in (view pass.old) ++ x ∷ [])
        (gathered_in (view pass.old)))
        × (x.thread < senders_in (view pass.old))) }
    ensures none { result ≡ None → (view pass.new ≡ view pass.old) × Tells (view pass.old) [] }
{
    line.pop_as::<Takes, R>(rt, pass)
}

// What was taken of each sender that was gathered begins what it sent.
fn learn_fronts(line: &Line, pass: &mut End)
    requires line { IsPassOf line.now pass.old }
    requires takes { IsTaking (view pass.old) }
    ensures line { IsSamePass pass.old pass.new }
    ensures same { view pass.new ≡ view pass.old }
    ensures fronts { (items : List Letter) × Tells (view pass.old) items }
{
    line.learn_as::<Takes>(pass);
}

// One sender more.
fn next_end(line: &Line, pass: &mut End, thread: u32) -> End
    requires line { IsPassOf line.now pass.old }
    requires first { view pass.old ≡ Taking thread [] [] }
    ensures line { IsSamePass pass.old pass.new × IsPassOf line.now result }
    ensures views { (view pass.new ≡ Taking (thread + 1) [] [])
        × (view result ≡ Sending thread []) }
{
    line.another::<Roles>(pass)
}

// Takes in the end of a sender.
fn take_in(line: &Line, pass: &mut End, sender: Sender)
    requires line { IsPassOf line.now pass.old × (sender.post ≡ pass.old.table_id) }
    requires takes { IsTaking (view pass.old) }
    ensures line { IsSamePass pass.old pass.new }
    ensures view { view pass.new ≡ Taking (senders_in (view pass.old)) (letters_in (view pass.old))
        (gathered_in (view pass.old) ++ whole_of sender ∷ []) }
{
    let Sender {
        pass: theirs,
        thread: _,
    } = sender;
    line.absorb::<Roles>(pass, theirs);
}

impl Post {
    /// A post with so many senders, 1 or 2, and its ends. The queue has room for so many letters,
    /// at least 1.
    pub fn new(
        alloc: Global,
        senders: u32,
        room: usize,
    ) -> Result<(Post, Vec<Sender>, Taker), OutOfMemory>
        requires senders { (1 ≤ senders) × (senders ≤ 2) }
        requires room { 1 ≤ room }
        ensures post { IfOk result (λ r. r.0.senders ≡ senders) }
        ensures room { IfOk result (λ r. r.0.room ≡ room) }
        ensures senders { IfOk result (λ r. r.1.items ≡ fresh_senders r.0.id senders) }
        ensures taker { IfOk result (λ r. r.2 ≡ fresh_taker r.0.id senders) }
    {
        let (line, mut pass) = Line::ruled(alloc, room)?;
        let mut rows = Vec::new(alloc);
        let mut ends = Vec::new(alloc);
        for thread in 0..senders {
            let end = next_end(&line, &mut pass, thread);
            ends.push(Sender { pass: end, thread })?;
            let numbers = Vec::new(alloc);
            rows.push(Row::new(numbers))?;
        }
        Ok((Post { line, senders }, ends, Taker { pass, rows }))
    }

    /// Sends a number. Where the queue is full it waits. The sender is of this post.
    pub fn send<R: Wait>(&self, rt: &R, who: &mut Sender, number: u64)
        requires { who.old.post ≡ self.now.id }
        ensures post { who.new.post ≡ who.old.post }
        ensures thread { who.new.thread ≡ who.old.thread }
        ensures sent { who.new.sent ≡ who.old.sent ++ number ∷ [] }
    {
        let thread = who.thread;
        push_letter(rt, &self.line, &mut who.pass, Letter { thread, number });
    }

    /// Takes one letter. With `None` nothing was taken, and once the senders were gathered, it
    /// comes only where all was taken. Where memory runs out nothing was taken. The taker is of
    /// this post.
    pub fn take<R: Wait>(&self, rt: &R, who: &mut Taker) -> Result<Option<Letter>, OutOfMemory>
        requires { who.old.post ≡ self.now.id }
        ensures post { who.new.post ≡ who.old.post }
        ensures sent { who.new.sent ≡ who.old.sent }
        ensures some { IfOk result (λ r. IfSome r (λ x. (x.thread < length who.old.taken)
            × (who.new.taken ≡ took who.old.taken x.thread x.number))) }
        ensures none { result ≡ Ok None → (who.new.taken ≡ who.old.taken)
            × IfSome who.old.sent (λ all. who.old.taken ≡ all) }
        ensures unchanged { OnErr result (who.new ≡ who.old) }
    {
        make_room(&mut who.rows)?;
        let Some(letter) = pop_letter(rt, &self.line, &mut who.pass) else {
            return Ok(None);
        };
        put_in(&mut who.rows, letter.thread, letter.number);
        Ok(Some(letter))
    }

    /// Takes the senders in; nothing is sent afterwards. The taker and the senders are of this
    /// post, and they are all of its senders, each once, in any order.
    pub fn gather<R: Wait>(&self, _rt: &R, who: &mut Taker, senders: Vec<Sender>)
        requires post { (who.old.post ≡ self.now.id) × OfPost self.now.id senders.items }
        requires all { AreAll (length who.old.taken) senders.items }
        ensures post { who.new.post ≡ who.old.post }
        ensures taken { who.new.taken ≡ who.old.taken }
        ensures gathered { IsSome who.new.sent }
        ensures sent { who.old.sent ≡ None → who.new.sent
            ≡ Some (all_sent (length who.old.taken) (map whole_of senders.items)) }
    {
        take_all_in(&self.line, &mut who.pass, senders);
    }

    /// Ends the post. The taker is of this post and has gathered its senders.
    pub fn close(self, who: Taker) -> Taken
        requires post { who.post ≡ self.id }
        requires gathered { IsSome who.sent }
        ensures taken { result.taken ≡ who.taken }
        ensures sent { Some result.sent ≡ who.sent }
    {
        let Taker { mut pass, rows } = who;
        learn_fronts(&self.line, &mut pass);
        Taken { pass, rows }
    }
}

impl Taken {
    /// What was taken of a sender, which is a front of what it sent.
    pub fn numbers(&self, t: u32) -> &[u64]
        requires { t < length self.now.taken }
        ensures value { result.now ≡ slice_index_or self.now.taken t [] }
        ensures front { Begins (slice_index_or self.now.taken t [])
            (slice_index_or self.now.sent t []) }
    {
        self.rows[t as usize].numbers()
    }
}

// Takes in the ends of the senders.
fn take_all_in(line: &Line, pass: &mut End, senders: Vec<Sender>)
    requires line { IsPassOf line.now pass.old × OfPost pass.old.table_id senders.items }
    requires takes { IsTaking (view pass.old) }
    ensures line { IsSamePass pass.old pass.new }
    ensures view { view pass.new ≡ Taking (senders_in (view pass.old)) (letters_in (view pass.old))
        (gathered_in (view pass.old) ++ map whole_of senders.items) }
{
    for sender in senders {
        take_in(line, pass, sender);
    }
}
