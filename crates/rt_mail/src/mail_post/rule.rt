//! The rule of the queue, and what its steps tell. No value of these types is made.

use crate::mail_post::views::{Letter, View};
use crossbeam_queue::protocol::{Join, Lesson, Outcome, Protocol, Split};
use crossbeam_queue::{Pass, RuledArrayQueue};

/// What was taken of a sender and what is in the queue is what it sent.
pub(crate) struct InOrder;

impl Protocol<Letter, View> for InOrder {
    ghost use Rattle.std.specs.Prelude.{[]};
    ghost use Rattle.rt_mail.specs.declared.mail_post.views.View.TheVariants.{Taking};
    ghost use Rattle.rt_mail.specs.mail_post.Rule.{Delivers};

    ghost holds = { Delivers };

    ghost first = { Taking 0 [] [] };
}

/// The taker makes the next sender, and gathers one.
pub(crate) struct Roles;

impl Split<View> for Roles {
    ghost use Rattle.rt_mail.specs.mail_post.Rule.{with_sender, next_sender};

    ghost left = { with_sender };

    ghost right = { next_sender };
}

impl Join<View> for Roles {
    ghost use Rattle.rt_mail.specs.declared.mail_post.views.View.TheVariants.{Spent};
    ghost use Rattle.rt_mail.specs.mail_post.Rule.{gathering};

    ghost both = { gathering };

    ghost spent = { Spent };
}

/// A letter was sent.
pub(crate) struct Sends;

impl Outcome<Letter, View> for Sends {
    ghost use Rattle.std.specs.Prelude.{◌≡◌};
    ghost use Rattle.rt_mail.specs.mail_post.Rule.{sending_more};

    ghost then = { λ v x w. w ≡ sending_more v x };
}

impl Lesson<Letter, View> for Sends {
    ghost use Rattle.std.specs.Prelude.{⊤};

    ghost fact = { λ v items. ⊤ };
}

/// A letter was taken, of one of the senders.
pub(crate) struct Takes;

impl Outcome<Letter, View> for Takes {
    ghost use Rattle.std.specs.Prelude.{◌≡◌, ◌<◌};
    ghost use Rattle.rt_mail.specs.mail_post.Rule.{taking_more, senders_in};

    ghost then = { λ v x w. (w ≡ taking_more v x) × (x.thread < senders_in v) };
}

impl Lesson<Letter, View> for Takes {
    ghost use Rattle.rt_mail.specs.mail_post.Rule.{Tells};

    ghost fact = { Tells };
}

pub(crate) type Line = RuledArrayQueue<Letter, View, InOrder>;

pub(crate) type End = Pass<Letter, View>;
