//! A thread's account over two cycles.

use std::marker::Model;
use work_account::Account;

/// An account at the rate 2, of objects of at most three blocks.
#[derive(Drop)]
struct Small {
    account: Account,
}

impl Model for Small {
    ghost use Rattle.std.specs.Prelude.{◌≡◌};
    ghost use Rattle.work_account.specs.Accounts.{AccountState};

    ghost Value = { AccountState };

    ghost view = { λ s. s.account };

    ghost invariant = { λ s. (s.account.rate ≡ 2) × (s.account.object ≡ 3) };
}

/// What happens to an account.
#[derive(Clone, Copy, Debug)]
enum Step {
    Enter(u64),
    Unit,
    Idle,
    Publish(u32),
    Refuse(u32),
}

impl Small {
    fn new() -> Small {
        Small {
            account: Account::new(2, 3),
        }
    }

    /// Takes a step, if it may be taken.
    fn take(&mut self, step: Step) -> bool {
        match step {
            Step::Enter(cycle) => self.enter(cycle),
            Step::Unit => self.unit(),
            Step::Idle => self.idle(),
            Step::Publish(blocks) => self.publish(blocks),
            Step::Refuse(blocks) => self.refuse(blocks),
        }
    }

    fn enter(&mut self, cycle: u64) -> bool {
        if self.account.cycle() > cycle {
            return false;
        }
        self.account.enter(cycle);
        true
    }

    fn unit(&mut self) -> bool {
        if self.account.paid() >= 6 || self.account.units() >= 1 << 50 {
            return false;
        }
        self.account.unit();
        true
    }

    fn idle(&mut self) -> bool {
        if self.account.units() >= 1 << 50 {
            return false;
        }
        self.account.idle();
        true
    }

    fn publish(&mut self, blocks: u32) -> bool {
        if self.account.paid() != 2 * u64::from(blocks) {
            return false;
        }
        self.account.publish(blocks);
        true
    }

    fn refuse(&mut self, blocks: u32) -> bool {
        if self.account.paid() != 2 * u64::from(blocks) {
            return false;
        }
        self.account.refuse(blocks);
        true
    }

    /// What the readers answer: paid, cycle, units, given.
    fn readings(&self) -> (u64, u64, u64, u64) {
        let a = &self.account;
        (a.paid(), a.cycle(), a.units(), a.given())
    }
}

/// Steps, each with what the readers answer after it.
const STEPS: [(Step, (u64, u64, u64, u64)); 17] = [
    (Step::Enter(1), (0, 1, 0, 0)),
    (Step::Unit, (1, 1, 1, 0)),
    (Step::Unit, (2, 1, 2, 0)),
    (Step::Publish(1), (0, 1, 2, 1)),
    (Step::Unit, (1, 1, 3, 1)),
    (Step::Enter(1), (1, 1, 3, 1)),
    (Step::Enter(2), (1, 2, 0, 0)),
    (Step::Unit, (2, 2, 1, 0)),
    (Step::Unit, (3, 2, 2, 0)),
    (Step::Unit, (4, 2, 3, 0)),
    (Step::Refuse(2), (0, 2, 3, 0)),
    (Step::Idle, (0, 2, 4, 0)),
    (Step::Idle, (0, 2, 5, 0)),
    (Step::Unit, (1, 2, 6, 0)),
    (Step::Idle, (1, 2, 7, 0)),
    (Step::Unit, (2, 2, 8, 0)),
    (Step::Publish(1), (0, 2, 8, 1)),
];

#[test]
fn two_cycles(rt: HostRuntime) {
    let mut account = Small::new();
    assert_eq!(rt; account.readings(), (0, 1, 0, 0));
    for (number, (step, wanted)) in STEPS.iter().enumerate() {
        assert!(rt; account.take(*step), "step {number}");
        assert_eq!(rt; account.readings(), *wanted, "step {number}");
    }
}
