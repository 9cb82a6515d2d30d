//! What a thread has paid for its allocations, in units of marking and sweeping, and what it was
//! given for them.
#![tactic(auto)]

ghost use Rattle.std.specs.Prelude.{ℕ, ◌+◌, ◌*◌, ◌/◌, ◌<◌, ◌≤◌, ◌≡◌, ◌^◌};
ghost use Rattle.block_store.specs.Counts.{total};
ghost use Rattle.work_account.specs.Accounts.{AccountState, Balance, IsSound, opened, entered, with_unit, with_idle, published, refused, units_in, given_in};

use std::marker::Model;

/// What a thread has paid for the allocation in hand, and its units and the blocks that it was
/// given in the cycle that it entered last. After each call, given blocks at the rate and what is
/// paid are together at most the units and the price of one largest object.
#[derive(Drop)]
pub struct Account {
    rate: u64,
    object: u32,
    paid: u64,
    cycle: u64,
    units: u64,
    given: u64,
}

impl Model for Account {
    ghost use Rattle.std.specs.Prelude.{◌≤◌, ◌^◌};
    ghost use Rattle.work_account.specs.Accounts.{AccountState, IsSound};

    ghost Value = { AccountState };

    ghost view = { λ a. record {
      rate = a.rate;
      object = a.object;
      balance = record { paid = a.paid; cycle = a.cycle; units = a.units; given = a.given };
    } };

    ghost invariant = { λ a.
        (1 ≤ a.rate) × (a.rate ≤ 131070) × (1 ≤ a.object) × (a.object ≤ 1024)
        × (a.units ≤ 2 ^ 50)
        × IsSound a.rate a.object
        (record { paid = a.paid; cycle = a.cycle; units = a.units; given = a.given }) };
}

impl Account {
    /// An account in cycle 1, of a thread that has done nothing. The rate, from 1 to 131,070, is
    /// the price of a block in units; `object`, from 1 to 1,024, is the blocks of the largest
    /// object.
    pub fn new(rate: u64, object: u32) -> Account
        requires rate { (1 ≤ rate) × (rate ≤ 131070) }
        requires object { (1 ≤ object) × (object ≤ 1024) }
        ensures value { result ≡ record { rate = rate; object = object; balance = opened } }
        ensures sound { IsSound rate object result.balance }
    {
        Account {
            rate,
            object,
            paid: 0,
            cycle: 1,
            units: 0,
            given: 0,
        }
    }

    /// The units made for the allocation in hand: none in any other command.
    pub fn paid(&self) -> u64
        ensures { result ≡ self.now.balance.paid }
    {
        self.paid
    }

    /// The cycle that the thread entered last.
    pub fn cycle(&self) -> u64
        ensures { result ≡ self.now.balance.cycle }
    {
        self.cycle
    }

    /// The units made in that cycle.
    pub fn units(&self) -> u64
        ensures { result ≡ self.now.balance.units }
    {
        self.units
    }

    /// The blocks given in that cycle.
    pub fn given(&self) -> u64
        ensures { result ≡ self.now.balance.given }
    {
        self.given
    }

    /// The thread enters in this cycle, which is not an earlier one.
    pub fn enter(&mut self, cycle: u64)
        requires { self.old.balance.cycle ≤ cycle }
        ensures value { self.new ≡ record self.old { balance = entered cycle self.old.balance } }
        ensures sound { IsSound self.new.rate self.new.object self.new.balance }
    {
        if self.cycle < cycle {
            self.cycle = cycle;
            self.units = 0;
            self.given = 0;
        }
    }

    /// A unit was made for an allocation. No more is made for one than the price of the largest
    /// object.
    pub fn unit(&mut self)
        requires owed { self.old.balance.paid < self.old.rate * self.old.object }
        requires few { self.old.balance.units < 2 ^ 50 }
        ensures value { self.new ≡ record self.old { balance = with_unit self.old.balance } }
        ensures sound { IsSound self.new.rate self.new.object self.new.balance }
    {
        self.paid += 1;
        self.units += 1;
    }

    /// A unit was made for which nothing is given. It counts in the cycle, and what is paid stays.
    pub fn idle(&mut self)
        requires { self.old.balance.units < 2 ^ 50 }
        ensures value { self.new ≡ record self.old { balance = with_idle self.old.balance } }
        ensures sound { IsSound self.new.rate self.new.object self.new.balance }
    {
        self.units += 1; // nothing is paid
    }

    /// An object of `k` blocks, whose price was paid, was published.
    pub fn publish(&mut self, k: u32)
        requires { self.old.balance.paid ≡ self.old.rate * k }
        ensures value { self.new ≡ record self.old { balance = published k self.old.balance } }
        ensures sound { IsSound self.new.rate self.new.object self.new.balance }
    {
        self.paid = 0;
        self.given += u64::from(k);
    }

    /// An object of `k` blocks, whose price was paid, was refused.
    pub fn refuse(&mut self, k: u32)
        requires { self.old.balance.paid ≡ self.old.rate * k }
        ensures value { self.new ≡ record self.old { balance = refused self.old.balance } }
        ensures sound { IsSound self.new.rate self.new.object self.new.balance }
    {
        prove_eq!(self.paid, self.rate * u64::from(k));
        self.paid = 0;
    }
}

/// Each call makes a sound account of a sound one.
pub fn accounts_stay_sound()
    ensures opened { (rate object : ℕ) → IsSound rate object opened }
    ensures entered { (rate object c : ℕ) (a : Balance)
        → IsSound rate object a → IsSound rate object (entered c a) }
    ensures united { (rate object : ℕ) (a : Balance) → a.paid < rate * object
        → IsSound rate object a → IsSound rate object (with_unit a) }
    ensures idled { (rate object : ℕ) (a : Balance)
        → IsSound rate object a → IsSound rate object (with_idle a) }
    ensures published { (rate object k : ℕ) (a : Balance) → a.paid ≡ rate * k
        → IsSound rate object a → IsSound rate object (published k a) }
    ensures refused { (rate object : ℕ) (a : Balance)
        → IsSound rate object a → IsSound rate object (refused a) }
{}

/// Where n threads made at most `most` units in a cycle, the blocks that they were given in it and
/// the whole blocks that they have paid for are at most those that so many units pay, and one
/// largest object for each thread. A thread that has not entered in the cycle made none in it and
/// was given none.
pub fn a_cycle_gives_few_blocks()
    ensures { (n rate object c most : ℕ) (accounts : ℕ → Balance) → 0 < rate
        → ((t : ℕ) → t < n → IsSound rate object (accounts t))
        → total n (λ t. units_in c (accounts t)) ≤ most
        → total n (λ t. given_in c (accounts t)) + total n (λ t. (accounts t).paid / rate)
        ≤ most / rate + n * object }
{}
