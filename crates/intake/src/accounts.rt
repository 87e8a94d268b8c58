//! What became of all jobs.

ghost use Rattle.std.specs.Prelude.{◌≡◌, ◌<◌, ◌≤◌, ◌↔◌, ◌^◌, ◌++◌, ◌∷◌, [], length, IsTrue};
ghost use Rattle.intake.specs.Books.{acknowledged, refused};

use crate::account::Account;
use read_side::{CountedLog, EmptyLog};
use std::marker::Model;

/// The greatest number of accounts.
const MAX_ACCOUNTS: u64 = 1 << 62;

/// An account of each job that a clerk took, in the order taken.
///
/// Contracts see all of them. Only the number of accounts and of acknowledged jobs are stored, so that they need no
/// more memory as jobs come. There are at most 2^62.
#[derive(Drop)]
pub struct Accounts {
    log: CountedLog<Account>,
    acknowledged: u64,
}

impl Model for Accounts {
    ghost use Rattle.std.specs.Prelude.{◌≡◌, ◌≤◌, ◌^◌, List, length};
    ghost use Rattle.intake.specs.declared.account.Account.{Account};
    ghost use Rattle.intake.specs.Books.{acknowledged as acknowledged_of};

    ghost Value = { List Account };

    ghost view = { λ a. a.log.items };

    ghost invariant = { λ a. (length a.log.items ≤ 2 ^ 62)
        × (a.acknowledged ≡ acknowledged_of a.log.items) };
}

impl Accounts {
    /// Makes an empty list.
    pub(crate) fn new() -> Accounts
        ensures { result ≡ [] }
    {
        Accounts {
            log: CountedLog::new(EmptyLog::new()),
            acknowledged: 0,
        }
    }

    /// Returns the number of accounts.
    pub fn count(&self) -> u64
        ensures { result ≡ length self.now }
    {
        self.log.len()
    }

    /// Returns the number of acknowledged jobs.
    pub fn acknowledged(&self) -> u64
        ensures { result ≡ acknowledged self.now }
    {
        self.acknowledged
    }

    /// Returns the number of refused jobs.
    #[tactic(auto, using(crate::proofs::ClerkAccounts::both_counted))]
    pub fn refused(&self) -> u64
        ensures { result ≡ refused self.now }
    {
        self.count() - self.acknowledged
    }

    /// Returns whether there is no room for another account.
    pub fn is_full(&self) -> bool
        ensures { IsTrue result ↔ (2 ^ 62 ≤ length self.now) }
    {
        self.count() >= MAX_ACCOUNTS
    }

    /// Appends an account. Allocates nothing.
    #[tactic(auto, using(crate::proofs::ClerkAccounts::both_counted))]
    pub(crate) fn add(&mut self, account: &Account)
        requires { length self.old < 2 ^ 62 }
        ensures { self.new ≡ self.old ++ account.now ∷ [] }
    {
        self.log.add(account);
        if account.answer.is_ok() {
            self.acknowledged += 1;
        }
    }
}
