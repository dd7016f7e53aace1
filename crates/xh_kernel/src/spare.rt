//! Accounts that are no process's, and the processes that these start.
ghost use Rattle.std.specs.Prelude.{◌≡◌, ◌≢◌, ℕ, All, IfOk, MatchResult, Ok, Result, length, vec_len};
ghost use Rattle.xh_core.specs.declared.refused.Refused.{Refused};
ghost use Rattle.xh_kernel.specs.Accounts.{AreFresh, fresh};
ghost use Rattle.xh_kernel.specs.Endings.{Exits};
ghost use Rattle.xh_kernel.specs.Waits.{AskedAll, SpawnsAt};
ghost use Rattle.xh_model.specs.declared.limits.TheConstants.{MAX_BUDGET, PLACES};

use crate::account::Account;
use crate::kernel::Kernel;
use std::alloc::{AllocError, Global};
use std::marker::PhantomData;
use std::sync::Wait;
use xh_calls::Names;
use xh_model::limits::MAX_BUDGET;
use xh_place::OpenGate;

/// An account that is no process's: it is new, or its process has ended. Its one call is a start, since nothing else reaches
/// the account.
#[derive(Drop)]
pub struct Spare<'k, N: Names> {
    account: &'k mut Account<N>,
}

/// A process that a spare started, and by which worker. It can't be dropped: `exit` alone takes it, and makes the spare again.
pub struct Started<N: Names> {
    number: u16,
    worker: u8,
    of: PhantomData<N>,
}

impl<'k, N: Names> Spare<'k, N> {
    /// Those of the accounts of a kernel by which no call was made yet.
    pub fn all(
        alloc: Global,
        accounts: &'k mut [Account<N>],
    ) -> Result<Vec<Spare<'k, N>>, AllocError>
        requires { AreFresh N.parts accounts.old }
        ensures count { IfOk result (λ v. vec_len v ≡ length accounts.old) }
        ensures fresh { IfOk result (λ v. All (λ s. (k : ℕ) × (s.account.now ≡ fresh N.parts k)) v.items) }
    {
        let mut spares = Vec::with_capacity(alloc, accounts.len())?;
        let left = accounts.iter_mut();
        for account in left {
            spares.push(Spare { account })?;
        }
        Ok(spares)
    }

    /// A process starts, as by `Kernel::spawn`, and has the account. Where there is no place for it, it is a spare still.
    pub fn start<R: Wait>(
        self,
        rt: &R,
        kernel: &Kernel<N>,
    ) -> Result<(Started<N>, &'k mut Account<N>), Spare<'k, N>>
        ensures { MatchResult result
            (λ s. SpawnsAt N.parts N.leads self.entry.account.now s.1.now (Ok s.0.number) × (s.0.worker ≡ s.1.now.number))
            (λ s. AskedAll N.parts N.leads PLACES self.entry.account.now s.account.now) }
    {
        let Spare { account } = self;
        match kernel.spawn(rt, account, &OpenGate) {
            Ok(number) => {
                let worker = account.number();
                let of = PhantomData;
                Ok((Started { number, worker, of }, account))
            }
            Err(_no_place) => Err(Spare { account }),
        }
    }
}

impl<N: Names> Started<N> {
    /// The process's number.
    pub fn number(&self) -> u16
        ensures { result ≡ self.now.number }
    {
        self.number
    }

    /// The process ends, as by `Kernel::exit`, where it didn't before, and the account is a spare again. An account by which
    /// the process wasn't started is none: it comes back.
    pub fn exit<'k, R: Wait>(
        self,
        rt: &R,
        kernel: &Kernel<N>,
        account: &'k mut Account<N>,
    ) -> Result<Spare<'k, N>, &'k mut Account<N>>
        ensures { (told : Result ℕ Refused) × MatchResult result
            (λ s. (account.old.number ≡ self.worker) × Exits N.leads self.number MAX_BUDGET account.old s.account.now told)
            (λ a. (account.old.number ≢ self.worker) × Exits N.leads self.number MAX_BUDGET account.old a.now told) }
    {
        let Started {
            number,
            worker,
            of: _,
        } = self;
        let is_own = account.number() == worker;
        let _bytes = kernel.exit(rt, number, MAX_BUDGET, account, &OpenGate);
        if is_own {
            Ok(Spare { account })
        } else {
            Err(account)
        }
    }
}
