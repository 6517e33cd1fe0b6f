//! Posts of a CPU: a call is queued by one of its records, or refused (`kernel/smp.c: generic_exec_single`).

ghost use Rattle.std.specs.Prelude.{◌≡◌, ◌≢◌, ◌+◌, ◌≤◌, IfOk, IfErr};
ghost use Rattle.smp_queue.specs.Posted.{ShowsThat, IsFree, IsMarked, call_by};
ghost use Rattle.smp_queue.specs.Cpu.{PostAnswers, BeginAnswers};

use super::CallTable;
use crate::cpu::CallCpu;
use crate::post::{Sender, append, append_until_won, is_locked, write_record};
use smp_call_steps::post::Posting;
use smp_call_steps::start::refusal;
use smp_mask::SmpError;
use smp_words::call::Class;
use smp_words::command::Command;
use smp_words::size::record_of;
use std::alloc::Allocator;
use std::sync::Wait;

/// What a post is asked for: the record and the CPU that it goes to, its call, and how many compare-exchanges it may make.
#[derive(Clone, Copy)]
struct Asked {
    k: u32,
    to: u32,
    class: Class,
    func: u16,
    info: u64,
    tries: u32,
}

impl<A: Allocator> CallTable<A> {
    /// The refusals of a post that come before its record is written, and else the call that it queues: E4, E2
    /// and E1, in this order. Where LOCK is clear, the record is confirmed.
    fn begin_post(&self, me: &mut CallCpu, asked: Asked) -> Result<Posting, SmpError>
        requires { me.old.table ≡ self.now.table }
        ensures { BeginAnswers self.now me.old me.new asked.k asked.to asked.class asked.func asked.info asked.tries result }
    {
        let Asked {
            k,
            to,
            class,
            func,
            info,
            tries,
        } = asked;
        let command = Command::Post(k, to, class, func, info, tries);
        if let Some(error) = refusal(&command, self.nr, self.online, me.number) {
            return Err(error);
        }
        let id = record_of(me.number, k);
        if is_locked(self.owner.words(), &mut me.seat, id) {
            return Err(SmpError::Busy);
        }
        if !self.online.contains(to) {
            return Err(SmpError::NoCpu);
        }
        Ok(Posting {
            id,
            to,
            is_online: true,
            class,
            func,
            info,
            tries: 0,
        })
    }

    /// Queues one call by the CPU's record `k`, and answers whether an interrupt is owed, since the queue was
    /// empty; queued at the compare-exchange (`kernel/smp.c: generic_exec_single`). `tries` counts
    /// compare-exchanges, each of which expects the number that was found in the head last.
    ///
    /// Refusals, in this order:
    /// - E4 (`SmpError::BadArgument`) where `k` is no record, `tries` is 0, `to` is this CPU itself, or the record may not
    ///   carry such a call.
    /// - E2 (`SmpError::Busy`) where the record is locked.
    /// - E1 (`SmpError::NoCpu`) where `to` is not online.
    /// - E5 (`SmpError::Contended`) where the tries are used up. Then nothing is queued, and the record is free again.
    ///
    /// The call is queued at the compare-exchange that wins; it makes no more than `tries` of these and does not wait,
    /// and `to` must poll for the call to run.
    pub fn post_within(
        &self,
        me: &mut CallCpu,
        k: u32,
        to: u32,
        class: Class,
        func: u16,
        info: u64,
        tries: u32,
    ) -> Result<bool, SmpError>
        requires { me.old.table ≡ self.now.table }
        ensures answers { PostAnswers self.now me.old me.new k to class func info tries result }
        ensures marked { IfOk result (λ first. ShowsThat me.new (IsMarked me.old to (call_by me.old k class func info) first)) }
        ensures free { IfErr result (λ e. e ≡ SmpError.Contended → ShowsThat me.new (IsFree me.new k)) }
        ensures within { IfOk result (λ _. me.new.tried ≤ me.old.tried + tries) }
    {
        let asked = Asked {
            k,
            to,
            class,
            func,
            info,
            tries,
        };
        let posting = self.begin_post(me, asked)?;
        write_record(self.owner.words(), &mut me.seat, &posting);
        let queued = me.queued[to as usize];
        let words = self.owner.words();
        let number = me.number;
        let sender = Sender { number, queued };
        match append(words, &mut me.seat, &posting, sender, tries) {
            Some(first) => {
                me.queued[to as usize] = queued.wrapping_add(1);
                Ok(first)
            }
            None => Err(SmpError::Contended),
        }
    }

    /// As `post_within`, but tries until its call is queued: it never answers E5 (`SmpError::Contended`). It pauses between two tries.
    ///
    /// The call is queued at the compare-exchange that wins; it may wait, but only while other CPUs change the same head
    /// before each of its tries, for which nobody must poll, and `to` must poll for the call to run.
    pub fn post<R: Wait>(
        &self,
        rt: &R,
        me: &mut CallCpu,
        k: u32,
        to: u32,
        class: Class,
        func: u16,
        info: u64,
    ) -> Result<bool, SmpError>
        requires { me.old.table ≡ self.now.table }
        ensures answers { PostAnswers self.now me.old me.new k to class func info 1 result }
        ensures marked { IfOk result (λ first. ShowsThat me.new (IsMarked me.old to (call_by me.old k class func info) first)) }
        ensures queued { IfErr result (λ e. e ≢ SmpError.Contended) }
    {
        let asked = Asked {
            k,
            to,
            class,
            func,
            info,
            tries: 1,
        };
        let posting = self.begin_post(me, asked)?;
        write_record(self.owner.words(), &mut me.seat, &posting);
        let queued = me.queued[to as usize];
        let words = self.owner.words();
        let number = me.number;
        let sender = Sender { number, queued };
        let first = append_until_won(rt, words, &mut me.seat, &posting, sender);
        me.queued[to as usize] = queued.wrapping_add(1);
        Ok(first)
    }
}
