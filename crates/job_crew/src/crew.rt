//! Four or five jobs at once, each in a thread of its own, or none of them.
//!
//! A job is begun only once all have their threads: each thread first waits for one word, which says whether all are
//! there. The word is said once, so all hear the same.

ghost use Rattle.std.specs.Prelude.{◌≡◌, ◌+◌, ◌<◌, true, false, Ok, Err, None, Some, IfErr, IfOk, IfSome, IsSome};
ghost use Rattle.std.specs.Option.{ForSome};
ghost use Rattle.std.specs.Result.{ForErr, ForOk};
ghost use Rattle.job_crew.specs.Crews.{Both, Comes, DidSome};
ghost use Rattle.job_crew.specs.declared.crew.OneOf.TheVariants.{First, Second, Third, Fourth, Fifth};
ghost use Rattle.job_crew.specs.Kinds.{IfOneOf, IfBothOneOf, AreSorted};

use std::marker::Brand;
use std::snapshot::Snapshot;
use std::sync::ledger::{Blank, Book, Ledger, Share, Total};
use std::sync::{OnceLock, OnceToken, Wait};
use std::thread;
use std::thread::{Promise, PromisedHandle, Scope, Threads};

/// A part of the work that is done once.
pub trait Job: Send + Drop {
    type Done: Send + Drop;

    /// What has to hold before it.
    ghost asks: { Self → Type 0 };

    /// What holds of that which it made.
    ghost did: { Self → Self.Done → Type 0 };

    fn run(self) -> Self::Done
        requires { asks self }
        ensures { did self result };
}

/// A job that may not be there: then nothing is done.
impl<J: Job> Job for Option<J> {
    type Done = Option<J::Done>;

    ghost asks = { λ job. IfSome job J.asks };

    ghost did = { λ job done. DidSome J J.Done J.did job done };

    fn run(self) -> Option<J::Done> {
        match self {
            Some(job) => Some(job.run()),
            None => None,
        }
    }
}

/// A job of one of five kinds, or what one of that kind made. So all that begins jobs is for one type of job.
#[derive(Drop)]
enum OneOf<A, B, C, D, E> {
    First(A),
    Second(B),
    Third(C),
    Fourth(D),
    Fifth(E),
}

impl<A: Job, B: Job, C: Job, D: Job, E: Job> Job for OneOf<A, B, C, D, E> {
    type Done = OneOf<A::Done, B::Done, C::Done, D::Done, E::Done>;

    ghost asks = { λ job. IfOneOf job A.asks B.asks C.asks D.asks E.asks };

    ghost did = { λ job done. IfBothOneOf job done A.did B.did C.did D.did E.did };

    fn run(self) -> OneOf<A::Done, B::Done, C::Done, D::Done, E::Done> {
        match self {
            OneOf::First(job) => OneOf::First(job.run()),
            OneOf::Second(job) => OneOf::Second(job.run()),
            OneOf::Third(job) => OneOf::Third(job.run()),
            OneOf::Fourth(job) => OneOf::Fourth(job.run()),
            OneOf::Fifth(job) => OneOf::Fifth(job.run()),
        }
    }
}

/// The word that all wait for. It has the sum of the ledger where the jobs are to be begun, which is one: who says the
/// word has written that there once all threads were there.
#[derive(Drop)]
struct Word<L: Ledger> {
    sum: Option<Total<L>>,
    ghost one_part: { ForSome sum (λ sum. sum.parts ≡ 1) },
    ghost all_there: { ForSome sum (λ sum. sum.amount ≡ 1) },
}

/// The word that a job heard, and what it made; or the job itself, where the word was that none begins.
#[derive(Drop)]
struct Reply<'a, L: Ledger, D, J> {
    word: OnceToken<'a, Word<L>>,
    outcome: Result<D, J>,
    ghost done: { ForOk outcome (λ _. IsSome word.value.sum) },
    ghost back: { ForErr outcome (λ _. word.value.sum ≡ None) },
}

/// What a thread is asked: to wait for the word in this lock, and then to do this job, or to hand it back.
#[derive(Drop)]
struct Asked<'a, L: Ledger, J: Job> {
    lock: &'a OnceLock<Word<L>>,
    job: Snapshot<J>,
}

impl<'a, L: Ledger, J: Job> Promise<Reply<'a, L, J::Done, J>> for Asked<'a, L, J> {
    ghost kept_by = { λ p r. (r.word.of ≡ p.lock.now.id) × Comes J J.Done J.did p.job.value r.outcome };
}

/// What a thread was asked for: its hand, or its job where none could be had or none was wanted; and whether all that
/// was wanted is there.
struct Place<'a, L: Ledger, J: Job> {
    hand: Result<PromisedHandle<Reply<'a, L, J::Done, J>, Asked<'a, L, J>>, J>,
    asked: Asked<'a, L, J>,
    there: bool,
    ghost same_asked: { ForOk hand (λ handle. (handle.promise.job.value ≡ asked.job.value)
        × (handle.promise.lock.now.id ≡ asked.lock.now.id)) },
    ghost same_job: { ForErr hand (λ back. back ≡ asked.job.value) },
}

fn ask<'a, L: Ledger, J: Job>(lock: &'a OnceLock<Word<L>>, job: &J) -> Asked<'a, L, J>
    ensures lock { result.lock.now.id ≡ lock.now.id }
    ensures job { result.job.value ≡ job.now }
{
    let job = Snapshot::of(job);
    Asked { lock, job }
}

/// Waits until the word is said.
fn hear<'a, R: Wait, L: Ledger>(rt: &R, lock: &'a OnceLock<Word<L>>) -> OnceToken<'a, Word<L>>
    ensures { result.of ≡ lock.now.id }
{
    for _ in rt.forever() {
        lock.wait(rt);
        if let Some(word) = lock.witness() {
            return word;
        }
    }
    unreachable!()
}

/// Waits for the word, and then does a job, or hands it back.
fn stand_by<'a, R: Wait, L: Ledger, J: Job>(
    rt: &R,
    lock: &'a OnceLock<Word<L>>,
    job: J,
) -> Reply<'a, L, J::Done, J>
    requires { J.asks job }
    ensures word { result.word.of ≡ lock.now.id }
    ensures comes { Comes J J.Done J.did job result.outcome }
{
    let word = hear(rt, lock);
    if lock.value(&word).sum.is_some() {
        let outcome = Ok(job.run());
        Reply { word, outcome }
    } else {
        let outcome = Err(job);
        Reply { word, outcome }
    }
}

/// Says the word, unless it was said.
fn say<'a, R: Wait, L: Ledger>(
    rt: &R,
    lock: &'a OnceLock<Word<L>>,
    word: Word<L>,
) -> OnceToken<'a, Word<L>>
    ensures { result.of ≡ lock.now.id }
{
    match lock.try_insert(rt, word) {
        Ok(said) => said,
        Err((said, _)) => said,
    }
}

/// The word that the jobs are to be begun, where all are there.
fn close<L: Ledger>(book: Book<L>, share: &mut Share<L>, all: bool) -> Word<L>
    requires total { book.total ≡ 0 }
    requires parts { (L.parts ≡ 1) × (share.old.parts ≡ 1) }
    requires amount { share.old.amount ≡ 0 }
    ensures parts { share.new.parts ≡ 1 }
    ensures amount { share.new.amount ≡ 1 → all ≡ true }
{
    let mut book = book;
    if !all {
        return Word { sum: None };
    }
    book.add(share, 1);
    Word {
        sum: Some(book.close()),
    }
}

/// Whether the jobs are begun: only where all are there.
fn begins<L: Ledger>(word: &Word<L>, share: &mut Share<L>) -> bool
    requires parts { share.old.parts ≡ 1 }
    ensures word { result ≡ false → word.now.sum ≡ None }
    ensures there { result ≡ true → share.old.amount ≡ 1 }
    ensures same { (share.new.parts ≡ share.old.parts) × (share.new.amount ≡ share.old.amount) }
{
    match &word.sum {
        Some(sum) => {
            sum.audit(share);
            true
        }
        None => false,
    }
}

/// Says that none of the jobs is begun. Nobody has said that they are, since the ledger holds nothing yet.
fn call_off<'a, R: Wait, L: Ledger>(
    rt: &R,
    lock: &'a OnceLock<Word<L>>,
    share: &mut Share<L>,
) -> OnceToken<'a, Word<L>>
    requires share { (share.old.parts ≡ 1) × (share.old.amount ≡ 0) }
    ensures lock { result.of ≡ lock.now.id }
    ensures word { result.value.sum ≡ None }
    ensures same { (share.new.parts ≡ 1) × (share.new.amount ≡ 0) }
{
    let said = say(rt, lock, Word { sum: None });
    let begins = begins(lock.value(&said), share);
    prove!(!begins);
    said
}

/// The job itself, where the word was that none begins.
fn back<'a, L: Ledger, D: Drop, J: Drop>(
    word: &OnceToken<'a, Word<L>>,
    reply: Reply<'a, L, D, J>,
) -> J
    requires same { reply.word.of ≡ word.now.of }
    requires begun { word.now.value.sum ≡ None }
    ensures { reply.entry.outcome ≡ Err result }
{
    let Reply {
        word: heard,
        outcome,
    } = reply;
    heard.agrees(word);
    match outcome {
        Ok(_) => unreachable!(),
        Err(job) => job,
    }
}

/// Asks for a thread for a job, if one is wanted. Where none can be had, none of the jobs is begun.
fn seat<'s, Env, L: Ledger + Send + Sync + 's, R: Wait + Sync + 's, J: Job + 's>(
    scope: &Scope<'s, Env>,
    rt: &'s R,
    lock: &'s OnceLock<Word<L>>,
    share: &mut Share<L>,
    wanted: bool,
    job: J,
) -> Place<'s, L, J>
    requires asks { J.asks job }
    requires share { (share.old.parts ≡ 1) × (share.old.amount ≡ 0) }
    ensures job { result.asked.job.value ≡ job }
    ensures lock { result.asked.lock.now.id ≡ lock.now.id }
    ensures same { (share.new.parts ≡ 1) × (share.new.amount ≡ 0) }
{
    let asked = ask(lock, &job);
    if !wanted {
        return Place {
            hand: Err(job),
            asked,
            there: true,
        };
    }
    let spawned = scope.spawn_with(
        ask(lock, &job),
        move ||
            requires { J.asks job }
        { stand_by(rt, lock, job) },
    );
    match spawned {
        Ok(handle) => Place {
            hand: Ok(handle),
            asked,
            there: true,
        },
        Err(refused) => {
            let said = call_off(rt, lock, share);
            let does = refused.value;
            Place {
                hand: Err(back(&said, does())),
                asked,
                there: false,
            }
        }
    }
}

/// Waits for the end of a thread. A job for which there is none is done here, if the jobs are begun.
fn settle<'a, R: Threads + Wait, L: Ledger, J: Job>(
    rt: &R,
    place: Place<'a, L, J>,
) -> Reply<'a, L, J::Done, J>
    requires asks { J.asks place.asked.job.value }
    ensures word { result.word.of ≡ place.entry.asked.lock.now.id }
    ensures comes { Comes J J.Done J.did place.entry.asked.job.value result.outcome }
{
    let Place {
        hand,
        asked,
        there: _,
    } = place;
    match hand {
        Ok(handle) => handle.join(rt),
        Err(job) => stand_by(rt, asked.lock, job),
    }
}

/// What a job and those beside it made, or all of them as they were: all have heard the same word.
fn together<'a, L: Ledger, D: Drop, J: Drop, M: Drop, T: Drop>(
    one: Reply<'a, L, D, J>,
    others: Reply<'a, L, M, T>,
) -> Reply<'a, L, (D, M), (J, T)>
    requires same { one.word.of ≡ others.word.of }
    ensures word { result.word.of ≡ others.entry.word.of }
    ensures done { IfOk result.outcome
        (λ made. (one.entry.outcome ≡ Ok made.0) × (others.entry.outcome ≡ Ok made.1)) }
    ensures back { IfErr result.outcome
        (λ back. (one.entry.outcome ≡ Err back.0) × (others.entry.outcome ≡ Err back.1)) }
{
    let Reply {
        word: heard,
        outcome: own,
    } = one;
    let Reply { word, outcome } = others;
    heard.agrees(&word);
    match (own, outcome) {
        (Ok(done), Ok(made)) => {
            let outcome = Ok((done, made));
            Reply { word, outcome }
        }
        (Err(job), Err(others)) => {
            let outcome = Err((job, others));
            Reply { word, outcome }
        }
        _ => unreachable!(),
    }
}

/// Five, each beside those that follow.
type Five<T> = (T, (T, (T, (T, T))));

/// Each by its kind, in the order of the kinds.
fn sorted<A: Drop, B: Drop, C: Drop, D: Drop, E: Drop>(
    five: Five<OneOf<A, B, C, D, E>>,
) -> (A, B, C, D, E)
    requires { AreSorted five }
    ensures { five ≡ (First result.0, (Second result.1, (Third result.2, (Fourth result.3, Fifth result.4)))) }
{
    let (one, (two, (three, (four, five)))) = five;
    match (one, two, three, four, five) {
        (
            OneOf::First(one),
            OneOf::Second(two),
            OneOf::Third(three),
            OneOf::Fourth(four),
            OneOf::Fifth(five),
        ) => (one, two, three, four, five),
        _ => unreachable!(),
    }
}

/// Starts a thread for each of the first three, and for the fourth if one is wanted, says the word, and waits for all.
fn begin_in<'s, Env, L: Ledger + Send + Sync + 's, R: Threads + Wait + Sync + 's, J: Job + 's>(
    scope: &Scope<'s, Env>,
    rt: &'s R,
    lock: &'s OnceLock<Word<L>>,
    book: Book<L>,
    share: Share<L>,
    jobs: Five<J>,
    wanted: bool,
) -> Result<Five<J::Done>, Five<J>>
    requires book { book.total ≡ 0 }
    requires share { (L.parts ≡ 1) × ((share.parts ≡ 1) × (share.amount ≡ 0)) }
    requires asks { J.asks jobs.0 × (J.asks jobs.1.0 × (J.asks jobs.1.1.0
        × (J.asks jobs.1.1.1.0 × J.asks jobs.1.1.1.1))) }
    ensures comes { Comes _ _ (Both J.did (Both J.did (Both J.did (Both J.did J.did)))) jobs result }
{
    let (one, (two, (three, (four, five)))) = jobs;
    let mut share = share;
    let first = seat(scope, rt, lock, &mut share, true, one);
    let second = seat(scope, rt, lock, &mut share, true, two);
    let third = seat(scope, rt, lock, &mut share, true, three);
    let fourth = seat(scope, rt, lock, &mut share, wanted, four);
    let all = first.there && second.there && third.there && fourth.there;
    say(rt, lock, close(book, &mut share, all));
    let last = stand_by(rt, lock, five);
    let last = together(settle(rt, fourth), last);
    let last = together(settle(rt, third), last);
    let last = together(settle(rt, second), last);
    together(settle(rt, first), last).outcome
}

/// The same, from a scope of its own.
fn begin_all<L: Ledger + Send + Sync, R: Threads + Wait + Sync, J: Job>(
    rt: &R,
    lock: &OnceLock<Word<L>>,
    book: Book<L>,
    share: Share<L>,
    jobs: Five<J>,
    wanted: bool,
) -> Result<Five<J::Done>, Five<J>>
    requires book { book.total ≡ 0 }
    requires share { (L.parts ≡ 1) × ((share.parts ≡ 1) × (share.amount ≡ 0)) }
    requires asks { J.asks jobs.0 × (J.asks jobs.1.0 × (J.asks jobs.1.1.0
        × (J.asks jobs.1.1.1.0 × J.asks jobs.1.1.1.1))) }
    ensures comes { Comes _ _ (Both J.did (Both J.did (Both J.did (Both J.did J.did)))) jobs result }
{
    thread::scope(
        thread::scope_env(),
        rt,
        move |scope| -> Result<Five<J::Done>, Five<J>>
            requires book { book.total ≡ 0 }
            requires share { (L.parts ≡ 1) × ((share.parts ≡ 1) × (share.amount ≡ 0)) }
            requires asks { J.asks jobs.0 × (J.asks jobs.1.0 × (J.asks jobs.1.1.0
                × (J.asks jobs.1.1.1.0 × J.asks jobs.1.1.1.1))) }
            ensures comes { Comes _ _ (Both J.did (Both J.did (Both J.did (Both J.did J.did)))) jobs result }
        { begin_in(scope, rt, lock, book, share, jobs, wanted) },
    )
}

/// The same over a ledger of one part.
fn with_ledger<L: Ledger + Send + Sync, R: Threads + Wait + Sync, J: Job>(
    rt: &R,
    blank: Blank,
    jobs: Five<J>,
    wanted: bool,
) -> Result<Five<J::Done>, Five<J>>
    requires name { blank.name ≡ L.name }
    requires parts { (blank.parts ≡ L.parts) × (L.parts ≡ 1) }
    requires asks { J.asks jobs.0 × (J.asks jobs.1.0 × (J.asks jobs.1.1.0
        × (J.asks jobs.1.1.1.0 × J.asks jobs.1.1.1.1))) }
    ensures comes { Comes _ _ (Both J.did (Both J.did (Both J.did (Both J.did J.did)))) jobs result }
{
    let (book, share) = blank.open::<L>();
    let lock = OnceLock::new();
    begin_all(rt, &lock, book, share, jobs, wanted)
}

/// Does four jobs at once, the first three in threads of their own and the last in this one. Where one of these threads
/// can't be had none of the jobs is begun, and all four are handed back as they were.
pub fn all_at_once<R: Threads + Wait + Sync, A: Job, B: Job, C: Job, D: Job>(
    rt: &R,
    one: A,
    two: B,
    three: C,
    four: D,
) -> Result<(A::Done, B::Done, C::Done, D::Done), (A, B, C, D)>
    requires asks { A.asks one × (B.asks two × (C.asks three × D.asks four)) }
    ensures did { IfOk result (λ done. A.did one done.0
        × (B.did two done.1 × (C.did three done.2 × D.did four done.3))) }
    ensures same { IfErr result (λ back. (back.0 ≡ one) × ((back.1 ≡ two) × ((back.2 ≡ three) × (back.3 ≡ four)))) }
{
    let nobody: Option<A> = None;
    let last = (OneOf::Fourth(nobody), OneOf::Fifth(four));
    let jobs = (
        OneOf::First(one),
        (OneOf::Second(two), (OneOf::Third(three), last)),
    );
    match with_ledger::<Brand, R, OneOf<A, B, C, Option<A>, D>>(rt, Blank::new(1), jobs, false) {
        Ok(done) => {
            let (one, two, three, _, four) = sorted(done);
            Ok((one, two, three, four))
        }
        Err(back) => {
            let (one, two, three, _, four) = sorted(back);
            Err((one, two, three, four))
        }
    }
}

/// The same of five jobs, the first four in threads of their own.
pub fn five_at_once<R: Threads + Wait + Sync, A: Job, B: Job, C: Job, D: Job, E: Job>(
    rt: &R,
    one: A,
    two: B,
    three: C,
    four: D,
    five: E,
) -> Result<(A::Done, B::Done, C::Done, D::Done, E::Done), (A, B, C, D, E)>
    requires asks { A.asks one × (B.asks two × (C.asks three × (D.asks four × E.asks five))) }
    ensures did { IfOk result (λ done. A.did one done.0
        × (B.did two done.1 × (C.did three done.2 × (D.did four done.3 × E.did five done.4)))) }
    ensures same { IfErr result (λ back. (back.0 ≡ one)
        × ((back.1 ≡ two) × ((back.2 ≡ three) × ((back.3 ≡ four) × (back.4 ≡ five))))) }
{
    let last = (OneOf::Fourth(four), OneOf::Fifth(five));
    let jobs = (
        OneOf::First(one),
        (OneOf::Second(two), (OneOf::Third(three), last)),
    );
    match with_ledger::<Brand, R, OneOf<A, B, C, D, E>>(rt, Blank::new(1), jobs, true) {
        Ok(done) => Ok(sorted(done)),
        Err(back) => Err(sorted(back)),
    }
}
