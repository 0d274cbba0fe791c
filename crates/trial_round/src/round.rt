//! The round of a trial: its input is served, and what was published is judged.
ghost use Rattle.std.specs.Prelude.{◌≡◌, [], IfOk};
ghost use Rattle.setoff_model.specs.CutView.{WellFormed, obligations};
ghost use Rattle.setoff_model.specs.Setoff.{Proves};
ghost use Rattle.claim_history.specs.PoolRounds.{cuts_after};
ghost use Rattle.lane_runner.specs.served_lines.specs.Served.{IsServed};
ghost use Rattle.trial_round.specs.Trial.{AreSums, IsTrialSize, trial_batch, trial_cut};
ghost use Rattle.trial_round.specs.Round.{EndsWith, HasRound, HasServedAlone};
ghost use Rattle.trial_round.specs.Opening.{IsWant};

use crate::input::trial_batch;
use claim_history::{
    Act, Entry, each_pool_has_its_history, main_pool_name, publications_are_greatest,
};
use disk_model::MemoryDisk;
use lane_runner::{
    Answer, BatchEnd, Books, Desk, DeskCause, DeskRefused, Unhindered,
    cut_of_a_history_is_of_its_facts, no_line_is_full_within_the_bound, run_batch, some_device,
    some_memory,
};
use level_solver::LevelSolver;
use request_text::Batch;
use setoff_checker::{Checker, Verdict};
use setoff_model::{Cut, Outcome, weak_duality};
use std::alloc::{AllocError, Global};
use std::sync::Wait;
use std::thread::Threads;

/// What a round came to: the claims and the parties of its cut, and its total in cents.
#[derive(Clone, Copy)]
pub struct Sums {
    pub claims: u32,
    pub parties: u32,
    pub total: u64,
}

// The outcome of the publication that the entries of a pool end with.
fn last_outcome(history: &[Entry]) -> &Outcome
    requires { (outcome : _) × EndsWith history.now outcome }
    ensures { EndsWith history.now result.now }
{
    match history {
        [
            ..,
            Entry {
                act: Act::Publish { outcome, .. },
                ..
            },
        ] => outcome,
        _ => unreachable!(),
    }
}

// What the round of a cut came to, with an outcome that is proved for it. The only error is running out of memory.
fn sums_of(alloc: Global, cut: &Cut, outcome: &Outcome) -> Result<Sums, AllocError>
    requires formed { WellFormed cut.now }
    requires proved { Proves (obligations cut.now) outcome.now.discharges outcome.now.prices }
    ensures { IfOk result (λ sums. AreSums cut.now sums.claims sums.parties sums.total) }
{
    weak_duality();
    let mut checker = Checker::for_cut(alloc, cut)?;
    match checker.verdict(cut, outcome) {
        Verdict::Greatest { total } => Ok(Sums {
            claims: cut.claims().len() as u32,
            parties: cut.parties().len() as u32,
            total,
        }),
        _ => unreachable!(),
    }
}

// The error of an opening on an empty disk in memory, whose faults are refused growths.
fn opening_error(cause: DeskCause) -> AllocError
    requires { IsWant cause }
{
    match cause {
        DeskCause::Memory | DeskCause::Device { .. } => AllocError,
        DeskCause::BadHeader => unreachable!(),
        DeskCause::BadRecord { .. } => unreachable!(),
        DeskCause::BadAct { .. } => unreachable!(),
        DeskCause::Overfull { .. } => unreachable!(),
    }
}

// A desk on an empty disk in memory. The only error is running out of memory.
fn open_desk(alloc: Global) -> Result<Desk<MemoryDisk>, AllocError>
    ensures { IfOk result (λ desk. desk.history ≡ []) }
{
    let disk = MemoryDisk::new(alloc, Vec::new(alloc), Vec::new(alloc));
    match Desk::open(alloc, disk) {
        Ok(desk) => Ok(desk),
        Err(DeskRefused { disk: _, cause }) => Err(opening_error(cause)),
    }
}

// What the round of a trial came to, which the entries of its pool end with. The only error is running out of memory.
fn sums_of_round(
    alloc: Global,
    firms: u32,
    claims: u32,
    seed: u32,
    history: &[Entry],
    rounds: &[Cut],
) -> Result<Sums, AllocError>
    requires { HasRound (trial_cut firms claims seed) history.now rounds.now }
    ensures { IfOk result (λ sums. AreSums (trial_cut firms claims seed) sums.claims sums.parties sums.total) }
{
    sums_of(alloc, &rounds[0], last_outcome(history))
}

// What the round of a trial came to whose lines were served. The only error is running out of memory: a line was answered so, or an
// entry tells of the disk, whose faults are refused growths. No line is full, since a trial is within the bound.
fn judge(
    alloc: Global,
    firms: u32,
    claims: u32,
    seed: u32,
    answers: &[Answer],
    books: &Books,
    rounds: &[Cut],
) -> Result<Sums, AllocError>
    requires size { IsTrialSize firms claims }
    requires served { IsServed (trial_batch firms claims seed) answers.now [] books.now.members }
    requires rounds { rounds.now ≡ cuts_after 0 books.now.members }

    // What it came to.
    ensures { IfOk result (λ sums. AreSums (trial_cut firms claims seed) sums.claims sums.parties sums.total) }
{
    each_pool_has_its_history();
    publications_are_greatest();
    cut_of_a_history_is_of_its_facts();
    no_line_is_full_within_the_bound();
    let _len = books.len();
    if some_memory(answers) || some_device(books, 0) {
        return Err(AllocError);
    }
    let history = books.book(&main_pool_name()).history();
    sums_of_round(alloc, firms, claims, seed, history, rounds)
}

// Serves a batch on a desk of its own, whose disk is empty and in memory. The only error is running out of memory.
fn serve_alone<R: Threads + Wait + Sync>(
    rt: &R,
    alloc: Global,
    batch: &Batch,
) -> Result<BatchEnd<MemoryDisk>, AllocError>
    ensures { IfOk result (λ end. HasServedAlone batch.now end.desk end.answers) }
{
    let desk = open_desk(alloc)?;
    let end = run_batch(
        rt,
        alloc,
        desk,
        batch,
        &LevelSolver::new(),
        &Unhindered,
        &Unhindered,
    );
    Ok(end)
}

// What the round of a trial came to that was served so. The only error is running out of memory.
fn judge_end(
    alloc: Global,
    firms: u32,
    claims: u32,
    seed: u32,
    end: &BatchEnd<MemoryDisk>,
) -> Result<Sums, AllocError>
    requires size { IsTrialSize firms claims }
    requires served { HasServedAlone (trial_batch firms claims seed) end.now.desk end.now.answers }
    ensures { IfOk result (λ sums. AreSums (trial_cut firms claims seed) sums.claims sums.parties sums.total) }
{
    match &end.answers {
        Some(answers) => {
            let books = end.desk.books();
            let rounds = end.desk.rounds();
            judge(alloc, firms, claims, seed, answers.list(), books, rounds)
        }
        None => Err(AllocError),
    }
}

/// Draws the input of a trial, serves it on a desk on a disk in memory, and judges its round. The only error is running out of memory.
pub fn serve_trial<R: Threads + Wait + Sync>(
    rt: &R,
    alloc: Global,
    firms: u32,
    claims: u32,
    seed: u32,
) -> Result<Sums, AllocError>
    requires { IsTrialSize firms claims }
    ensures { IfOk result (λ sums. AreSums (trial_cut firms claims seed) sums.claims sums.parties sums.total) }
{
    let batch = trial_batch(alloc, firms, claims, seed)?;
    let end = serve_alone(rt, alloc, &batch);
    drop(batch);
    let end = end?;
    let sums = judge_end(alloc, firms, claims, seed, &end);
    drop(end.desk.close());
    sums
}
