// Pools that wait for nobody.
ghost use Rattle.std.specs.Prelude.{◌≡◌, IfOk};

use crate::running::{all_or_none, each_result};
use span_clusters::{Done, Job, Separable};
use std::alloc::Global;
use std::marker::PhantomData;
use std::thread::Threads;
use trk_base::NoMemory;

/// What a pool decides about the jobs that it is handed. They are run by `run`, which no pool
/// replaces: a method of an impl can't hand what is generic to a thread.
pub trait Pool {
    type Handle: Threads + Sync;

    /// By what threads are started; `None` where the jobs are to run one after the other.
    fn handle(&self) -> Option<&Self::Handle>;

    /// Is told of each job before they run, in order: its place among them, from 0 on, and how many
    /// items it has.
    fn note(&mut self, _place: usize, _items: usize) {}

    /// Runs the jobs: one done for each, in order, of its number, its start and its items.
    final fn run<F: Separable + Send>(
        &mut self,
        alloc: Global,
        jobs: Vec<Job<F>>,
    ) -> Result<Vec<Done<F>>, NoMemory>
    where
        F::State: Send,
        F::Item: Send,
        F::Out: Send,
        ensures { IfOk result (λ done. done.items ≡ jobs.items) }
    {
        for place in 0..jobs.len() {
            self.note(place, jobs[place].items().len());
        }
        let results = each_result(self.handle(), alloc, jobs)?;
        all_or_none(alloc, results)
    }
}

/// Runs the jobs one after the other.
#[derive(Drop)]
pub struct Inline<R> {
    /// Stands for what threads would be started by: nothing is kept, as none is started.
    handle: PhantomData<R>,
}

impl<R: Threads + Sync> Inline<R> {
    pub fn new() -> Inline<R> {
        Inline {
            handle: PhantomData,
        }
    }
}

impl<R: Threads + Sync> Pool for Inline<R> {
    type Handle = R;

    fn handle(&self) -> Option<&R> {
        None
    }
}

/// Runs each job in a thread of its own, where one can be started.
#[derive(Drop)]
pub struct MapPool<R> {
    /// By what the threads are started.
    handle: R,
}

impl<R: Threads + Sync> MapPool<R> {
    pub fn new(handle: R) -> MapPool<R> {
        MapPool { handle }
    }
}

impl<R: Threads + Sync> Pool for MapPool<R> {
    type Handle = R;

    fn handle(&self) -> Option<&R> {
        Some(&self.handle)
    }
}
