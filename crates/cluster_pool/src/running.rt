// The runs of all jobs.
ghost use Rattle.std.specs.Prelude.{◌≡◌, ◌<◌, ℕ, IfOk, length, slice_index_or};
ghost use Rattle.cluster_pool.specs.Results.{AreResultsOf, AreAll};

use span_clusters::{Done, Job, Separable};
use std::alloc::{AllocError, Global};
use std::thread;
use std::thread::Threads;
use trk_base::NoMemory;

// What came of each job, in order: in threads where there is a handle.
pub(crate) fn each_result<F: Separable + Send, R: Threads + Sync>(
    handle: Option<&R>,
    alloc: Global,
    jobs: Vec<Job<F>>,
) -> Result<Vec<Result<Done<F>, NoMemory>>, NoMemory>
where
    F::State: Send,
    F::Item: Send,
    F::Out: Send,
    ensures { IfOk result (λ results. AreResultsOf jobs.items results.items) }
{
    match handle {
        Some(handle) => match in_threads(handle, alloc, jobs) {
            Ok(results) => Ok(results),
            Err(_) => Err(NoMemory),
        },
        None => in_order(alloc, jobs),
    }
}

fn in_threads<F: Separable + Send, R: Threads + Sync>(
    handle: &R,
    alloc: Global,
    jobs: Vec<Job<F>>,
) -> Result<Vec<Result<Done<F>, NoMemory>>, AllocError>
where
    F::State: Send,
    F::Item: Send,
    F::Out: Send,
    ensures len { IfOk result (λ results. length results.items ≡ length jobs.items) }
    ensures each { IfOk result (λ results. (i : ℕ) (d : _) (e : _) → i < length jobs.items → IfOk (slice_index_or results.items i e) (λ done. done ≡ slice_index_or jobs.items i d)) }
{
    thread::map_vec(handle, jobs, &|job: Job<F>| job.run(alloc))
}

fn in_order<F: Separable>(
    alloc: Global,
    jobs: Vec<Job<F>>,
) -> Result<Vec<Result<Done<F>, NoMemory>>, NoMemory>
    ensures { IfOk result (λ results. AreResultsOf jobs.items results.items) }
{
    let mut results = Vec::with_capacity(alloc, jobs.len())?;
    for job in jobs {
        results.push(job.run(alloc))?;
    }
    Ok(results)
}

// The dones, if each is there.
pub(crate) fn all_or_none<F: Separable>(
    alloc: Global,
    results: Vec<Result<Done<F>, NoMemory>>,
) -> Result<Vec<Done<F>>, NoMemory>
    ensures { IfOk result (λ all. AreAll results.items all.items) }
{
    let mut all = Vec::with_capacity(alloc, results.len())?;
    for result in results {
        all.push(result?)?;
    }
    Ok(all)
}
