//! Who works for those that came in.
ghost use Rattle.std.specs.Prelude.{◌≡◌, ◌≤◌, ◌+◌, drop, vec_len, [], IfOk, IfErr};
ghost use Rattle.ls_door.specs.Spawning.{MayStart, MayRefuse, CountsStart};
ghost use Rattle.ls_door.specs.declared.spawner.Way.TheVariants as way;

use std::alloc::{AllocError, Global};
use std::marker::{Model, Send};
use std::mem;
use std::sync::atomic::{AtomicU64, Ordering};
use std::sync::{Arc, Condvar, Mutex, Wait};
use std::thread::{Builder, JoinHandle, Threads};
use std::vec::IntoIter;

/// The stack of a job's thread, in bytes, where nothing else is wanted. A stack is a multiple of 128 KiB.
pub const STACK_BYTES: usize = 262_144;

/// How many threads a start looks at, to join those that have finished. A start adds one thread, so with more than one
/// look what isn't joined stays within a few times what runs at once.
const LOOKS: u32 = 4;

/// How a spawner works.
#[derive(Clone, Copy, Debug, PartialEq, Eq)]
pub enum Way {
    /// Each job is done before `start` returns.
    AtOnce,

    /// Each job has a thread of its own.
    Threads,

    /// A list says which jobs are refused. The others are done before `start` returns.
    ByList,
}

/// Where a thread finds its job.
#[derive(Drop)]
struct Desk<J> {
    job: Mutex<Option<J>>,
    filled: Condvar,
}

/// A thread that was started and isn't joined yet, and a word that is 1 once its job is done.
#[derive(Drop)]
struct Worker {
    thread: JoinHandle<()>,
    done: Arc<AtomicU64>,
}

/// Starts jobs. Contracts see its way, the list of jobs to come that are refused, how many were refused, and how many
/// threads aren't joined yet.
#[derive(Drop)]
pub struct Spawner {
    way: Way,
    alloc: Global,
    stack: usize,
    refusals: IntoIter<bool>,
    workers: Vec<Worker>,
    hand: usize,
    refused: u64,
}

impl Model for Spawner {
    ghost use Rattle.std.specs.Prelude.{vec_len};
    ghost use Rattle.std.specs.Vec.Iter.{into_iter_items};
    ghost use Rattle.ls_door.specs.Spawning.{SpawnerState};

    ghost Value = { SpawnerState };

    ghost view = { λ s. record {
      way = s.way;
      refusals = into_iter_items s.refusals;
      refused = s.refused;
      running = vec_len s.workers;
    } };
}

/// Waits for the job at a desk, and does it.
fn work_at<R: Wait, J: Drop, F: FnOnce(J) + Drop>(rt: &R, desk: &Desk<J>, work: F)
    requires { F.IsAlwaysCallable work }
{
    let mut place = desk
        .filled
        .wait_while(rt, desk.job.lock(rt), |place| place.is_none());
    if let Some(job) = place.take() {
        drop(place);
        work(job);
    }
}

/// Starts a thread with a desk to which its job is to be brought.
fn open_desk<
    R: Threads + Wait + Copy + Send + 'static,
    J: Send + Drop + 'static,
    F: FnOnce(J) + Send + Drop + 'static,
>(
    rt: R,
    alloc: Global,
    stack: usize,
    workers: &mut Vec<Worker>,
    work: F,
) -> Result<Arc<Desk<J>>, AllocError>
    requires { F.IsAlwaysCallable work }
    ensures ok { IfOk result (λ _. vec_len workers.new ≡ vec_len workers.old + 1) }
    ensures err { IfErr result (λ _. vec_len workers.new ≡ vec_len workers.old) }
{
    workers.reserve(1)?;
    let desk = Arc::new(
        alloc,
        Desk {
            job: Mutex::new(None),
            filled: Condvar::new(),
        },
    )?;
    let done = Arc::new(alloc, AtomicU64::new(0))?;
    let its_desk = Arc::try_clone(&desk)?;
    let its_done = Arc::try_clone(&done)?;
    let task = move ||
        requires { F.IsAlwaysCallable work }
    {
        work_at(&rt, &its_desk, work);
        its_done.store(1, Ordering::SeqCst);
    };
    match Builder::new().stack_size(stack).spawn(&rt, task) {
        Ok(thread) => {
            workers.push_reserved(Worker { thread, done });
            Ok(desk)
        }
        Err(_) => Err(AllocError),
    }
}

impl Spawner {
    /// A spawner that does each job at once, and refuses none.
    pub fn at_once(alloc: Global) -> Spawner
        ensures { result ≡ record { way = way.AtOnce; refusals = []; refused = 0; running = 0 } }
    {
        Spawner::of(alloc, Way::AtOnce, 0, Vec::new(alloc))
    }

    /// A spawner that gives each job a thread of its own, with a stack of this size in bytes, rounded up to a positive
    /// multiple of 128 KiB. It refuses a job where the system makes no thread, and for want of memory. It keeps a
    /// finished thread's stack no longer than for some starts; the last ones are let go by `settle`.
    pub fn threads(alloc: Global, stack: usize) -> Spawner
        ensures { result ≡ record { way = way.Threads; refusals = []; refused = 0; running = 0 } }
    {
        Spawner::of(alloc, Way::Threads, stack, Vec::new(alloc))
    }

    /// A spawner for tests: a job is refused where the list has `true` for it, the first job by its first member. The
    /// others are done at once, and so are all past the list's end.
    pub fn by_list(alloc: Global, refusals: Vec<bool>) -> Spawner
        ensures { result ≡ record { way = way.ByList; refusals = refusals.items; refused = 0; running = 0 } }
    {
        Spawner::of(alloc, Way::ByList, 0, refusals)
    }

    /// A spawner that has started nothing.
    fn of(alloc: Global, way: Way, stack: usize, refusals: Vec<bool>) -> Spawner
        ensures { result ≡ record { way = way; refusals = refusals.items; refused = 0; running = 0 } }
    {
        Spawner {
            way,
            alloc,
            stack,
            refusals: refusals.into_iter(),
            workers: Vec::new(alloc),
            hand: 0,
            refused: 0,
        }
    }

    /// How many jobs were refused, or 2^64 - 1 where that is less. It never falls.
    pub fn refused(&self) -> u64
        ensures { result ≡ self.now.refused }
    {
        self.refused
    }

    /// How many threads were started and aren't joined yet.
    pub fn running(&self) -> usize
        ensures { result ≡ self.now.running }
    {
        self.workers.len()
    }

    /// Joins a few of the threads that have finished. Each call goes on where the last one stopped.
    fn tidy<R: Threads>(&mut self, rt: &R)
        ensures kept { self.new ≡ record self.old { running = self.new.running } }
        ensures fewer { self.new.running ≤ self.old.running }
    {
        for _ in 0..LOOKS {
            self.look(rt);
        }
    }

    /// Looks at one thread, and joins it if it has finished.
    fn look<R: Threads>(&mut self, rt: &R)
        ensures kept { self.new ≡ record self.old { running = self.new.running } }
        ensures fewer { self.new.running ≤ self.old.running }
    {
        if self.hand >= self.workers.len() {
            self.hand = 0;
        }
        let Some(worker) = self.workers.get(self.hand) else {
            return;
        };
        if worker.done.load(Ordering::SeqCst) == 0 {
            self.hand = self.hand.saturating_add(1);
            return;
        }
        let Worker { thread, .. } = self.workers.swap_remove(self.hand);
        thread.join(rt);
    }

    /// Starts a job: `work` is called with it. `Err` hands the job back, and `refused` rises by one; else the count is
    /// as before. A spawner that works at once refuses nothing.
    pub fn start<
        R: Threads + Wait + Copy + Send + 'static,
        J: Send + Drop + 'static,
        F: FnOnce(J) + Send + Drop + 'static,
    >(&mut self, rt: R, job: J, work: F) -> Result<(), J>
        requires { F.IsAlwaysCallable work }
        ensures counts { CountsStart result self.old.refused self.new.refused }
        ensures same { IfErr result (λ j. j ≡ job) }
        ensures started { IfOk result (λ _. MayStart self.old.way self.old.refusals) }
        ensures cause { IfErr result (λ _. MayRefuse self.old.way self.old.refusals) }
        ensures way { self.new.way ≡ self.old.way }
        ensures rest { self.new.refusals ≡ drop 1 self.old.refusals }
        ensures running { self.new.running ≤ self.old.running + 1 }
    {
        let is_refused = self.refusals.next() == Some(true);
        match self.way {
            Way::AtOnce => {
                work(job);
                Ok(())
            }
            Way::ByList => {
                if is_refused {
                    self.refused = self.refused.saturating_add(1);
                    return Err(job);
                }
                work(job);
                Ok(())
            }
            Way::Threads => {
                self.tidy(&rt);
                match open_desk(rt, self.alloc, self.stack, &mut self.workers, work) {
                    Ok(desk) => {
                        *desk.job.lock(&rt) = Some(job);
                        desk.filled.notify_one();
                        Ok(())
                    }
                    Err(_) => {
                        self.refused = self.refused.saturating_add(1);
                        Err(job)
                    }
                }
            }
        }
    }

    /// Waits for all jobs that were started, and joins their threads.
    pub fn settle<R: Threads>(&mut self, rt: &R)
        ensures { self.new ≡ record self.old { running = 0 } }
    {
        for worker in mem::replace(&mut self.workers, Vec::new(self.alloc)) {
            let Worker { thread, .. } = worker;
            thread.join(rt);
        }
    }
}
