//! The lock around the hub.

ghost use Rattle.std.specs.Prelude.{◌≡◌, [], Some, IfOk, IfSome, slice_get};
ghost use Rattle.cml_hub.specs.Dones.{GoesOn};
ghost use Rattle.cml_work.specs.{Marks.{BeginsWith, IsKeeper, WasShown, shown_of}, Picks.{ChoosesBy, picker}, Works.{OpenedBy, opening_of}};

use crate::desk::{Desk, refused};
use crate::locked::{Found, Locked, Told};
use crate::marks::{Board, Mark};
use crate::opening::Opening;
use cml_check::Prog;
use cml_hub::{Chooser, GiveFault, Hub};
use cml_schedule::Report;
use cml_step::{Machine, Ran};
use std::alloc::{AllocError, Global};
use std::sync::{Condvar, Mutex, MutexGuard, Wait};

/// A hub under a lock, from which workers take slices and a watcher the reports. It goes on from the opening.
///
/// A worker waits only where, under the lock, a slice of another is out. Who holds that slice comes back for the next one, or stops all
/// workers, or finds that all is over; the last two wake all. So whichever thread becomes ready, there is one who looks for it, and to wake
/// a worker serves only to have more of them at work. (No contract promises that a worker is served.) Only a run by workers makes one.
#[derive(Drop)]
pub struct Shared<O: Opening, C: Chooser + Drop> {
    locked: Mutex<Locked<O, C>>,
    workers: Condvar,
    watcher: Condvar,
    board: Board,
    ghost ours: { board.table.shared.table_id ≡ O.board },
}

impl<O: Opening, C: Chooser + Drop> Shared<O, C> {
    // The hub, with the chooser among its rows, and a board with its keeper's mark.
    pub(crate) fn new(hub: Hub, chooser: C, board: Board, keeper: Mark) -> Shared<O, C>
        requires hub { opening_of hub ≡ O.opening }
        requires board { board.table.shared.table_id ≡ O.board }
        requires keeper { IsKeeper O.board [] keeper }
        requires picks { O.picks ≡ picker (record { picks = C.picks; next = C.next }) chooser }
    {
        Shared {
            locked: Mutex::new(Locked::new(hub, chooser, keeper)),
            workers: Condvar::new(),
            watcher: Condvar::new(),
            board,
        }
    }

    // The hub, the chooser, and whether the workers were stopped.
    pub(crate) fn into_parts(self) -> (Hub, C, bool)
        ensures follows { OpenedBy O.opening result.0 }
        ensures chooses { ChoosesBy O.opening O.picks result.0 (picker (record { picks = C.picks; next = C.next }) result.1) result.2 }
    {
        let Shared {
            locked,
            workers: _,
            watcher: _,
            board: _,
        } = self;
        locked.into_inner().into_parts()
    }

    // The same, where the watcher's mark comes back: the hub's reports begin with what it was shown.
    pub(crate) fn into_parts_with<R: Wait>(self, rt: &R, mark: Mark) -> (Hub, C, bool)
        requires { WasShown O.board (shown_of mark) mark }
        ensures follows { OpenedBy O.opening result.0 }
        ensures shown { BeginsWith result.0.reports (shown_of mark) }
        ensures chooses { ChoosesBy O.opening O.picks result.0 (picker (record { picks = C.picks; next = C.next }) result.1) result.2 }
    {
        let Shared {
            locked,
            workers: _,
            watcher: _,
            board,
        } = self;
        let mut locked = locked.into_inner();
        let _all = locked.tell(rt, &board, mark);
        locked.into_parts()
    }

    // A mark for the watcher.
    pub(crate) fn mark<R: Wait>(&self, rt: &R) -> Mark
        ensures { WasShown O.board (shown_of result) result }
    {
        self.locked.lock(rt).mark(&self.board)
    }

    // Notes that all workers have ended.
    pub(crate) fn close<R: Wait>(&self, rt: &R) {
        self.locked.lock(rt).close();
        self.watcher.notify_all();
    }

    // A copy of the report of this number, from 0, once it is made; `None` where the workers have ended without it. The watcher's mark comes
    // back with all that it was shown, and the report among it.
    pub(crate) fn report<R: Wait>(
        &self,
        rt: &R,
        number: usize,
        mark: Mark,
    ) -> (Result<Option<Report>, AllocError>, Mark)
        requires { WasShown O.board (shown_of mark) mark }
        ensures mark { WasShown O.board (shown_of result.1) result.1 }
        ensures more { BeginsWith (shown_of result.1) (shown_of mark) }
        ensures shown { IfOk result.0 (λ told. IfSome told (λ r. slice_get (shown_of result.1) number ≡ Some r)) }
    {
        let mut locked = self.locked.lock(rt);
        for _ in rt.forever() {
            match locked.report(number) {
                Ok(Told::Report(report)) => {
                    let mark = locked.tell(rt, &self.board, mark);
                    return (Ok(Some(report)), mark);
                }
                Ok(Told::Over) => return (Ok(None), mark),
                Ok(Told::Wait) => locked = self.watcher.wait(rt, locked),
                Err(error) => return (Err(error), mark),
            }
        }
        unreachable!()
    }

    // Has a worker wait until it is woken.
    fn rest<'a, R: Wait>(
        &'a self,
        rt: &R,
        locked: MutexGuard<'a, Locked<O, C>>,
    ) -> MutexGuard<'a, Locked<O, C>> {
        let mut locked = locked;
        locked.wait();
        let mut locked = self.workers.wait(rt, locked);
        locked.wake();
        locked
    }

    // The next job, for a worker that has the lock; `None` where the run is over or the workers are to stop.
    fn find_job<'a, R: Wait>(
        &'a self,
        rt: &R,
        alloc: Global,
        locked: MutexGuard<'a, Locked<O, C>>,
    ) -> Result<Option<(Prog, Machine)>, AllocError>
        ensures { IfOk result (λ job. IfSome job (λ j. (j.0 ≡ O.opening.program) × GoesOn j.0 j.1)) }
    {
        let mut locked = locked;
        for _ in rt.forever() {
            let answer = locked.look(alloc);
            if locked.has_news() {
                self.watcher.notify_all();
            }
            match answer {
                Ok(Found::Job(job)) => {
                    let has_more = locked.has_more();
                    drop(locked);
                    if has_more {
                        self.workers.notify_one();
                    }
                    return Ok(Some(job));
                }
                Ok(Found::Wait) => locked = self.rest(rt, locked),
                Ok(Found::Over) => {
                    drop(locked);
                    self.workers.notify_all();
                    return Ok(None);
                }
                Err(error) => return Err(error),
            }
        }
        unreachable!()
    }
}

impl<O: Opening, C: Chooser + Drop> Desk for Shared<O, C> {
    ghost hands = { λ shared program machine. (program ≡ O.opening.program) × GoesOn program machine };

    // No fact that lasts shows what was said under the lock: it is said where the lock's value is lent.
    ghost back = { λ shared machine. Unit {0} };

    ghost over = { λ shared. Unit {0} };

    ghost lacks = { λ shared. Unit {0} };

    ghost stopped = { λ shared. Unit {0} };

    fn next<R: Wait>(&self, rt: &R, alloc: Global) -> Result<Option<(Prog, Machine)>, AllocError> {
        let locked = self.locked.lock(rt);
        self.find_job(rt, alloc, locked)
    }

    // A worker that gives a slice back by this call may not come for the next one, so another worker is woken.
    fn give<R: Wait>(&self, rt: &R, alloc: Global, ran: Ran) -> Result<(), GiveFault> {
        let mut locked = self.locked.lock(rt);
        let answer = locked.give(alloc, ran);
        if locked.has_news() {
            self.watcher.notify_all();
        }
        drop(locked);
        self.workers.notify_one();
        answer
    }

    #[tactic(auto, using(crate::proofs::Handing::at_error))]
    fn next_after<R: Wait>(
        &self,
        rt: &R,
        alloc: Global,
        ran: Ran,
    ) -> Result<Option<(Prog, Machine)>, AllocError> {
        let mut locked = self.locked.lock(rt);
        match locked.give(alloc, ran) {
            Ok(()) => {}
            Err(fault) => refused(fault)?,
        }
        self.find_job(rt, alloc, locked)
    }

    fn stop<R: Wait>(&self, rt: &R) {
        self.locked.lock(rt).stop();
        self.workers.notify_all();
        self.watcher.notify_all();
    }
}
