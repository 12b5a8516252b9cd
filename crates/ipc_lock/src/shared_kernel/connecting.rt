//! Connections: their boxes, what their readers ask for, and what their writers write.
ghost use Rattle.std.specs.Prelude.{◌≡◌, None, IfOk, IfSome, IfNone, IfErr, false, true, slice_get};
ghost use Rattle.std.specs.Sync.Mutex.{mutex_guard_value};
ghost use Rattle.ipc_seats.specs.Acting.{Asked};
ghost use Rattle.ipc_seats.specs.Places.{is_empty_in, is_in, is_out, is_shut_in};
ghost use Rattle.ipc_lock.specs.Above.{AsksOrRefuses, ConnectsSome, EndsSome, EndsWorkSome, FindsNone, GoneSome, HandsOut, HangsUpSome, LaysSome, PostsOrDrops, TakesOutSome};
ghost use Rattle.ipc_lock.specs.Rounds.{Carries};
ghost use Rattle.ipc_connection.specs.Pens.{BeginsEmpty};
ghost use Rattle.ipc_base.specs.LogRules.{AreOne};

use super::SharedKernel;
use crate::ends::{PostEnd, TakeEnd};
use crate::inside::After;
use crate::logged::Logged;
use ipc_base::{Naming, Own};
use ipc_connection::{PenPort, Request, Told};
use ipc_core::Refusal;
use ipc_seats::{Entered, Errands, Event, Loaded, Roll, Work};
use std::mem::replace;
use std::sync::ledger::Ledger;
use std::sync::{Arc, Condvar, MutexGuard, Wait};
use std::thread::yield_now;

impl<C: Naming, T: Ledger, P: PenPort + Drop> SharedKernel<C, T, P> {
    /// Makes an empty box for the connection of a port, to which nothing was written, and answers
    /// its two ends. Its thread will be of this space, 1 to `MAX_SPACE`. The only refusal is K4.
    #[tactic(auto, using(crate::proofs::Above::connects_some))]
    pub fn connect<R: Wait>(
        &self,
        rt: &R,
        port: P,
        space: u64,
    ) -> Result<(PostEnd<C>, TakeEnd), Refusal>
        requires { BeginsEmpty (P.written port) }
        ensures space { IfOk result (λ ends. ends.0.space ≡ space) }
        ensures seat { IfOk result (λ ends. ends.0.seat ≡ None) }
        ensures place { IfOk result (λ ends. ends.1.place ≡ ends.0.place) }
        ensures number { IfOk result (λ ends. ends.1.number ≡ ends.0.own.number) }
        ensures fresh { IfOk result (λ ends. ConnectsSome C P ends.0.place ends.0.own) }
        ensures err { IfErr result (λ refusal. refusal ≡ Refusal.NoMemory) }
    {
        match self.inside(rt).connect(&self.log, port) {
            Ok((place, number, own)) => {
                let posts = PostEnd {
                    place,
                    space,
                    seat: None,
                    own,
                };
                Ok((posts, TakeEnd { place, number }))
            }
            Err(_) => Err(Refusal::NoMemory),
        }
    }

    /// Gives a connection's box back, once its writer has ended and its pen lies there, and hands
    /// the pen's port out: what went out is what the log says that the connection was given. Who
    /// has the roll is told. None where its box is not there, which a law of the log rules out.
    pub fn release<R: Wait>(&self, rt: &R, end: PostEnd<C>, roll: &mut Roll<C>) -> Option<P>
        ensures hands { IfSome result (λ port.
            HandsOut C P end.place end.own roll.old roll.new (P.written port)) }
        ensures none { IfNone result (FindsNone C P end.place end.own) }
    {
        let PostEnd {
            place,
            space: _,
            seat: _,
            own,
        } = end;
        let mut inside = self.when_laid(rt, place, own.number());
        inside.release(&self.log, own, place, roll)
    }

    /// Asks the kernel for a connection at a moment, in microseconds, and tells at once what it
    /// accepted: that a thread was opened, or what ExchangeRegisters answers. Also says how far a
    /// call is that was entered. A call and an ExchangeRegisters are by the end's own seat, and
    /// from the end's space.
    ///
    /// # Errors
    ///
    /// `Refused`, and the end is then as before: of an open K1, K2, K3, K5, K4; of a call K6, K7,
    /// K8, K5, K4; of an ExchangeRegisters K6, K7, K5, K4. K6 also where the box was shut, and
    /// where this is not the end's own thread.
    #[tactic(auto, unfolding(ipc_seats::specs::Acting::Asked), using(ipc_seats::proofs::Steps::still, crate::proofs::Above::asks_none))]
    pub fn ask<R: Wait>(
        &self,
        rt: &R,
        now: u64,
        end: &mut PostEnd<C>,
        request: Request,
    ) -> (Told, Entered)
        ensures place { end.new.place ≡ end.old.place }
        ensures number { end.new.own.number ≡ end.old.own.number }
        ensures space { end.new.space ≡ end.old.space }
        ensures asked { Asked result.0 request end.old.seat end.new.seat }
        ensures asks { AsksOrRefuses P now end.old.place end.old.seat request
            end.old.space result.0 end.old.own end.new.own }
    {
        let Some(mut inside) = self.when_empty(rt, &mut end.own, end.place) else {
            return (Told::Refused(Refusal::NoThread), Entered::Open);
        };
        let mut errands = Errands::none();
        let own_seat = end.seat.take();
        let (told, seat, after) = inside.ask_and_tell(
            &self.log,
            &mut end.own,
            now,
            end.place,
            own_seat,
            request,
            end.space,
            &mut errands,
        );
        drop(replace(&mut end.seat, seat));
        drop(inside);
        let begun = after.begun;
        let entered = errands.entered(end.place);
        self.settle(rt, after, &mut errands);
        if begun {
            self.move_blocks(rt, now);
        }
        (told, entered)
    }

    /// Tells it by its frame. A shut box drops it.
    #[tactic(auto, using(crate::proofs::Above::posts_some, crate::proofs::Above::posts_none))]
    pub fn post<R: Wait>(&self, rt: &R, end: &mut PostEnd<C>, told: Told)
        ensures stays { end.new ≡ record end.old { own = end.new.own } }
        ensures posts { PostsOrDrops C P end.old.place told end.old.own end.new.own }
    {
        let Some(mut inside) = self.when_empty(rt, &mut end.own, end.place) else {
            return;
        };
        inside.post(&self.log, &mut end.own, end.place, told);
        let mut errands = Errands::none();
        inside.load(&self.log, end.place, &mut errands);
        drop(inside);
        self.carry(rt, &mut errands);
    }

    /// Ends the thread of a reader's end, if there is one, and shuts its box.
    pub fn hang_up<R: Wait>(&self, rt: &R, now: u64, end: &mut PostEnd<C>)
        ensures stays { end.new ≡ record end.old { own = end.new.own } }
        ensures ends { HangsUpSome C P now end.old.place end.old.own end.new.own }
    {
        let mut errands = Errands::none();
        let mut inside = self.inside(rt);
        let ended = inside.hang_up(&self.log, &mut end.own, now, end.place, &mut errands);
        drop(inside);
        self.settle_end(rt, ended, &mut errands);
    }

    /// Ends the thread of a writer's end, if there is one, and shuts its box.
    #[tactic(auto, using(crate::proofs::Above::ends_some))]
    pub fn leave<R: Wait>(&self, rt: &R, now: u64, end: &TakeEnd)
        ensures ends { EndsSome C P now end.now.place end.now.number false }
    {
        let mut errands = Errands::none();
        let mut inside = self.inside(rt);
        let ended = inside.leave(&self.log, now, end.place, end.number, &mut errands);
        drop(inside);
        self.settle_end(rt, ended, &mut errands);
    }

    /// Wakes those whom the end of a connection concerns, if there was one, and writes what it
    /// told.
    fn settle_end<R: Wait>(&self, rt: &R, ended: Option<After>, errands: &mut Errands<C, P>)
        ensures carries { Carries errands.old errands.new }
    {
        match ended {
            Some(after) => {
                self.wake_mover(&after);
                self.settle(rt, after, errands);
            }
            None => self.carry(rt, errands),
        }
    }

    /// Two readers' ends speak of one log: what one of them saw of it the other saw, too, and
    /// perhaps more. It changes nothing.
    pub fn compare(&self, one: &mut PostEnd<C>, other: &mut PostEnd<C>)
        ensures one_stays { one.new ≡ one.old }
        ensures other_stays { other.new ≡ other.old }
        ensures are_one { AreOne one.old.own.seen other.old.own.seen }
    {
        let mut seen = self.log.front_of(&mut one.own);
        let seen_by_other = self.log.front_of(&mut other.own);
        self.log.compare(&mut seen, seen_by_other);
    }

    /// Waits until a box's pen lies there with something to write that nobody else has taken, and
    /// takes it out. None once nothing more comes, or the device has failed.
    #[tactic(auto, using(crate::proofs::Working::takes_out))]
    pub fn wait_pen<R: Wait>(&self, rt: &R, end: &TakeEnd) -> Option<Loaded<C, P>>
        ensures takes { IfSome result (λ pen. TakesOutSome C P end.now.place end.now.number pen) }
        ensures over { IfNone result (EndsWorkSome C T P end.now.place end.now.number) }
    {
        let mut inside = self.inside(rt);
        for _ in rt.forever() {
            match inside.work(&self.log, end.place, end.number) {
                Some(Work::Write(pen)) => return Some(pen),
                Some(Work::Over) => return None,
                None => {}
            }
            let bell = inside.bell(end.place);
            inside = self.wait_for(rt, bell, inside);
        }
        None
    }

    /// Lays a pen down in its box. What came meanwhile is written first, as far as the device has
    /// room.
    #[tactic(auto, using(crate::proofs::Working::lays_some))]
    pub fn give_back<R: Wait>(&self, rt: &R, pen: Loaded<C, P>)
        ensures lays { LaysSome C P pen }
    {
        let mut errands = Errands::of(pen);
        self.inside(rt).take_back(&self.log, &mut errands);
        self.carry(rt, &mut errands);
    }

    /// Lets go of the lock until a bell rings, and takes it again. Where no bell can be had others
    /// are let run meanwhile.
    fn wait_for<'a, R: Wait>(
        &'a self,
        rt: &R,
        bell: Option<Arc<Condvar>>,
        inside: MutexGuard<'a, Logged<C, T, P>>,
    ) -> MutexGuard<'a, Logged<C, T, P>> {
        match bell {
            Some(bell) => bell.wait(rt, inside),
            None => {
                drop(inside);
                yield_now();
                self.inside(rt)
            }
        }
    }

    /// Takes the lock once the pen of the connection of this number lies in its box, if it has one.
    fn when_laid<'a, R: Wait>(
        &'a self,
        rt: &R,
        place: usize,
        number: u64,
    ) -> MutexGuard<'a, Logged<C, T, P>>
        ensures { is_out number (slice_get (mutex_guard_value result).inside.boxes place)
            ≡ false }
    {
        let mut inside = self.inside(rt);
        for _ in rt.forever() {
            if !inside.is_out(place, number) {
                return inside;
            }
            let bell = inside.bell(place);
            inside = self.wait_for(rt, bell, inside);
        }
        inside
    }

    /// Takes the lock once the box of the connection of this number is empty. None once it is shut,
    /// or gone; its owner is shown the log then.
    fn when_empty<'a, R: Wait>(
        &'a self,
        rt: &R,
        own: &mut Own<Event, C>,
        place: usize,
    ) -> Option<MutexGuard<'a, Logged<C, T, P>>>
        ensures its { IfSome result (λ inside.
            is_in own.old.number (slice_get (mutex_guard_value inside).inside.boxes place)
            ≡ true) }
        ensures shut { IfSome result (λ inside.
            is_shut_in (slice_get (mutex_guard_value inside).inside.boxes place) ≡ false) }
        ensures empty { IfSome result (λ inside.
            is_empty_in (slice_get (mutex_guard_value inside).inside.boxes place) ≡ true) }
        ensures same { IfSome result (λ _. own.new ≡ own.old) }
        ensures gone { IfNone result (GoneSome C P place own.old own.new) }
    {
        let number = own.number();
        let mut inside = self.inside(rt);
        for _ in rt.forever() {
            if !inside.is_in(place, number) {
                inside.show(&self.log, own);
                return None;
            }
            if inside.is_shut(place) {
                inside.show(&self.log, own);
                return None;
            }
            if inside.is_empty(place) {
                return Some(inside);
            }
            let emptied = inside.emptied(place);
            inside = self.wait_for(rt, emptied, inside);
        }
        None
    }
}
