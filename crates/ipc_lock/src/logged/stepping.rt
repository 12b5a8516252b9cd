//! Steps, each with what it tells.
ghost use Rattle.std.specs.Prelude.{◌≡◌, ◌∷◌, ◌&&◌, [], IfNone, None, false, is_some, slice_get, true};
ghost use Rattle.ipc_core.specs.declared.command.Command.TheVariants as step;
ghost use Rattle.ipc_history.specs.Legal.{next_moving};
ghost use Rattle.ipc_seats.specs.Acting.{AnswersStep, Asked, GivesSeat, HandsBack};
ghost use Rattle.ipc_seats.specs.Boxes.{changed_at};
ghost use Rattle.ipc_seats.specs.Gifts.{gifts, no_errands, number_in};
ghost use Rattle.ipc_seats.specs.Owning.{Makes};
ghost use Rattle.ipc_seats.specs.Places.{EndsAt, OnlyLoads, is_in, shut_for, thread_for};
ghost use Rattle.ipc_seats.specs.declared.events.Event.TheVariants as event;
ghost use Rattle.ipc_lock.specs.Above.{is_moved};
ghost use Rattle.ipc_lock.specs.Telling.{ActsAndTells, AsksAndTells};
ghost use Rattle.ipc_lock.specs.Turns.{Turned};

use super::Logged;
use super::gifts::{gifts, number_at};
use crate::inside::After;
use ipc_base::{Log, Naming, Own, Past};
use ipc_connection::{PenPort, Request, Told};
use ipc_core::{Advance, Answer, Command};
use ipc_seats::{Answered, CallSeat, Errands, Event};
use std::sync::ledger::Ledger;

/// Whether a step copied a block.
pub(super) fn has_moved<C: Ledger, T: Ledger>(answered: &Answered<C, T>) -> bool
    ensures { result ≡ is_moved answered.now.answer }
{
    matches!(answered.answer(), Answer::Advanced(Advance::Moved))
}

impl<C: Naming, T: Ledger, P: PenPort + Drop> Logged<C, T, P> {
    /// Makes one step, a command of the kernel by a seat where a thread calls, and takes the pens
    /// out of those whom it told something. No pen is out before.
    pub(crate) fn act_and_tell(
        &mut self,
        log: &Log<Event, C>,
        now: u64,
        seat: Option<CallSeat<C>>,
        command: Command,
        errands: &mut Errands<C, P>,
    ) -> (Answered<C, T>, After)
        requires none { errands.old ≡ no_errands }
        ensures turned { Turned C P self.old self.new (event.Acted now (command ∷ [])
            (result.0.answer ∷ []) (gifts errands.new)) }
        ensures acts { ActsAndTells self.old.inside.upkeep self.new.inside.upkeep
            self.old.inside.kernel self.new.inside.kernel now seat command
            result.0.answer self.old.inside.owners self.old.inside.boxes self.new.inside.boxes
            no_errands errands.new }
        ensures answers { AnswersStep seat command result.0.answer result.0.calls }
        ensures takes { GivesSeat result.0.answer result.0.takes }
        ensures back { HandsBack command result.0.answer result.0.back }
        ensures stay { OnlyLoads self.old.inside.boxes self.new.inside.boxes }
    {
        let mut commands = Past::new();
        commands.add(&command);
        let (answered, after) = self
            .inside
            .act_and_tell(now, seat, command, &mut self.gifts, errands);
        let mut answers = Past::new();
        answers.add(answered.answer());
        log.add(
            &mut self.keeper,
            &Event::Acted {
                now,
                commands,
                answers,
                gave: gifts(errands),
            },
        );
        (answered, after)
    }

    /// Makes one step that copies a block, where a call is in transfer. Also answers whether it
    /// copied one and more is left. No pen is out before.
    pub(crate) fn copy_and_tell(
        &mut self,
        log: &Log<Event, C>,
        now: u64,
        errands: &mut Errands<C, P>,
    ) -> (Answered<C, T>, bool, After)
        requires none { errands.old ≡ no_errands }
        ensures turned { Turned C P self.old self.new (event.Acted now (step.Advance ∷ [])
            (result.0.answer ∷ []) (gifts errands.new)) }
        ensures acts { ActsAndTells self.old.inside.upkeep self.new.inside.upkeep
            self.old.inside.kernel self.new.inside.kernel now None step.Advance
            result.0.answer self.old.inside.owners self.old.inside.boxes self.new.inside.boxes
            no_errands errands.new }
        ensures goes_on { result.1 ≡ (is_moved result.0.answer
            && is_some (next_moving self.new.inside.kernel.history)) }
    {
        let (answered, after) = self.act_and_tell(log, now, None, Command::Advance, errands);
        let goes_on = self.goes_on(has_moved(&answered));
        (answered, goes_on, after)
    }

    /// Makes the step of a reader's request from a space, tells in its box what the kernel
    /// accepted, and takes the pens out of those whom it told something, first that of the reader's
    /// own box. No pen is out before.
    pub(crate) fn ask_and_tell(
        &mut self,
        log: &Log<Event, C>,
        own: &mut Own<Event, C>,
        now: u64,
        place: usize,
        seat: Option<CallSeat<C>>,
        request: Request,
        space: u64,
        errands: &mut Errands<C, P>,
    ) -> (Told, Option<CallSeat<C>>, After)
        requires none { errands.old ≡ no_errands }
        requires its { is_in own.old.number (slice_get self.old.inside.boxes place) ≡ true }
        ensures own { Makes own.old own.new self.old.log self.new.log (event.Asked now place
            (number_in (slice_get self.old.inside.boxes place)) (request ∷ []) space result.0
            (gifts errands.new)) }
        ensures turned { Turned C P self.old self.new (event.Asked now place
            (number_in (slice_get self.old.inside.boxes place)) (request ∷ []) space result.0
            (gifts errands.new)) }
        ensures asks { AsksAndTells self.old.inside.upkeep self.new.inside.upkeep
            self.old.inside.kernel self.new.inside.kernel now seat request space
            result.0 self.old.inside.owners place self.old.inside.boxes self.new.inside.boxes
            no_errands errands.new }
        ensures asked { Asked result.0 request seat result.1 }
    {
        let number = number_at(&self.inside, place);
        let mut requests = Past::new();
        requests.add(&request);
        let (told, calls, after) = self
            .inside
            .ask_and_tell(now, place, seat, request, space, &mut self.gifts, errands);
        let said = told;
        let asked = Event::Asked {
            now,
            place,
            number,
            requests,
            space,
            said,
            gave: gifts(errands),
        };
        log.add_own(&mut self.keeper, own, &asked);
        (told, calls, after)
    }

    /// Shuts the box of the connection of this number, and ends the thread that is told there, as
    /// its reader asks. None where there is none. No pen is out before.
    pub(crate) fn hang_up(
        &mut self,
        log: &Log<Event, C>,
        own: &mut Own<Event, C>,
        now: u64,
        place: usize,
        errands: &mut Errands<C, P>,
    ) -> Option<After>
        requires none { errands.old ≡ no_errands }
        ensures own { Makes own.old own.new self.old.log self.new.log (event.Ended now place
            own.old.number true (gifts errands.new)) }
        ensures turned { Turned C P self.old self.new (event.Ended now place
            own.old.number true (gifts errands.new)) }
        ensures ends { EndsAt self.old.inside.upkeep self.new.inside.upkeep
            self.old.inside.kernel self.new.inside.kernel now
            (thread_for own.old.number (slice_get self.old.inside.boxes place)) }
        ensures none { IfNone result
            (thread_for own.old.number (slice_get self.old.inside.boxes place) ≡ None) }
        ensures shut { OnlyLoads (changed_at (shut_for own.old.number) self.old.inside.boxes place)
            self.new.inside.boxes }
    {
        let number = own.number();
        let ended = self
            .inside
            .end_at(now, place, number, &mut self.gifts, errands);
        let by_reader = Event::Ended {
            now,
            place,
            number,
            is_by_reader: true,
            gave: gifts(errands),
        };
        log.add_own(&mut self.keeper, own, &by_reader);
        ended
    }

    /// Shuts the box of the connection of this number, and ends the thread that is told there, as
    /// its writer asks. None where there is none. No pen is out before.
    pub(crate) fn leave(
        &mut self,
        log: &Log<Event, C>,
        now: u64,
        place: usize,
        number: u64,
        errands: &mut Errands<C, P>,
    ) -> Option<After>
        requires none { errands.old ≡ no_errands }
        ensures turned { Turned C P self.old self.new (event.Ended now place number false
            (gifts errands.new)) }
        ensures ends { EndsAt self.old.inside.upkeep self.new.inside.upkeep
            self.old.inside.kernel self.new.inside.kernel now
            (thread_for number (slice_get self.old.inside.boxes place)) }
        ensures none { IfNone result
            (thread_for number (slice_get self.old.inside.boxes place) ≡ None) }
        ensures shut { OnlyLoads (changed_at (shut_for number) self.old.inside.boxes place)
            self.new.inside.boxes }
    {
        let ended = self
            .inside
            .end_at(now, place, number, &mut self.gifts, errands);
        log.add(
            &mut self.keeper,
            &Event::Ended {
                now,
                place,
                number,
                is_by_reader: false,
                gave: gifts(errands),
            },
        );
        ended
    }
}
