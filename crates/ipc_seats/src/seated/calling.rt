//! The calls that are made by a seat.
ghost use Rattle.std.specs.Prelude.{◌≡◌, ◌+◌, ◌≤◌, None, Some, length};
ghost use Rattle.std.specs.Prelude.{IfOk, IfErr, IfSome, OnOk, OnErr, IfNone};
ghost use Rattle.ipc_core.specs.Effects.{Exchanges, Gives};
ghost use Rattle.ipc_words.specs.Limits.{max_command_entries};
ghost use Rattle.ipc_words.specs.ThreadId.{number_of};
ghost use Rattle.ipc_core.specs.Obeying.{MayObey, enter_answer, exreg_result};
ghost use Rattle.ipc_core.specs.Room.{LacksRoomFor, exreg_need, open_need};
ghost use Rattle.ipc_core.specs.declared.command.Answer.TheVariants as answer;
ghost use Rattle.ipc_core.specs.declared.command.Command.TheVariants as command;
ghost use Rattle.ipc_core.specs.Outcomes.{made_by, taken_by};
ghost use Rattle.ipc_core.specs.Refusals.{enter_refusal, exreg_refusal, open_refusal};
ghost use Rattle.ipc_core.specs.Steps.{Enters, MayRefuse, Opens};
ghost use Rattle.ipc_seats.specs.Opens.{opens};
ghost use Rattle.ipc_seats.specs.Seats.{SeatObeys, SeatRefuses, TakesNothing};

use super::{CallSeat, Locked, TakeSeat, Taken};
use ipc_core::{EnterRefused, ExregAnswer, NoThread, Refusal};
use ipc_history::Call;
use ipc_words::{Control, ThreadId};
use std::marker::PhantomData;
use std::sync::ledger::Ledger;

impl<C: Ledger, T: Ledger> Locked<C, T> {
    /// Opens the thread of a number in a space, and makes its seats. The refusals are K1, K2, K3,
    /// K5 and K4, which comes only where the history's room is less than an open needs.
    pub fn open_seated(
        &mut self,
        number: u64,
        space: u64,
    ) -> Result<(ThreadId, CallSeat<C>, TakeSeat<T>), Refusal>
        ensures ok { IfOk result (λ opened. (open_refusal self.old.kernel number space ≡ None)
            × Opens self.old.kernel self.new.kernel number space opened.0) }
        ensures number { IfOk result (λ opened. number_of opened.0 ≡ number) }
        ensures call_seat { IfOk result (λ opened. (opened.1.thread ≡ opened.0)
            × (opened.1.made ≡ 0)) }
        ensures take_seat { IfOk result (λ opened. (opened.2.thread ≡ opened.0)
            × (opened.2.taken ≡ 0)) }
        ensures cause { IfErr result (λ refusal. MayRefuse
            (open_refusal self.old.kernel number space) refusal) }
        ensures memory { result ≡ Err Refusal.NoMemory → LacksRoomFor self.old.kernel open_need }
        ensures err { OnErr result (self.new.kernel ≡ self.old.kernel) }
        ensures opens { IfOk result (λ opened. MayObey self.old.kernel (command.Open number space)
            (answer.Opened opened.0)
            self.new.kernel) }
        ensures refuses { IfErr result (λ refusal. MayObey self.old.kernel
            (command.Open number space)
            (answer.Refused refusal) self.new.kernel) }
        ensures few { length self.new.kernel.history ≤ length self.old.kernel.history
            + max_command_entries }
    {
        let Locked {
            kernel,
            calls_left,
            takes_left,
            ..
        } = self;
        // a history has fewer entries than a ledger has parts
        let _ = kernel.history();
        let thread = kernel.open(number, space)?;
        let _ = kernel.history();
        let made = calls_left.split_off(1, 0);
        let taken = takes_left.split_off(1, 0);
        Ok((
            thread,
            CallSeat {
                thread,
                made: 0,
                share: made,
            },
            TakeSeat {
                thread,
                taken: 0,
                share: taken,
            },
        ))
    }

    /// Enters a call of the seat's thread. K6 also where the seat's amount is not the kernel's
    /// count for its thread. A call that is refused is handed back, and the seat is unchanged.
    pub fn enter_seated(&mut self, seat: &mut CallSeat<C>, call: Call) -> Result<u64, EnterRefused>
        ensures ok { IfOk result (λ number. (enter_refusal self.old.kernel
            seat.old.thread call ≡ None)
            × Enters self.old.kernel self.new.kernel number seat.old.thread call) }
        ensures counted { OnOk result (seat.old.made
            ≡ made_by self.old.kernel.history seat.old.thread) }
        ensures made { OnOk result (seat.new.made ≡ seat.old.made + 1) }
        ensures book { OnOk result (self.new.calls.total ≡ self.old.calls.total + 1) }
        ensures thread { seat.new.thread ≡ seat.old.thread }
        ensures cause { IfErr result (λ refused. SeatRefuses seat.old.made
            (made_by self.old.kernel.history seat.old.thread)
            (enter_refusal self.old.kernel seat.old.thread call) refused.refusal) }
        ensures back { IfErr result (λ refused. refused.call ≡ call) }
        ensures err { OnErr result (self.new.kernel ≡ self.old.kernel) }
        ensures err_seat { OnErr result (seat.new.made ≡ seat.old.made) }
        ensures err_book { OnErr result (self.new.calls.total ≡ self.old.calls.total) }
        ensures obeys { SeatObeys seat.old.made (made_by self.old.kernel.history seat.old.thread)
            self.old.kernel (command.Enter seat.old.thread call)
            (enter_answer result) self.new.kernel }
        ensures few { length self.new.kernel.history ≤ length self.old.kernel.history
            + max_command_entries }
    {
        let Locked { kernel, calls, .. } = self;
        let CallSeat {
            thread,
            made,
            share,
        } = seat;
        // a thread made fewer calls than there are entries
        let _ = kernel.history();
        if kernel.made(*thread) != *made {
            return Err(EnterRefused {
                refusal: Refusal::NoThread,
                call,
            });
        }
        let number = kernel.enter(*thread, call)?;
        let _ = kernel.history();
        calls.add(share, 1);
        *made += 1;
        Ok(number)
    }

    /// Stops phases of a target for the seat's thread. K6 also where the seat's amount is not the
    /// kernel's count; K4 only where the history's room is less than this needs.
    pub fn exreg_seated(
        &mut self,
        seat: &CallSeat<C>,
        target: ThreadId,
        control: Control,
    ) -> Result<ExregAnswer, Refusal>
        ensures ok { IfOk result (λ answer. (exreg_refusal self.old.kernel seat.now.thread ≡ None)
            × Exchanges self.old.kernel self.new.kernel seat.now.thread target control answer) }
        ensures counted { OnOk result (seat.now.made
            ≡ made_by self.old.kernel.history seat.now.thread) }
        ensures cause { IfErr result (λ refusal. SeatRefuses seat.now.made
            (made_by self.old.kernel.history seat.now.thread)
            (exreg_refusal self.old.kernel seat.now.thread) refusal) }
        ensures memory { result ≡ Err Refusal.NoMemory → LacksRoomFor self.old.kernel exreg_need }
        ensures err { OnErr result (self.new.kernel ≡ self.old.kernel) }
        ensures obeys { SeatObeys seat.now.made (made_by self.old.kernel.history seat.now.thread)
            self.old.kernel (command.Exreg seat.now.thread target control)
            (exreg_result result) self.new.kernel }
        ensures few { length self.new.kernel.history ≤ length self.old.kernel.history
            + max_command_entries }
    {
        let Locked { kernel, .. } = self;
        if kernel.made(seat.thread) != seat.made {
            return Err(Refusal::NoThread);
        }
        let answer = kernel.exreg(seat.thread, target, control);
        let _ = kernel.history();
        answer
    }

    /// The outcome of the seat's thread's last call, once, where the call is over. None also where
    /// the seat's amount is not the kernel's count for its thread. Takes no memory.
    pub fn take_seated(&mut self, seat: &mut TakeSeat<T>) -> Option<Taken<T>>
        ensures some { IfSome result (λ taken. Gives self.old.kernel self.new.kernel seat.old.thread
            (Some taken.outcome)) }
        ensures named { IfSome result (λ taken. (taken.thread ≡ seat.old.thread)
            × (taken.amount ≡ seat.new.taken)) }
        ensures counted { IfSome result (λ _. seat.old.taken
            ≡ taken_by self.old.kernel seat.old.thread) }
        ensures numbered { IfSome result (λ taken. made_by self.old.kernel.history
            seat.old.thread ≡ taken.amount) }
        ensures taken { IfSome result (λ _. seat.new.taken ≡ seat.old.taken + 1) }
        ensures book { IfSome result (λ _. self.new.takes.total ≡ self.old.takes.total + 1) }
        ensures thread { seat.new.thread ≡ seat.old.thread }
        ensures none { IfNone result (TakesNothing self.old.kernel self.new.kernel
            seat.old.thread seat.old.taken) }
        ensures none_seat { IfNone result (seat.new.taken ≡ seat.old.taken) }
        ensures none_book { IfNone result (self.new.takes.total ≡ self.old.takes.total) }
    {
        let Locked { kernel, takes, .. } = self;
        let TakeSeat {
            thread,
            taken,
            share,
        } = seat;
        if kernel.taken(*thread) != *taken {
            return None;
        }
        // all calls of a live thread but its last were taken
        let _ = kernel.history();
        let outcome = kernel.take(*thread)?;
        // a count of outcomes fits
        let _ = kernel.takes();
        takes.add(share, 1);
        *taken += 1;
        Some(Taken {
            thread: *thread,
            amount: *taken,
            outcome,
            marker: PhantomData,
        })
    }
}
