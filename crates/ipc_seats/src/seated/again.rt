//! Seated calls that are made once more where the history was full.
ghost use Rattle.std.specs.Prelude.{◌≡◌, ◌+◌, ◌≤◌, IfErr, IfOk, OnErr, OnOk, length};
ghost use Rattle.ipc_words.specs.Limits.{max_command_entries};
ghost use Rattle.ipc_words.specs.ThreadId.{number_of};
ghost use Rattle.ipc_core.specs.Again.{MayObeyAgain, says_history_full};
ghost use Rattle.ipc_core.specs.Obeying.{enter_answer, exreg_result};
ghost use Rattle.ipc_core.specs.Outcomes.{made_by};
ghost use Rattle.ipc_core.specs.declared.command.Answer.TheVariants as answer;
ghost use Rattle.ipc_core.specs.declared.command.Command.TheVariants as command;
ghost use Rattle.ipc_seats.specs.Seats.{ObeysRoomy, SeatObeysAgain, SeatObeysRoomy};

use super::{CallSeat, Locked, TakeSeat};
use ipc_core::{EnterRefused, ExregAnswer, Refusal};
use ipc_history::Call;
use ipc_words::{Control, ThreadId};
use std::sync::ledger::Ledger;

/// Whether it is K5.
fn is_history_full(refusal: Refusal) -> bool
    ensures { result ≡ says_history_full (answer.Refused refusal) }
{
    matches!(refusal, Refusal::HistoryFull)
}

impl<C: Ledger, T: Ledger> Locked<C, T> {
    /// As [`Locked::open_seated`]. Where K5 would refuse it memory lets go of what is marked, and
    /// it is tried once more.
    pub(super) fn open_again(
        &mut self,
        number: u64,
        space: u64,
    ) -> Result<(ThreadId, CallSeat<C>, TakeSeat<T>), Refusal>
        ensures number { IfOk result (λ opened. number_of opened.0 ≡ number) }
        ensures call_seat { IfOk result (λ opened. (opened.1.thread ≡ opened.0)
            × (opened.1.made ≡ 0)) }
        ensures take_seat { IfOk result (λ opened. (opened.2.thread ≡ opened.0)
            × (opened.2.taken ≡ 0)) }
        ensures opens { IfOk result (λ opened. MayObeyAgain self.old.kernel.held.mark
            self.old.kernel (command.Open number space) (answer.Opened opened.0)
            self.new.kernel) }
        ensures refuses { IfErr result (λ refusal. MayObeyAgain self.old.kernel.held.mark
            self.old.kernel (command.Open number space) (answer.Refused refusal)
            self.new.kernel) }
        ensures few { length self.new.kernel.history ≤ length self.old.kernel.history
            + max_command_entries }
    {
        match self.open_seated(number, space) {
            Ok(opened) => Ok(opened),
            Err(refusal) => {
                if !is_history_full(refusal) {
                    return Err(refusal);
                }
                self.open_roomy(number, space)
            }
        }
    }

    /// As [`Locked::open_seated`], behind a compaction.
    fn open_roomy(
        &mut self,
        number: u64,
        space: u64,
    ) -> Result<(ThreadId, CallSeat<C>, TakeSeat<T>), Refusal>
        ensures number { IfOk result (λ opened. number_of opened.0 ≡ number) }
        ensures call_seat { IfOk result (λ opened. (opened.1.thread ≡ opened.0)
            × (opened.1.made ≡ 0)) }
        ensures take_seat { IfOk result (λ opened. (opened.2.thread ≡ opened.0)
            × (opened.2.taken ≡ 0)) }
        ensures opens { IfOk result (λ opened. ObeysRoomy self.old.kernel
            (command.Open number space) (answer.Opened opened.0) self.new.kernel) }
        ensures refuses { IfErr result (λ refusal. ObeysRoomy self.old.kernel
            (command.Open number space) (answer.Refused refusal) self.new.kernel) }
        ensures few { length self.new.kernel.history ≤ length self.old.kernel.history
            + max_command_entries }
    {
        let _ = self.compact_marked();
        self.open_seated(number, space)
    }

    /// As [`Locked::enter_seated`]. Where K5 would refuse it memory lets go of what is marked, and
    /// it is tried once more.
    pub(super) fn enter_again(
        &mut self,
        seat: &mut CallSeat<C>,
        call: Call,
    ) -> Result<u64, EnterRefused>
        ensures made { OnOk result (seat.new.made ≡ seat.old.made + 1) }
        ensures thread { seat.new.thread ≡ seat.old.thread }
        ensures back { IfErr result (λ refused. refused.call ≡ call) }
        ensures err_seat { OnErr result (seat.new.made ≡ seat.old.made) }
        ensures obeys { SeatObeysAgain seat.old.made
            (made_by self.old.kernel.history seat.old.thread)
            self.old.kernel (command.Enter seat.old.thread call)
            (enter_answer result) self.new.kernel }
        ensures few { length self.new.kernel.history ≤ length self.old.kernel.history
            + max_command_entries }
    {
        match self.enter_seated(seat, call) {
            Ok(number) => Ok(number),
            Err(refused) => {
                let refusal = refused.refusal;
                if !is_history_full(refusal) {
                    return Err(refused);
                }
                self.enter_roomy(seat, refused.call)
            }
        }
    }

    /// As [`Locked::enter_seated`], behind a compaction.
    fn enter_roomy(&mut self, seat: &mut CallSeat<C>, call: Call) -> Result<u64, EnterRefused>
        ensures made { OnOk result (seat.new.made ≡ seat.old.made + 1) }
        ensures thread { seat.new.thread ≡ seat.old.thread }
        ensures back { IfErr result (λ refused. refused.call ≡ call) }
        ensures err_seat { OnErr result (seat.new.made ≡ seat.old.made) }
        ensures obeys { SeatObeysRoomy seat.old.made seat.old.thread self.old.kernel
            (command.Enter seat.old.thread call) (enter_answer result) self.new.kernel }
        ensures few { length self.new.kernel.history ≤ length self.old.kernel.history
            + max_command_entries }
    {
        let _ = self.compact_marked();
        self.enter_seated(seat, call)
    }

    /// As [`Locked::exreg_seated`]. Where K5 would refuse it memory lets go of what is marked, and
    /// it is tried once more.
    pub(super) fn exreg_again(
        &mut self,
        seat: &CallSeat<C>,
        target: ThreadId,
        control: Control,
    ) -> Result<ExregAnswer, Refusal>
        ensures obeys { SeatObeysAgain seat.now.made
            (made_by self.old.kernel.history seat.now.thread)
            self.old.kernel (command.Exreg seat.now.thread target control)
            (exreg_result result) self.new.kernel }
        ensures few { length self.new.kernel.history ≤ length self.old.kernel.history
            + max_command_entries }
    {
        match self.exreg_seated(seat, target, control) {
            Ok(answer) => Ok(answer),
            Err(refusal) => {
                if !is_history_full(refusal) {
                    return Err(refusal);
                }
                self.exreg_roomy(seat, target, control)
            }
        }
    }

    /// As [`Locked::exreg_seated`], behind a compaction.
    fn exreg_roomy(
        &mut self,
        seat: &CallSeat<C>,
        target: ThreadId,
        control: Control,
    ) -> Result<ExregAnswer, Refusal>
        ensures obeys { SeatObeysRoomy seat.now.made seat.now.thread self.old.kernel
            (command.Exreg seat.now.thread target control) (exreg_result result) self.new.kernel }
        ensures few { length self.new.kernel.history ≤ length self.old.kernel.history
            + max_command_entries }
    {
        let _ = self.compact_marked();
        self.exreg_seated(seat, target, control)
    }
}
