ghost use Rattle.std.specs.Prelude.{◌≡◌, ◌≢◌, ◌<◌, ◌+◌, ◌*◌, ◌-◌, ◌≤◌, length, false};
ghost use Rattle.std.specs.Prelude.{Some, None, IsTrue, IfOk, IfErr, OnOk, OnErr};
ghost use Rattle.ipc_words.specs.Limits.{max_command_entries};
ghost use Rattle.ipc_words.specs.ThreadId.{number_of, version_of};
ghost use Rattle.ipc_history.specs.Threads.{is_live};
ghost use Rattle.ipc_laws.specs.Counting.{pledged};
ghost use Rattle.ipc_core.specs.Effects.{Breaks};
ghost use Rattle.ipc_core.specs.Obeying.{MayObey, broke_answer, open_answer};
ghost use Rattle.ipc_core.specs.Refusals.{open_refusal};
ghost use Rattle.ipc_core.specs.Ranges.{is_out_of_range};
ghost use Rattle.ipc_core.specs.Room.{LacksRoomFor, open_need};
ghost use Rattle.ipc_core.specs.Steps.{MayRefuse, Opens};
ghost use Rattle.ipc_core.specs.declared.command.Command.TheVariants as command;

use crate::answers::NoThread;
use crate::kernel::Kernel;
use crate::refusal::Refusal;
use ipc_base::Memory;
use ipc_history::Input;
use ipc_words::ThreadId;
use ipc_words::limits::{MAX_SPACE, MAX_THREAD_NUMBER, NEED_OF_OPEN};

impl Kernel {
    /// Opens the thread of a number, 1 to [`MAX_THREAD_NUMBER`], in a space, 1 to [`MAX_SPACE`],
    /// and answers its id, with the next version of the number. The refusals are K1, K2, K3, K5 and
    /// K4, the first that applies; K4 only where the history has less room than for its entries,
    /// what is pledged and what an open needs.
    pub fn open(&mut self, number: u64, space: u64) -> Result<ThreadId, Refusal>
        ensures ok { IfOk result (λ thread. (open_refusal self.old number space ≡ None)
            × Opens self.old self.new number space thread) }
        ensures cause { IfErr result (λ refusal. MayRefuse
            (open_refusal self.old number space) refusal) }
        ensures memory { result ≡ Err Refusal.NoMemory → LacksRoomFor self.old open_need }
        ensures err { OnErr result (self.new ≡ self.old) }
        ensures obeys { MayObey self.old (command.Open number space) (open_answer result) self.new }
        ensures few { length self.new.history ≤ length self.old.history + max_command_entries }
    {
        self.open_in(self.alloc, number, space)
    }

    /// Opens a thread as [`Kernel::open`] does, with memory that is lent. Where it is ample K4 does
    /// not come.
    pub fn open_in<M: Memory>(
        &mut self,
        memory: M,
        number: u64,
        space: u64,
    ) -> Result<ThreadId, Refusal>
        ensures ok { IfOk result (λ thread. (open_refusal self.old number space ≡ None)
            × Opens self.old self.new number space thread) }
        ensures cause { IfErr result (λ refusal. MayRefuse
            (open_refusal self.old number space) refusal) }
        ensures memory { result ≡ Err Refusal.NoMemory → LacksRoomFor self.old open_need }
        ensures err { OnErr result (self.new ≡ self.old) }
        ensures obeys { MayObey self.old (command.Open number space) (open_answer result) self.new }
        ensures few { length self.new.history ≤ length self.old.history + max_command_entries }
        ensures ample { M.is_ample → IfErr result (λ refusal. refusal ≢ Refusal.NoMemory) }
    {
        let opened = self.open_thread(memory, number, space);
        // its contract says that the history is legal
        let _ = self.history();
        opened
    }

    fn open_thread<M: Memory>(
        &mut self,
        memory: M,
        number: u64,
        space: u64,
    ) -> Result<ThreadId, Refusal>
        ensures ok { IfOk result (λ thread. (open_refusal self.old number space ≡ None)
            × Opens self.old self.new number space thread) }
        ensures cause { IfErr result (λ refusal. MayRefuse
            (open_refusal self.old number space) refusal) }
        ensures memory { result ≡ Err Refusal.NoMemory → LacksRoomFor self.old open_need }
        ensures err { OnErr result (self.new ≡ self.old) }
        ensures ample { M.is_ample → IfErr result (λ refusal. refusal ≢ Refusal.NoMemory) }
    {
        if is_out_of_range(number, space) {
            return Err(Refusal::BadNumber);
        }
        let narrowed = number as u32;
        if self.course.is_taken(narrowed) {
            return Err(Refusal::NumberTaken);
        }
        let Some(version) = self.course.next_version_of(narrowed) else {
            return Err(Refusal::NumberWorn);
        };
        let Some(room) = self.room_for(NEED_OF_OPEN) else {
            return Err(Refusal::HistoryFull);
        };
        let Ok(()) = self.course.make_room(memory, room, NEED_OF_OPEN) else {
            return Err(Refusal::NoMemory);
        };
        let thread = thread_id(narrowed, version);
        self.course
            .take_input(self.moment, Input::Opened(thread, space), None);
        Ok(thread)
    }

    /// Ends a live thread. Takes no memory. The only refusal is K6.
    pub fn broke(&mut self, thread: ThreadId) -> Result<(), NoThread>
        ensures ok { OnOk result (IsTrue (is_live self.old.history thread)
            × Breaks self.old self.new thread) }
        ensures gone { OnErr result (is_live self.old.history thread ≡ false) }
        ensures err { OnErr result (self.new ≡ self.old) }
        ensures obeys { MayObey self.old (command.Broke thread) (broke_answer result) self.new }
        ensures few { length self.new.history ≤ length self.old.history + max_command_entries }
    {
        let broke = self.end_thread(thread);
        // its contract says that the history is legal
        let _ = self.history();
        broke
    }

    fn end_thread(&mut self, thread: ThreadId) -> Result<(), NoThread>
        ensures ok { OnOk result (IsTrue (is_live self.old.history thread)
            × Breaks self.old self.new thread) }
        ensures gone { OnErr result (is_live self.old.history thread ≡ false) }
        ensures err { OnErr result (self.new ≡ self.old) }
    {
        if !self.course.is_live(thread) {
            return Err(NoThread);
        }
        self.course
            .take_input(self.moment, Input::Broke(thread), None);
        Ok(())
    }
}

/// Whether no thread may have this number in this space.
fn is_out_of_range(number: u64, space: u64) -> bool
    ensures { result ≡ is_out_of_range number space }
{
    let most = u64::from(MAX_THREAD_NUMBER);
    let spaces = u64::from(MAX_SPACE);
    number < 1 || number > most || space < 1 || space > spaces
}

/// The id of a number and a version.
fn thread_id(number: u32, version: u32) -> ThreadId
    ensures number { number_of result ≡ number }
    ensures version { version_of result ≡ version }
{
    ThreadId::from_word(u64::from(number) * 0x1_0000_0000 + u64::from(version))
}
