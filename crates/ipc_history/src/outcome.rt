use ipc_items::{BufferList, StringList};
use ipc_words::{IpcError, MsgTag, ThreadId};
use std::marker::Model;

/// What the caller of a call is told, seen as its parts (L4 X.2 manual, Ipc: output parameters).
///
/// The words are as many as the tag says, and no more than a message has.
#[derive(Drop)]
pub struct Outcome {
    /// The number of the call.
    pub call: u64,
    /// The moment at which the call was over, in microseconds.
    pub moment: u64,
    /// The tag that is received; E alone where the call failed.
    pub tag: MsgTag,
    /// The sender that is shown; nilthread where nothing was received.
    pub sender: ThreadId,
    /// The ActualSender where p is set, else nilthread.
    pub actual: ThreadId,
    /// The ErrorCode, 0 where the call was successful.
    pub error: IpcError,
    /// MR1 on: the untyped words, then two words for each string.
    pub words: Vec<u64>,
    /// The strings that were received.
    pub strings: StringList,
    /// The buffer strings that they fill.
    pub buffers: BufferList,
}

impl Model for Outcome {
    ghost use Rattle.ipc_history.specs.Outcomes.{OutcomeParts, HasItsWords};

    ghost Value = { OutcomeParts };

    ghost view = { λ o.
        record {
          call = o.call;
          moment = o.moment;
          tag = o.tag;
          sender = o.sender;
          actual = o.actual;
          error = o.error;
          words = o.words.items;
          strings = o.strings;
          buffers = o.buffers;
        } };

    ghost invariant = { λ o. HasItsWords o.tag o.words.items };
}
