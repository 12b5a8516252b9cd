//! The limits of Hashkarst. Each is the definition of its name in `specs/Limits.antt`, where its
//! source stands.

ghost use Rattle.std.specs.Prelude.{◌≡◌, ◌+◌, ◌*◌, ◌-◌, ◌^◌};
ghost use Rattle.ipc_words.specs.Limits.{max_thread_number, max_space, table_slots, max_connections};
ghost use Rattle.ipc_words.specs.Limits.{max_message_words, max_strings, max_string_bytes};
ghost use Rattle.ipc_words.specs.Limits.{max_buffer_words, max_substrings, substring_length_limit};
ghost use Rattle.ipc_words.specs.Limits.{last_moment, max_entries, max_calls, block_bytes};
ghost use Rattle.ipc_words.specs.Limits.{max_outputs, max_command_entries};
ghost use Rattle.ipc_words.specs.Limits.{need_of_open, need_of_call, need_of_block, need_of_exchange};
ghost use Rattle.ipc_words.specs.Limits.{pledge_of_thread, pledge_of_open_call, pledge_of_block};
ghost use Rattle.ipc_words.specs.Limits.{max_line_bytes, max_frame_body, max_pieces};
ghost use Rattle.ipc_words.specs.Limits.{max_chart_entry};

/// The greatest thread number; the least is 1.
pub const MAX_THREAD_NUMBER: u32 = 1_023;

/// What K1 means, for people: the limits of thread numbers and spaces.
pub const THREADS_AND_SPACES: &str =
    "the thread number is not 1 to 1023, or the space is not 1 to 64";

/// The greatest address space; the least is 1.
pub const MAX_SPACE: u32 = 64;

/// The slots of a table of threads, one for each number from 0.
pub const TABLE_SLOTS: usize = 1_024;

/// The greatest number of a connection; the first is 1, and none is used twice.
pub const MAX_CONNECTIONS: u32 = 65_535;

/// The most words of a message, untyped and typed together: MR1 to MR63.
pub const MAX_MESSAGE_WORDS: usize = 63;

/// The most strings of a message.
pub const MAX_STRINGS: usize = 31;

/// The most bytes that the strings of a message have together.
pub const MAX_STRING_BYTES: usize = 1_048_576;

/// The most words that spell the buffer strings of a frame: BR1 to BR32.
pub const MAX_BUFFER_WORDS: usize = 32;

/// The most substrings that the buffer strings of a call have together.
pub const MAX_SUBSTRINGS: usize = 31;

/// The length of a substring, in bytes, is below this.
pub const SUBSTRING_LENGTH_LIMIT: u64 = 0x40_0000_0000_0000;

/// The last moment of the clock, in microseconds.
pub const LAST_MOMENT: u64 = 0x7fff_ffff_ffff_ffff;

/// The greatest limit of the entries of a history.
pub const MAX_ENTRIES: u64 = 1_048_576;

/// The greatest number of a call.
pub const MAX_CALLS: u64 = 4_294_967_295;

/// The most bytes of one copy.
pub const BLOCK_BYTES: u64 = 65_536;

/// The most outputs that an input brings: four for each thread number.
pub const MAX_OUTPUTS: usize = 4_092;

/// The most entries that a command appends: an `At`, its input, and its outputs.
pub const MAX_COMMAND_ENTRIES: usize = 4_094;

/// The entries that an open may need.
pub const NEED_OF_OPEN: u64 = 4;

/// The entries that a call may need, its strings aside.
pub const NEED_OF_CALL: u64 = 7;

/// The entries that a call may need more for each block of its strings.
pub const NEED_OF_BLOCK: u64 = 2;

/// The entries that an ExchangeRegisters may need.
pub const NEED_OF_EXCHANGE: u64 = 2;

/// The entries that are kept free for each live thread.
pub const PLEDGE_OF_THREAD: u64 = 2;

/// The entries that are kept free for each open call, its strings aside.
pub const PLEDGE_OF_OPEN_CALL: u64 = 5;

/// The entries that are kept free more for each block of the strings of an open call.
pub const PLEDGE_OF_BLOCK: u64 = 2;

/// The most bytes of the line of an entry, without its newline.
pub const MAX_LINE_BYTES: usize = 2_105_343;

/// The most bytes of the body of a frame.
pub const MAX_FRAME_BODY: usize = 2_097_152;

/// The most pieces of an IPCR frame.
pub const MAX_PIECES: usize = 255;

/// The greatest number of an entry at which a chart may begin or end.
pub const MAX_CHART_ENTRY: u64 = 4_294_967_295;

/// The limits of threads, spaces and connections are those of the definitions.
pub fn thread_limits_are_defined()
    ensures number { MAX_THREAD_NUMBER ≡ max_thread_number }
    ensures space { MAX_SPACE ≡ max_space }
    ensures slots { TABLE_SLOTS ≡ table_slots }
    ensures connections { MAX_CONNECTIONS ≡ max_connections }
{}

/// The limits of a message and of the buffer strings of a call are those of the definitions.
pub fn message_limits_are_defined()
    ensures words { MAX_MESSAGE_WORDS ≡ max_message_words }
    ensures strings { MAX_STRINGS ≡ max_strings }
    ensures bytes { MAX_STRING_BYTES ≡ max_string_bytes }
    ensures buffer_words { MAX_BUFFER_WORDS ≡ max_buffer_words }
    ensures substrings { MAX_SUBSTRINGS ≡ max_substrings }
    ensures length { SUBSTRING_LENGTH_LIMIT ≡ substring_length_limit }
{}

/// The limits of time and of a history are those of the definitions.
pub fn history_limits_are_defined()
    ensures moment { LAST_MOMENT ≡ last_moment }
    ensures entries { MAX_ENTRIES ≡ max_entries }
    ensures calls { MAX_CALLS ≡ max_calls }
    ensures block { BLOCK_BYTES ≡ block_bytes }
    ensures outputs { MAX_OUTPUTS ≡ max_outputs }
    ensures command { MAX_COMMAND_ENTRIES ≡ max_command_entries }
{}

/// Each need and each pledge is that of the definitions.
pub fn room_is_defined()
    ensures open { NEED_OF_OPEN ≡ need_of_open }
    ensures call { NEED_OF_CALL ≡ need_of_call }
    ensures block { NEED_OF_BLOCK ≡ need_of_block }
    ensures exchange { NEED_OF_EXCHANGE ≡ need_of_exchange }
    ensures live { PLEDGE_OF_THREAD ≡ pledge_of_thread }
    ensures pending { PLEDGE_OF_OPEN_CALL ≡ pledge_of_open_call }
    ensures pledged { PLEDGE_OF_BLOCK ≡ pledge_of_block }
{}

/// The limits of lines, frames and charts are those of the definitions.
pub fn format_limits_are_defined()
    ensures line { MAX_LINE_BYTES ≡ max_line_bytes }
    ensures frame { MAX_FRAME_BODY ≡ max_frame_body }
    ensures pieces { MAX_PIECES ≡ max_pieces }
    ensures chart { MAX_CHART_ENTRY ≡ max_chart_entry }
{}

/// The limits hang together: a slot for each number from 0, two words for each string, four outputs
/// for each number and two entries more for a command.
pub fn limits_hang_together()
    ensures slots { table_slots ≡ max_thread_number + 1 }
    ensures strings { max_message_words ≡ 2 * max_strings + 1 }
    ensures moment { last_moment + 1 ≡ 2 ^ 63 }
    ensures outputs { max_outputs ≡ 4 * max_thread_number }
    ensures command { max_command_entries ≡ max_outputs + 2 }
{}
