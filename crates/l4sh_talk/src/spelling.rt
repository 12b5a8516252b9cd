use ipc_lines::{HexText, read_decimal, read_id};
use ipc_words::ThreadId;
use l4sh_explain::read_number;
use std::alloc::AllocError;

/// An id as it is typed: as in a script, or a thread number alone for its first version.
pub fn read_thread(word: &[u8]) -> Option<ThreadId> {
    match read_decimal(word) {
        Some(number) => ThreadId::global(u32::try_from(number).ok()?, 1),
        None => read_id(word),
    }
}

/// The phases that an ExchangeRegisters stops.
#[derive(Clone, Copy)]
pub(crate) enum Stop {
    Nothing,
    Receive,
    Send,
    Both,
}

impl Stop {
    ghost use Rattle.std.specs.Prelude.{◌≡◌, IfSome, Some};
    ghost use Rattle.l4sh_talk.specs.Stops.{control_of, stop_name};
    ghost use Rattle.l4sh_talk.specs.declared.spelling.Stop.{Stop};

    /// The phases of a word.
    pub(crate) fn read(word: &[u8]) -> Option<Stop>
        ensures found { IfSome result (λ stop. word.now ≡ stop_name stop) }
        ensures only { (stop : Stop) → word.now ≡ stop_name stop → result ≡ Some stop }
    {
        match word {
            b"nothing" => Some(Stop::Nothing),
            b"receive" => Some(Stop::Receive),
            b"send" => Some(Stop::Send),
            b"both" => Some(Stop::Both),
            _ => None,
        }
    }

    /// The word of the control: R is bit 1, S is bit 2.
    pub(crate) fn control(self) -> u64
        ensures { result ≡ control_of self }
    {
        match self {
            Stop::Nothing => 0,
            Stop::Receive => 2,
            Stop::Send => 4,
            Stop::Both => 6,
        }
    }
}

/// The control of a word: phases, or a number.
pub fn read_control(word: &[u8]) -> Option<u64> {
    match Stop::read(word) {
        Some(stop) => Some(stop.control()),
        None => read_number(word),
    }
}

/// Whether a byte stands between two values of a list.
pub(crate) fn is_comma(byte: &u8) -> bool {
    *byte == b','
}

/// Appends numbers that are typed with commas between them, in HEX. False where one is none.
pub(crate) fn put_numbers(text: &mut String, list: &[u8]) -> Result<bool, AllocError> {
    let mut is_first = true;
    for word in list.split(is_comma) {
        let Some(number) = read_number(word) else {
            return Ok(false);
        };
        if !is_first {
            text.push_str(",")?;
        }
        is_first = false;
        write!(text, "{}", HexText(number))?;
    }
    Ok(true)
}

/// Appends a string as a script has it: `x` and its bytes in hexadecimal.
pub(crate) fn put_string(text: &mut String, bytes: &[u8]) -> Result<(), AllocError> {
    text.push_str("x")?;
    for byte in bytes {
        write!(text, "{byte:02x}")?;
    }
    Ok(())
}
