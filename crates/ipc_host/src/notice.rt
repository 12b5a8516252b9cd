//! What a server tells its clients, as its log says it.
use std::fmt;

/// What a client was told.
#[derive(Clone, Copy)]
pub enum Notice {
    /// EXREGR: an ExchangeRegisters was done.
    Exchanged,
    /// Nothing yet: there is no room for it.
    Waits,
    /// REFUSED, with the number of its K.
    Refused(u8),
    /// FAULT, with the letter of its class and its number.
    Fault(char, u8),
}

impl fmt::Display for Notice {
    fn fmt<W: fmt::Write>(&self, f: &mut fmt::Formatter<W>) -> fmt::Result {
        match self {
            Notice::Exchanged => write!(f, "exchanged"),
            Notice::Waits => write!(f, "no room yet"),
            Notice::Refused(number) => write!(f, "refused K{number}"),
            Notice::Fault(class, number) => write!(f, "fault {class}{number}"),
        }
    }
}

/// The letter of a class of faults.
pub fn class_letter(class: u8) -> char {
    if class.is_ascii_uppercase() {
        char::from(class)
    } else {
        '?'
    }
}
