// The vectors of docs/FORMATS.md.
use ipc_frame::Side;

// HELLO 2
pub(crate) const HELLO: [u8; 7] = [0, 0, 0, 3, 0x01, 0, 2];

// to 1.1, tag 1, word 7
pub(crate) const IPC: [u8; 58] = [
    0, 0, 0, 0x36, 0x02, 0, 0, 0, 1, 0, 0, 0, 1, 0, 0, 0, 0, 0, 0, 0, 0, 0, 0, 0, 0, 0, 0, 0, 0, 0,
    0, 0, 0, 0, 0, 0, 0, 0, 0, 0, 1, 0, 0, 0, 0, 0, 0, 0, 0, 0, 0, 0, 0, 0, 0, 0, 0, 7,
];

// dest 2.1, S
pub(crate) const EXREG: [u8; 21] = [
    0, 0, 0, 0x11, 0x03, 0, 0, 0, 2, 0, 0, 0, 1, 0, 0, 0, 0, 0, 0, 0, 4,
];

pub(crate) const BYE: [u8; 5] = [0, 0, 0, 1, 0x04];

// 2.1
pub(crate) const WELCOME: [u8; 13] = [0, 0, 0, 9, 0x81, 0, 0, 0, 2, 0, 0, 0, 1];

// failed, error 4
pub(crate) const FAILED: [u8; 38] = [
    0, 0, 0, 0x22, 0x82, 0, 0, 0, 0, 0, 0, 0x80, 0, 0, 0, 0, 0, 0, 0, 0, 0, 0, 0, 0, 0, 0, 0, 0, 0,
    0, 0, 0, 0, 0, 0, 0, 4, 0,
];

// tag 0x80, sender 2.1, the string abc in the buffer at 0x1000
pub(crate) const RECEIVED: [u8; 69] = [
    0, 0, 0, 0x41, 0x82, 0, 0, 0, 0, 0, 0, 0, 0x80, 0, 0, 0, 2, 0, 0, 0, 1, 0, 0, 0, 0, 0, 0, 0, 0,
    0, 0, 0, 0, 0, 0, 0, 0, 0, 0, 0, 0, 0, 0, 0x0c, 0, 0, 0, 0, 0, 0, 0, 0x10, 0, 1, 0, 0, 0, 0, 0,
    0, 0x10, 0, 0, 0, 0, 3, 0x61, 0x62, 0x63,
];

// tag 0x100, sender 2.1, the string abc in the buffer at 0x1000, and of hello he at 0x2000 and llo
// at 0x3000
pub(crate) const SCATTERED: [u8; 114] = [
    0, 0, 0, 0x6e, 0x82, 0, 0, 0, 0, 0, 0, 1, 0, 0, 0, 0, 2, 0, 0, 0, 1, 0, 0, 0, 0, 0, 0, 0, 0, 0,
    0, 0, 0, 0, 0, 0, 0, 0, 0, 0, 0, 0, 0, 0x0c, 0, 0, 0, 0, 0, 0, 0, 0x10, 0, 0, 0, 0, 0, 0, 0,
    0x14, 0, 0, 0, 0, 0, 0, 0, 0x20, 0, 3, 0, 0, 0, 0, 0, 0, 0x10, 0, 0, 0, 0, 3, 0x61, 0x62, 0x63,
    0, 0, 0, 0, 0, 0, 0x20, 0, 0, 0, 0, 2, 0x68, 0x65, 0, 0, 0, 0, 0, 0, 0x30, 0, 0, 0, 0, 3, 0x6c,
    0x6c, 0x6f,
];

// 2.1, S, code 0
pub(crate) const EXREGR: [u8; 29] = [
    0, 0, 0, 0x19, 0x83, 0, 0, 0, 2, 0, 0, 0, 1, 0, 0, 0, 0, 0, 0, 0, 4, 0, 0, 0, 0, 0, 0, 0, 0,
];

// version 2: HELLO 2; the outcome of FAILED of call 1 at moment 0; EXREGR at moment 0
pub(crate) const HELLO_TWO: [u8; 9] = [0, 0, 0, 5, 0x01, 0, 2, 0, 2];

pub(crate) const FAILED_TWO: [u8; 54] = [
    0, 0, 0, 0x32, 0x86, 0, 0, 0, 0, 0, 0, 0, 1, 0, 0, 0, 0, 0, 0, 0, 0, 0, 0, 0, 0, 0, 0, 0x80, 0,
    0, 0, 0, 0, 0, 0, 0, 0, 0, 0, 0, 0, 0, 0, 0, 0, 0, 0, 0, 0, 0, 0, 0, 4, 0,
];

pub(crate) const EXREGR_TWO: [u8; 37] = [
    0, 0, 0, 0x21, 0x87, 0, 0, 0, 0, 0, 0, 0, 0, 0, 0, 0, 2, 0, 0, 0, 1, 0, 0, 0, 0, 0, 0, 0, 4, 0,
    0, 0, 0, 0, 0, 0, 0,
];

// K2
pub(crate) const REFUSED: [u8; 6] = [0, 0, 0, 2, 0x84, 2];

// All of them, with who reads them; the last five tell F1, F9, K7, F14 and F15.
pub(crate) const VECTORS: &[(Side, &[u8])] = &[
    (Side::Server, &HELLO),
    (Side::Server, &HELLO_TWO),
    (Side::Server, &IPC),
    (Side::Server, &EXREG),
    (Side::Server, &BYE),
    (Side::Client, &WELCOME),
    (Side::Client, &FAILED),
    (Side::Client, &RECEIVED),
    (Side::Client, &EXREGR),
    (Side::Client, &FAILED_TWO),
    (Side::Client, &EXREGR_TWO),
    (Side::Client, &REFUSED),
    (Side::Client, &[0, 0, 0, 3, 0x85, 0x46, 1]),
    (Side::Client, &[0, 0, 0, 3, 0x85, 0x46, 9]),
    (Side::Client, &[0, 0, 0, 3, 0x85, 0x4b, 7]),
    (Side::Client, &[0, 0, 0, 3, 0x85, 0x46, 14]),
    (Side::Client, &[0, 0, 0, 3, 0x85, 0x46, 15]),
];
