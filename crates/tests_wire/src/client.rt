// The client over ports in memory, where no program shows it: a device that fails, and answers of
// version 2.
use crate::comparing::same;
use ipc_base::{MemoryPort, Trouble};
use ipc_client::{Answer, Buffers, Client, ClientError, Greeting, Registers, Timeout};
use ipc_frame::{CallEnd, FrameFault, WireVersion};
use ipc_words::{Control, ThreadId};
use std::alloc::Global;
use std::process::Abort;

// WELCOME 2.1
const WELCOME: [u8; 13] = [0, 0, 0, 9, 0x81, 0, 0, 0, 2, 0, 0, 0, 1];

const SECOND: u64 = 0x2_0000_0001;

// What HELLO and BYE are answered.
type Answers = (Result<Greeting, ClientError>, Result<(), ClientError>);

// What they are answered byte by byte, where the read of the first number meets trouble, and the
// write of the second.
fn hello_and_bye(alloc: Global, read: u64, write: u64, trouble: Trouble) -> Answers {
    let reader = MemoryPort::new(alloc, &WELCOME).byte_by_byte();
    let mut reader = reader.with_trouble(read, trouble);
    let writer = MemoryPort::new(alloc, &[]).byte_by_byte();
    let mut writer = writer.with_trouble(write, trouble);
    let mut client = Client::new(alloc, &mut reader, &mut writer);
    let greeting = client.hello(2);
    (greeting, client.bye())
}

// The same where HELLO meets a fault, or BYE does.
fn answers_at(hello: Option<FrameFault>, bye: Option<FrameFault>) -> Answers {
    if let Some(fault) = hello {
        return (Err(ClientError::Frame(fault)), Err(ClientError::Closed));
    }
    let welcome = Ok(Greeting::Welcome(ThreadId::from_word(SECOND)));
    match bye {
        Some(fault) => (welcome, Err(ClientError::Frame(fault))),
        None => (welcome, Ok(())),
    }
}

// The fault, where the call is one of the first so many.
fn among_first(call: u64, many: u64, fault: Option<FrameFault>) -> Option<FrameFault> {
    if call < many { fault } else { None }
}

// The number of no call.
const NO_CALL: u64 = 99;

// The 13 bytes of WELCOME are 13 reads; HELLO is 7 writes and a flush, BYE 5 writes and a flush.
fn assert_trouble(
    rt: &impl Abort,
    alloc: Global,
    call: u64,
    trouble: Trouble,
    fault: Option<FrameFault>,
) {
    let answers = hello_and_bye(alloc, call, NO_CALL, trouble);
    same(rt, answers, answers_at(among_first(call, 13, fault), None));
    let answers = hello_and_bye(alloc, NO_CALL, call, trouble);
    let hello = among_first(call, 8, fault);
    let bye = among_first(call, 14, fault);
    same(rt, answers, answers_at(hello, bye));
}

#[test]
fn a_device_that_fails_closes_the_client(rt: HostRuntime) {
    let cases = [
        (Trouble::Fails, Some(FrameFault::Device)),
        (Trouble::Interrupted(1000), Some(FrameFault::Interrupted)),
        (Trouble::Interrupted(999), None),
    ];
    for (trouble, fault) in cases {
        for call in 0..16 {
            assert_trouble(&rt, rt.alloc(), call, trouble, fault);
        }
    }
}

// REFUSED K2, WELCOME 2.1, EXREGR 2.1, S, code 0
const OF_ONE: [u8; 48] = [
    0, 0, 0, 2, 0x84, 2, 0, 0, 0, 9, 0x81, 0, 0, 0, 2, 0, 0, 0, 1, 0, 0, 0, 0x19, 0x83, 0, 0, 0, 2,
    0, 0, 0, 1, 0, 0, 0, 0, 0, 0, 0, 4, 0, 0, 0, 0, 0, 0, 0, 0,
];

// The same in version 2, at moment 7, and the outcome of call 3 at moment 9: it failed.
const OF_TWO: [u8; 110] = [
    0, 0, 0, 2, 0x84, 2, 0, 0, 0, 9, 0x81, 0, 0, 0, 2, 0, 0, 0, 1, 0, 0, 0, 0x21, 0x87, 0, 0, 0, 0,
    0, 0, 0, 7, 0, 0, 0, 2, 0, 0, 0, 1, 0, 0, 0, 0, 0, 0, 0, 4, 0, 0, 0, 0, 0, 0, 0, 0, 0, 0, 0,
    0x32, 0x86, 0, 0, 0, 0, 0, 0, 0, 3, 0, 0, 0, 0, 0, 0, 0, 9, 0, 0, 0, 0, 0, 0, 0x80, 0, 0, 0, 0,
    0, 0, 0, 0, 0, 0, 0, 0, 0, 0, 0, 0, 0, 0, 0, 0, 0, 0, 0, 0, 4, 0,
];

fn end_of(answer: Result<Answer, ClientError>) -> Option<CallEnd> {
    match answer {
        Ok(Answer::Outcome(outcome)) => outcome.end(),
        _ => None,
    }
}

// What a client is answered that is welcomed in version 2, after a HELLO that was refused in
// version 1: what an ExchangeRegisters of 2.1 is answered, and which call a receive was.
fn answers_in_two(
    alloc: Global,
    input: &[u8],
) -> (Result<Registers, ClientError>, Option<CallEnd>) {
    let mut reader = MemoryPort::new(alloc, input);
    let mut writer = MemoryPort::new(alloc, &[]);
    let mut client = Client::new(alloc, &mut reader, &mut writer);
    let _ = client.hello_version(2, WireVersion::One);
    let _ = client.hello_version(2, WireVersion::Two);
    let registers = client.exchange_registers(ThreadId::from_word(SECOND), Control::from_word(4));
    let none = Buffers::none(alloc);
    let answer = client.receive(ThreadId::ANYTHREAD, Timeout::never(), none);
    (registers, end_of(answer))
}

#[test]
fn an_answer_is_of_the_version_that_was_welcomed(rt: HostRuntime) {
    let exchanged = Registers::Exchanged {
        result: ThreadId::from_word(SECOND),
        control: Control::from_word(4),
        code: 0,
        moment: Some(7),
    };
    let end = CallEnd { call: 3, moment: 9 };
    same(
        &rt,
        answers_in_two(rt.alloc(), &OF_TWO),
        (Ok(exchanged), Some(end)),
    );
    let unexpected = (Err(ClientError::Unexpected), None);
    same(&rt, answers_in_two(rt.alloc(), &OF_ONE), unexpected);
}
