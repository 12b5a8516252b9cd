//! The spelling of frames, put into a window.
ghost use Rattle.std.specs.Prelude.{◌≡◌, ◌≤◌, ◌<◌, ◌^◌, [], ◌∷◌, length};
ghost use Rattle.ipc_frame.specs.Numbers.{words_text};
ghost use Rattle.ipc_frame.specs.Parts.{piece_text, pieces_text};
ghost use Rattle.ipc_frame.specs.Frames.{outcome_widths, tail_of, spelling};
ghost use Rattle.ipc_frame.specs.Window.{page, passed, passed_numbers, passed_parts};

use crate::frame::Frame;
use crate::ipc::IpcFrame;
use crate::ipcr::{IpcrFrame, Placed};
use crate::version::{WireVersion, put_end};
use crate::window::Window;
use ipc_words::{Control, IpcError, MsgTag, ThreadId};

#[inline(always)]
pub(crate) fn put_words(window: &mut Window, out: &mut [u8], words: &[u64])
    requires { window.old.filled ≤ length out.old }
    ensures shown { page window.new out.new ≡ passed (words_text words.now)
        (page window.old out.old) }
    ensures within { window.new.filled ≤ length out.new }
{
    for word in words {
        window.put_u64(out, *word);
    }
}

// A piece: its pointer, its length and its bytes.
pub(crate) fn put_piece(window: &mut Window, out: &mut [u8], pointer: u64, bytes: &[u8])
    requires within { window.old.filled ≤ length out.old }
    requires small { length bytes.now < 2 ^ 32 }
    ensures shown { page window.new out.new
        ≡ passed (piece_text (record { pointer = pointer; bytes = bytes.now }))
        (page window.old out.old) }
    ensures within { window.new.filled ≤ length out.new }
{
    window.put_u64(out, pointer);
    window.put_u32(out, bytes.len() as u32);
    window.put(out, bytes);
}

fn put_pieces(window: &mut Window, out: &mut [u8], pieces: &[Placed])
    requires within { window.old.filled ≤ length out.old }
    requires small { length (pieces_text pieces.now) < 2 ^ 32 }
    ensures shown { page window.new out.new ≡ passed (pieces_text pieces.now)
        (page window.old out.old) }
    ensures within { window.new.filled ≤ length out.new }
{
    for piece in pieces {
        put_piece(window, out, piece.pointer(), piece.bytes());
    }
}

// The words, the buffer words and the payload.
fn put_ipc_tail(window: &mut Window, out: &mut [u8], ipc: &IpcFrame)
    requires { window.old.filled ≤ length out.old }
    ensures shown { page window.new out.new ≡ passed (tail_of (Frame.Ipc ipc.now))
        (page window.old out.old) }
    ensures within { window.new.filled ≤ length out.new }
{
    put_words(window, out, ipc.words());
    put_words(window, out, ipc.buffer_words());
    window.put(out, ipc.payload());
}

// The words, how many pieces there are, and the pieces.
fn put_ipcr_tail(window: &mut Window, out: &mut [u8], ipcr: &IpcrFrame)
    requires { window.old.filled ≤ length out.old }
    ensures shown { page window.new out.new ≡ passed (tail_of (Frame.Ipcr ipcr.now))
        (page window.old out.old) }
    ensures within { window.new.filled ≤ length out.new }
{
    let pieces = ipcr.pieces();
    put_words(window, out, ipcr.words());
    window.put_u8(out, pieces.len() as u8);
    put_pieces(window, out, pieces);
}

// The numbers of an outcome that all versions tell.
#[inline(always)]
pub(crate) fn put_ipcr_numbers(
    window: &mut Window,
    out: &mut [u8],
    tag: MsgTag,
    sender: ThreadId,
    actual: ThreadId,
    error: IpcError,
)
    requires { window.old.filled ≤ length out.old }
    ensures shown { page window.new out.new ≡ passed_numbers outcome_widths
        (tag ∷ sender ∷ actual ∷ error ∷ []) (page window.old out.old) }
    ensures within { window.new.filled ≤ length out.new }
{
    window.put_u64(out, tag.to_word());
    window.put_u64(out, sender.to_word());
    window.put_u64(out, actual.to_word());
    window.put_u64(out, error.to_word());
}

// A HELLO behind its kind.
#[tactic(auto, unfolding(crate::specs::Window::passed_parts), using(crate::proofs::WindowLemmas::passed_nothing))]
fn put_hello(window: &mut Window, out: &mut [u8], number: u16, version: WireVersion)
    requires { window.old.filled ≤ length out.old }
    ensures shown { page window.new out.new ≡ passed_parts (Frame.Hello number version)
        (page window.old out.old) }
    ensures within { window.new.filled ≤ length out.new }
{
    window.put_u16(out, number);
    if version.is_named() {
        window.put_u16(out, version.number());
    }
}

// A call behind its kind: seven numbers, and the rest.
#[tactic(auto, unfolding(crate::specs::Window::passed_parts))]
fn put_ipc(window: &mut Window, out: &mut [u8], ipc: &IpcFrame)
    requires { window.old.filled ≤ length out.old }
    ensures shown { page window.new out.new ≡ passed_parts (Frame.Ipc ipc.now)
        (page window.old out.old) }
    ensures within { window.new.filled ≤ length out.new }
{
    window.put_u64(out, ipc.to().to_word());
    window.put_u64(out, ipc.from().to_word());
    window.put_u32(out, ipc.timeouts().to_word());
    window.put_u64(out, ipc.originator().to_word());
    window.put_u64(out, ipc.tag().to_word());
    window.put_u64(out, ipc.acceptor());
    window.put_u8(out, ipc.buffer_words().len() as u8);
    put_ipc_tail(window, out, ipc);
}

// An EXREG behind its kind.
#[tactic(auto, unfolding(crate::specs::Window::passed_parts), using(crate::proofs::WindowLemmas::passed_nothing))]
fn put_exreg(window: &mut Window, out: &mut [u8], dest: ThreadId, control: Control)
    requires { window.old.filled ≤ length out.old }
    ensures shown { page window.new out.new ≡ passed_parts (Frame.Exreg dest control)
        (page window.old out.old) }
    ensures within { window.new.filled ≤ length out.new }
{
    window.put_u64(out, dest.to_word());
    window.put_u64(out, control.to_word());
}

// An outcome behind its kind: its numbers, and the rest.
#[tactic(auto, unfolding(crate::specs::Window::passed_parts), using(crate::proofs::WindowLemmas::outcome_passed))]
fn put_ipcr(window: &mut Window, out: &mut [u8], ipcr: &IpcrFrame)
    requires { window.old.filled ≤ length out.old }
    ensures shown { page window.new out.new ≡ passed_parts (Frame.Ipcr ipcr.now)
        (page window.old out.old) }
    ensures within { window.new.filled ≤ length out.new }
{
    put_end(window, out, ipcr.end());
    put_ipcr_numbers(
        window,
        out,
        ipcr.tag(),
        ipcr.sender(),
        ipcr.actual(),
        ipcr.error(),
    );
    put_ipcr_tail(window, out, ipcr);
}

// The answer to an EXREG behind its kind: its moment, where that is told, and the rest.
#[tactic(auto, unfolding(crate::specs::Window::passed_parts), using(crate::proofs::WindowLemmas::passed_nothing))]
fn put_exregr(
    window: &mut Window,
    out: &mut [u8],
    thread: ThreadId,
    control: Control,
    code: u64,
    moment: Option<u64>,
)
    requires { window.old.filled ≤ length out.old }
    ensures shown { page window.new out.new ≡ passed_parts (Frame.Exregr thread control code moment)
        (page window.old out.old) }
    ensures within { window.new.filled ≤ length out.new }
{
    if let Some(moment) = moment {
        window.put_u64(out, moment);
    }
    window.put_u64(out, thread.to_word());
    window.put_u64(out, control.to_word());
    window.put_u64(out, code);
}

// A FAULT behind its kind.
#[tactic(auto, unfolding(crate::specs::Window::passed_parts), using(crate::proofs::WindowLemmas::passed_nothing))]
fn put_fault(window: &mut Window, out: &mut [u8], class: u8, number: u8)
    requires { window.old.filled ≤ length out.old }
    ensures shown { page window.new out.new ≡ passed_parts (Frame.Fault class number)
        (page window.old out.old) }
    ensures within { window.new.filled ≤ length out.new }
{
    window.put_u8(out, class);
    window.put_u8(out, number);
}

// The numbers after the kind, and the rest.
#[tactic(auto, unfolding(crate::specs::Window::passed_parts), using(crate::proofs::WindowLemmas::passed_nothing))]
fn put_parts(window: &mut Window, out: &mut [u8], frame: &Frame)
    requires { window.old.filled ≤ length out.old }
    ensures shown { page window.new out.new ≡ passed_parts frame.now (page window.old out.old) }
    ensures within { window.new.filled ≤ length out.new }
{
    match frame {
        Frame::Hello(number, version) => put_hello(window, out, *number, *version),
        Frame::Ipc(ipc) => put_ipc(window, out, ipc),
        Frame::Exreg(dest, control) => put_exreg(window, out, *dest, *control),
        Frame::Bye => {}
        Frame::Welcome(id) => window.put_u64(out, id.to_word()),
        Frame::Ipcr(ipcr) => put_ipcr(window, out, ipcr),
        Frame::Exregr(result, control, code, moment) => {
            put_exregr(window, out, *result, *control, *code, *moment);
        }
        Frame::Refused(number) => window.put_u8(out, *number),
        Frame::Fault(class, number) => put_fault(window, out, *class, *number),
    }
}

// The spelling of a frame.
pub(crate) fn put_frame(window: &mut Window, out: &mut [u8], frame: &Frame)
    requires { window.old.filled ≤ length out.old }
    ensures shown { page window.new out.new ≡ passed (spelling frame.now)
        (page window.old out.old) }
    ensures within { window.new.filled ≤ length out.new }
{
    window.put_u32(out, frame.size() as u32);
    window.put_u8(out, frame.kind().byte());
    put_parts(window, out, frame);
}
