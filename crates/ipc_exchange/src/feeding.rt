ghost use Rattle.std.specs.Prelude.{◌≡◌, ◌<◌, ◌≤◌, ◌+◌, ℕ, List, [], length, false, true, Ok, Err, IfSome, IsNone};
ghost use Rattle.ipc_connection.specs.Taking.{Holds};
ghost use Rattle.ipc_connection.specs.declared.heard.Heard.TheVariants.{Bye};
ghost use Rattle.ipc_exchange.specs.Exchange.{ClosesConnection};
ghost use Rattle.ipc_exchange.specs.Feeding.{FeedsConnection, FeedsFirst, HearsOne, IsHeard};
ghost use Rattle.ipc_exchange.specs.Rooms.{CanServe, Ready, StaysReady, WantsRoom, roomy_at, service_of};

use crate::service::Service;
use ipc_connection::{CallDecoder, Heard};
use ipc_frame::FrameFault;

fn is_bye(heard: &Heard) -> bool
    ensures bye { result ≡ true → heard.now ≡ Bye }
    ensures other { result ≡ false → WantsRoom (Ok heard.now) }
{
    matches!(heard, Heard::Bye)
}

/// What a frame says, once there is room for what serving it may want; BYE wants none. F14: the
/// room was not there, and there is no memory for it.
fn admit(service: &mut Service, place: usize, heard: Heard) -> Result<Heard, FrameFault>
    requires within { place < length service.old.connections }
    requires ready { Ready service.old }
    ensures same { service_of service.new ≡ service_of service.old }
    ensures can { CanServe service.new place result }
    ensures is { IsHeard (Ok heard) result }
    ensures roomy { 3 ≤ (roomy_at service.old.connections place).free → result ≡ Ok heard }
    ensures ready { StaysReady service.old service.new }
{
    if is_bye(&heard) {
        return Ok(heard);
    }
    match service.reserve(place) {
        Ok(()) => Ok(heard),
        Err(_) => Err(FrameFault::NoMemory),
    }
}

/// Serves what a frame says, or the fault that stands in its place. Where there is no memory that
/// is F14.
fn hear(service: &mut Service, place: usize, said: Result<Heard, FrameFault>)
    requires within { place < length service.old.connections }
    requires ready { Ready service.old }
    ensures hears { HearsOne (service_of service.old) place said (service_of service.new) }
    ensures ready { StaysReady service.old service.new }
{
    let heard = match said {
        Ok(heard) => admit(service, place, heard),
        Err(fault) => Err(fault),
    };
    service.serve(place, heard);
}

/// Serves the first frame that ends in a piece, and answers how many bytes of the piece it used;
/// None where the piece is used up, or the connection has ended.
fn feed_first(
    service: &mut Service,
    place: usize,
    decoder: &mut CallDecoder,
    piece: &[u8],
) -> Option<usize>
    requires within { place < length service.old.connections }
    requires ready { Ready service.old }
    requires holds { (bytes : List ℕ) × Holds decoder.old bytes }
    ensures all { IsNone result → (bytes : List ℕ) → Holds decoder.old bytes
        → FeedsConnection (service_of service.old) place bytes piece.now
        (service_of service.new) decoder.new }
    ensures first { IfSome result (λ used. (bytes : List ℕ) → Holds decoder.old bytes
        → FeedsFirst (service_of service.old) place bytes piece.now used (service_of service.new)) }
    ensures rest { IfSome result (λ used. Holds decoder.new []) }
    ensures within { IfSome result (λ used. used ≤ length piece.now) }
    ensures some { IfSome result (λ used. 0 < used + (length decoder.old.kept + decoder.old.lost)) }
    ensures ready { StaysReady service.old service.new }
{
    match decoder.take(piece) {
        Ok((_, None)) => None,
        Ok((used, Some(heard))) => {
            hear(service, place, Ok(heard));
            if service.has_finished(place) {
                None
            } else {
                Some(used)
            }
        }
        Err(fault) => {
            hear(service, place, Err(fault));
            None
        }
    }
}

/// Serves the frames that end in a piece, one after the other, up to the end of the connection.
pub(crate) fn feed_connection(
    service: &mut Service,
    place: usize,
    decoder: &mut CallDecoder,
    piece: &[u8],
)
    requires within { place < length service.old.connections }
    requires ready { Ready service.old }
    requires holds { (bytes : List ℕ) × Holds decoder.old bytes }
    ensures fed { (bytes : List ℕ) → Holds decoder.old bytes
        → FeedsConnection (service_of service.old) place bytes piece.now
        (service_of service.new) decoder.new }
    ensures ready { StaysReady service.old service.new }
{
    let mut rest = piece;
    while let Some(used) = feed_first(service, place, decoder, rest) {
        rest = &rest[used..];
    }
}

/// Serves the end of the input of the connection in a place.
pub(crate) fn close_connection(service: &mut Service, place: usize, decoder: &mut CallDecoder)
    requires within { place < length service.old.connections }
    requires ready { Ready service.old }
    requires holds { (bytes : List ℕ) × Holds decoder.old bytes }
    ensures closed { (bytes : List ℕ) → Holds decoder.old bytes
        → ClosesConnection (service_of service.old) place bytes
        (service_of service.new) decoder.new }
    ensures ready { StaysReady service.old service.new }
{
    match decoder.finish() {
        Ok(()) => service.serve(place, Ok(Heard::Bye)),
        Err(fault) => service.serve(place, Err(fault)),
    }
}
