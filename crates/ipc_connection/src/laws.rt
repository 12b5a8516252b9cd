ghost use Rattle.ipc_connection.specs.Laws.{FramesAddUp, FrameIsHeard, PieceIsHeard};

/// What is heard of a stream that goes on is what was heard of it, and then what is heard of its
/// last bytes with the new ones.
pub fn frames_add_up()
    ensures { FramesAddUp }
{}

/// A frame that is spelled is heard.
pub fn a_frame_is_heard()
    ensures { FrameIsHeard }
{}

/// What the calls of [`take`](crate::CallDecoder::take) hear of a piece, each given what the one
/// before left of it, is what the piece says behind the bytes held, up to the first fault, however
/// the stream is cut; want of memory may cut it short.
pub fn a_piece_is_heard()
    ensures { PieceIsHeard }
{}
