//! Laws of what is laid out, each a function that computes nothing and whose contract is the law.
ghost use Rattle.ipc_client.specs.Laws.{LaidOutStringsAreRead, MessagesFitFrames};

use ipc_words::laws::fields_of_tag_read_back;

/// The server reads from a message just the strings that it was made of.
pub fn laid_out_strings_are_read()
    ensures { LaidOutStringsAreRead }
{}

/// A message that was made fits its frame, whatever buffers stand beside it.
pub fn messages_fit_frames()
    ensures { MessagesFitFrames }
{
    fields_of_tag_read_back();
}
