//! The line of a call whose fields were typed one by one.
use super::Asked;
use ipc_lines::{HexText, IdText};
use ipc_words::limits::MAX_MESSAGE_WORDS;
use ipc_words::{MsgTag, ThreadId};
use l4sh_explain::TagRequest;
use std::alloc::{AllocError, Global};

impl Asked {
    // The line. None where the message has too many words.
    pub(super) fn line(
        &self,
        alloc: Global,
        caller: ThreadId,
    ) -> Result<Option<String>, AllocError> {
        match self.tag() {
            Some(tag) => {
                let mut line = String::new(alloc);
                self.put_call(&mut line, caller, tag)?;
                self.put_lists(&mut line)?;
                Ok(Some(line))
            }
            None => Ok(None),
        }
    }

    // The tag. None where the message has too many words.
    fn tag(&self) -> Option<MsgTag> {
        let typed = self.string_count.saturating_mul(2);
        if self.word_count.saturating_add(typed) > MAX_MESSAGE_WORDS as u64 {
            return None;
        }
        let request = TagRequest {
            label: self.label,
            words: u8::try_from(self.word_count).ok()?,
            strings: u8::try_from(self.string_count).ok()?,
            is_propagated: self.originator.is_some(),
        };
        request.tag()
    }

    // The fields up to the lists.
    fn put_call(&self, line: &mut String, caller: ThreadId, tag: MsgTag) -> Result<(), AllocError> {
        let timeouts = u64::from(self.send_word()) * 0x1_0000 + u64::from(self.receive_word());
        let originator = self.originator.unwrap_or(ThreadId::NILTHREAD);
        write!(
            line,
            "call {} {} {} {} {} {} ",
            IdText(caller),
            IdText(self.to),
            IdText(self.from),
            HexText(timeouts),
            HexText(tag.to_word()),
            IdText(originator)
        )
    }

    fn put_lists(&self, line: &mut String) -> Result<(), AllocError> {
        put_or_dash(line, self.words.as_str())?;
        line.push_str(" ")?;
        put_or_dash(line, self.strings.as_str())?;
        line.push_str(" ")?;
        put_or_dash(line, self.buffers.as_str())
    }

    // The period of a phase that is not there is not set.
    fn send_word(&self) -> u16 {
        if self.sends() { self.send.to_word() } else { 0 }
    }

    fn receive_word(&self) -> u16 {
        if self.receives() {
            self.receive.to_word()
        } else {
            0
        }
    }
}

fn put_or_dash(text: &mut String, field: &str) -> Result<(), AllocError> {
    text.push_str(if field.is_empty() { "-" } else { field })
}
