use crate::ink::Ink;
use l4sh_chart::ToldCall;

/// Labels from here on are written in HEX.
const FIRST_LONG_LABEL: u64 = 65_536;

/// Appends the label and the size of the message of a call, as `label 5, 2 words`.
pub(crate) fn put_message(ink: &mut Ink, call: &ToldCall) {
    put_tag_label(ink, call.tag.label());
    put_words(ink, call.words.len());
    let strings = call.lengths.len();
    if strings > 0 {
        put_strings(ink, strings, call.size);
    }
}

fn put_tag_label(ink: &mut Ink, label: u64) {
    ink.put("label ");
    if label < FIRST_LONG_LABEL {
        ink.number(label);
    } else {
        ink.hex(label);
    }
}

fn put_words(ink: &mut Ink, words: usize) {
    if words > 0 {
        ink.between(", ", words as u64, plural(words, " word", " words"));
    }
}

fn put_strings(ink: &mut Ink, strings: usize, bytes: u64) {
    ink.between(", ", strings as u64, plural(strings, " string", " strings"));
    ink.between(" of ", bytes, " bytes");
}

/// Appends what a message has: its label, its words and the lengths of its strings, a line each,
/// each begun with a newline.
pub(crate) fn put_contents(ink: &mut Ink, call: &ToldCall) {
    let label = call.tag.label();
    ink.between("\nlabel ", label, " (");
    ink.hex(label);
    ink.put(")");
    put_each_word(ink, &call.words);
    put_lengths(ink, &call.lengths);
    if call.tag.propagates() {
        ink.put("\nVirtualSender ");
        ink.id(call.originator);
    }
}

fn put_each_word(ink: &mut Ink, words: &[u64]) {
    if words.is_empty() {
        return;
    }
    ink.put("\nwords");
    for word in words {
        ink.put(" ");
        ink.hex(*word);
    }
}

fn put_lengths(ink: &mut Ink, lengths: &[u64]) {
    if lengths.is_empty() {
        return;
    }
    ink.put("\nstrings of");
    for length in lengths {
        ink.between(" ", *length, "");
    }
    ink.put(" bytes");
}

/// The one word for one, the other one for other counts.
pub(crate) fn plural(count: usize, one: &'static str, many: &'static str) -> &'static str {
    if count == 1 { one } else { many }
}
