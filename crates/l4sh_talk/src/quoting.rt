//! The words of a line.
ghost use Rattle.std.specs.Prelude.{◌≡◌, IfOk, false, option_map};
ghost use Rattle.ipc_items.specs.Strings.{strings_of};
ghost use Rattle.l4sh_talk.specs.Quoting.{begins_comment, and_word, is_blank, line_words, no_words};
ghost use Rattle.l4sh_talk.specs.Quoting.{with_byte, with_end, word_step, words_at_end, words_behind};

use std::alloc::{AllocError, Global};
use std::marker::Model;

/// A line up to a place.
#[derive(Drop)]
struct WordsSoFar {
    /// The words that are whole.
    words: Vec<Vec<u8>>,
    /// What is there of the next one.
    word: Vec<u8>,
    /// Whether a quotation mark is open.
    is_quoted: bool,
}

impl Model for WordsSoFar {
    ghost use Rattle.ipc_items.specs.Strings.{strings_of};
    ghost use Rattle.l4sh_talk.specs.Quoting.{WordsSoFar as AnyWords};

    ghost Value = { AnyWords };

    ghost view = { λ so_far. record {
      words = strings_of so_far.words.items;
      word = so_far.word.items;
      is_quoted = so_far.is_quoted;
    } };
}

impl WordsSoFar {
    // Before the line.
    fn new(alloc: Global) -> WordsSoFar
        ensures { result ≡ no_words }
    {
        WordsSoFar {
            words: Vec::new(alloc),
            word: Vec::new(alloc),
            is_quoted: false,
        }
    }

    // Whether a comment begins with this byte.
    fn ends_at(&self, byte: u8) -> bool
        ensures { result ≡ begins_comment self.now byte }
    {
        !self.is_quoted && byte == b'#'
    }

    // Behind a byte that begins no comment.
    fn step(self, alloc: Global, byte: u8) -> Result<WordsSoFar, AllocError>
        ensures { IfOk result (λ next. next ≡ word_step self byte) }
    {
        match (self.is_quoted, byte == b'"') {
            (true, true) => Ok(self.closed()),
            (true, false) => self.with_byte(byte, true),
            (false, true) => self.with_byte(byte, true),
            (false, false) if is_blank(byte) => self.with_end(alloc),
            (false, false) => self.with_byte(byte, false),
        }
    }

    // Behind the last mark of a text.
    fn closed(self) -> WordsSoFar
        ensures { result ≡ record self { is_quoted = false } }
    {
        let WordsSoFar { words, word, .. } = self;
        WordsSoFar {
            words,
            word,
            is_quoted: false,
        }
    }

    fn with_byte(self, byte: u8, is_quoted: bool) -> Result<WordsSoFar, AllocError>
        ensures { IfOk result (λ next. next ≡ with_byte byte is_quoted self) }
    {
        let WordsSoFar { words, word, .. } = self;
        let mut word = word;
        word.push(byte)?;
        Ok(WordsSoFar {
            words,
            word,
            is_quoted,
        })
    }

    // Behind what stands between words.
    fn with_end(self, alloc: Global) -> Result<WordsSoFar, AllocError>
        ensures { IfOk result (λ next. next ≡ with_end self) }
    {
        let WordsSoFar { words, word, .. } = self;
        Ok(WordsSoFar {
            words: and_word(words, word)?,
            word: Vec::new(alloc),
            is_quoted: false,
        })
    }

    // All words, at the end.
    fn into_words(self) -> Result<Option<Vec<Vec<u8>>>, AllocError>
        ensures { IfOk result (λ words. option_map (λ words. strings_of words.items) words
            ≡ words_at_end self) }
    {
        let WordsSoFar {
            words,
            word,
            is_quoted,
        } = self;
        if is_quoted {
            return Ok(None);
        }
        Ok(Some(and_word(words, word)?))
    }
}

fn is_blank(byte: u8) -> bool
    ensures { result ≡ is_blank byte }
{
    byte == b' ' || byte == b'\t' || byte == b'\r'
}

// Words, and a further one where it has begun.
fn and_word(words: Vec<Vec<u8>>, word: Vec<u8>) -> Result<Vec<Vec<u8>>, AllocError>
    ensures { IfOk result (λ all. strings_of all.items ≡ and_word (strings_of words.items) word.items) }
{
    if word.is_empty() {
        return Ok(words);
    }
    let mut words = words;
    words.push(word)?;
    Ok(words)
}

/// The words of a line, with spaces or tabs between them, and none of a comment that begins with
/// `#`. A text between quotation marks is one word, with its first mark before it. None where the
/// last mark lacks.
pub fn words_of(alloc: Global, line: &[u8]) -> Result<Option<Vec<Vec<u8>>>, AllocError>
    ensures { IfOk result (λ words. option_map (λ words. strings_of words.items) words
        ≡ line_words line.now) }
{
    let so_far = words_before_end(alloc, line)?;
    so_far.into_words()
}

// The line up to its comment, or to its end.
fn words_before_end(alloc: Global, line: &[u8]) -> Result<WordsSoFar, AllocError>
    ensures { IfOk result (λ so_far. words_at_end so_far ≡ words_behind no_words line.now) }
{
    let mut so_far = WordsSoFar::new(alloc);
    'bytes: for place in 0..line.len() {
        let byte = line[place];
        if so_far.ends_at(byte) {
            return Ok(so_far);
        }
        so_far = so_far.step(alloc, byte)?;
    }
    Ok(so_far)
}
