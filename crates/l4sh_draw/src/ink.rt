use ipc_lines::{HexText, IdText};
use ipc_words::ThreadId;
use l4sh_chart::Wait;
use l4sh_state::Times;
use std::alloc::{AllocError, Global};

/// A length of an element: its name, and how many pixels.
pub(crate) type Length = (&'static str, u64);

/// A stroke of a path: its letter, and the point to which it goes.
pub(crate) type Stroke = (&'static str, u64, u64);

/// Text that is being written, and elements of SVG in it. Lengths are in pixels, and a class names
/// a line of the style. Where memory is wanting it goes on without, and says so at its end: a step
/// that passes no error on is proved in half the time.
#[derive(Drop)]
pub(crate) struct Ink {
    pub(crate) text: String,
    /// Whether all that was to be written is there.
    pub(crate) done: Result<(), AllocError>,
}

impl Ink {
    pub(crate) fn new(alloc: Global) -> Ink {
        Ink {
            text: String::new(alloc),
            done: Ok(()),
        }
    }

    /// What was written. An `Err` is want of memory.
    pub(crate) fn finish(self) -> Result<String, AllocError> {
        let Ink { text, done } = self;
        match done {
            Ok(()) => Ok(text),
            Err(lost) => Err(lost),
        }
    }

    /// Keeps whether a part was written.
    pub(crate) fn keep(&mut self, done: Result<(), AllocError>) {
        if done.is_err() {
            self.done = done;
        }
    }

    pub(crate) fn put(&mut self, words: &str) {
        let done = self.text.push_str(words);
        self.keep(done);
    }

    pub(crate) fn letter(&mut self, letter: char) {
        let done = self.text.push(letter);
        self.keep(done);
    }

    /// Appends what was written elsewhere.
    pub(crate) fn add(&mut self, other: &Ink) {
        self.put(other.text.as_str());
        self.keep(other.done);
    }

    pub(crate) fn number(&mut self, number: u64) {
        let done = write!(self.text, "{number}");
        self.keep(done);
    }

    pub(crate) fn id(&mut self, thread: ThreadId) {
        let done = write!(self.text, "{}", IdText(thread));
        self.keep(done);
    }

    pub(crate) fn hex(&mut self, number: u64) {
        let done = write!(self.text, "{}", HexText(number));
        self.keep(done);
    }

    /// A moment by these times.
    pub(crate) fn moment(&mut self, moment: u64, times: Times) {
        let done = write!(self.text, "{}", times.moment(moment));
        self.keep(done);
    }

    /// A number between words.
    pub(crate) fn between(&mut self, before: &str, number: u64, behind: &str) {
        self.put(before);
        self.number(number);
        self.put(behind);
    }

    /// As many of the first letters as fit into so many, with a sign that some lack.
    pub(crate) fn cut(&mut self, words: &str, letters: usize) {
        for letter in words.chars().take(letters.saturating_sub(1)) {
            self.letter(letter);
        }
        self.put("…");
    }

    /// Texts one behind the other.
    pub(crate) fn put_all(&mut self, texts: &[&str]) {
        for text in texts {
            self.put(text);
        }
    }

    /// The begin of an element of a class, with its lengths, up to this end.
    fn element(&mut self, name: &str, class: &str, lengths: &[Length], end: &str) {
        self.put_all(&["<", name, " class=\"", class, "\""]);
        for (name, pixels) in lengths {
            self.put_all(&[" ", name]);
            self.between("=\"", *pixels, "\"");
        }
        self.put(end);
    }

    pub(crate) fn line(&mut self, class: &str, from: (u64, u64), to: (u64, u64)) {
        let lengths = [("x1", from.0), ("y1", from.1), ("x2", to.0), ("y2", to.1)];
        self.element("line", class, &lengths, "/>\n");
    }

    pub(crate) fn rect(&mut self, class: &str, corner: (u64, u64), wide: u64, high: u64) {
        let (x, y) = corner;
        let lengths = [("x", x), ("y", y), ("width", wide), ("height", high)];
        self.element("rect", class, &lengths, "/>\n");
    }

    pub(crate) fn circle(&mut self, class: &str, x: u64, y: u64, radius: u64) {
        let lengths = [("cx", x), ("cy", y), ("r", radius)];
        self.element("circle", class, &lengths, "/>\n");
    }

    /// A path of strokes, and a last one without a point, if any.
    pub(crate) fn path(&mut self, class: &str, strokes: &[Stroke], last: &str) {
        self.put_all(&["<path class=\"", class, "\" d=\""]);
        for (letter, x, y) in strokes {
            self.between(letter, *x, " ");
            self.number(*y);
        }
        self.put_all(&[last, "\"/>\n"]);
    }

    /// Begins words at a place; what is put then stands there, up to `end_words`.
    pub(crate) fn begin_words(&mut self, class: &str, x: u64, y: u64) {
        self.element("text", class, &[("x", x), ("y", y)], ">");
    }

    pub(crate) fn end_words(&mut self) {
        self.put("</text>\n");
    }

    pub(crate) fn words(&mut self, class: &str, x: u64, y: u64, words: &str) {
        self.begin_words(class, x, y);
        self.put(words);
        self.end_words();
    }

    /// A wait on the life line of a thread.
    pub(crate) fn bar(&mut self, wait: Wait, x: u64, top: u64, bottom: u64) {
        match wait {
            Wait::Nothing => {}
            Wait::Receives => self.wide_line("rw", x, top, bottom),
            Wait::Sends => self.wide_line("sw", x, top, bottom),
        }
    }

    fn wide_line(&mut self, class: &str, x: u64, top: u64, bottom: u64) {
        let high = bottom.saturating_sub(top);
        self.rect(class, (x.saturating_sub(3), top), 7, high);
    }

    /// Two lines that cross.
    pub(crate) fn cross(&mut self, class: &str, x: u64, y: u64) {
        let (left, right) = (x.saturating_sub(5), x.saturating_add(5));
        let (high, low) = (y.saturating_sub(5), y.saturating_add(5));
        let strokes = [
            ("M", left, high),
            ("L", right, low),
            ("M", left, low),
            ("L", right, high),
        ];
        self.path(class, &strokes, "");
    }
}
