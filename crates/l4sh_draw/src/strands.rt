use crate::ink::Ink;
use crate::layout::Layout;
use l4sh_chart::{Turn, Wait};
use std::alloc::{AllocError, Global};

/// The life line of a thread, as far as it is not drawn yet.
#[derive(Clone, Copy)]
pub(crate) struct Strand {
    /// The height from which on the thread lives; None: it does not.
    pub(crate) lives: Option<u64>,
    /// What it waits for.
    pub(crate) wait: Wait,
    /// The height from which on it waits for that.
    pub(crate) since: u64,
}

/// Life lines from a height on, of so many threads, of which none lives.
pub(crate) fn strands_of(
    alloc: Global,
    columns: usize,
    top: u64,
) -> Result<Vec<Strand>, AllocError> {
    let mut strands = Vec::new(alloc);
    for _ in 0..columns {
        strands.push(Strand {
            lives: None,
            wait: Wait::Nothing,
            since: top,
        })?;
    }
    Ok(strands)
}

/// Which threads live, and what they wait for, from these turns on, at a height.
pub(crate) fn turn_strands(
    ink: &mut Ink,
    strands: &mut [Strand],
    layout: &Layout,
    turns: &[Turn],
    y: u64,
) {
    for turn in turns {
        if let Some(strand) = strands.get_mut(turn.column) {
            strand.turn(ink, layout.middle(turn.column), y, turn.wait);
        }
    }
}

/// Draws all down to a height; the rest is drawn from another one on.
pub(crate) fn end_strands(
    ink: &mut Ink,
    strands: &mut [Strand],
    layout: &Layout,
    bottom: u64,
    top: u64,
) {
    for column in 0..strands.len() {
        if let Some(strand) = strands.get_mut(column) {
            strand.draw(ink, layout.middle(column), bottom);
            strand.restart(top);
        }
    }
}

impl Strand {
    // Draws it down to a height, from which on the rest is to be drawn.
    fn draw(&mut self, ink: &mut Ink, x: u64, bottom: u64) {
        if let Some(top) = self.lives {
            ink.line("life", (x, top), (x, bottom));
            self.lives = Some(bottom);
        }
        self.draw_wait(ink, x, bottom);
    }

    // From this height on it lives and waits for that, or does not live.
    fn turn(&mut self, ink: &mut Ink, x: u64, y: u64, wait: Option<Wait>) {
        match wait {
            Some(wait) => self.live(ink, x, y, wait),
            None => self.end(ink, x, y),
        }
    }

    fn live(&mut self, ink: &mut Ink, x: u64, y: u64, wait: Wait) {
        if self.lives.is_none() {
            self.lives = Some(y);
        }
        if wait != self.wait {
            self.draw_wait(ink, x, y);
            self.wait = wait;
            self.since = y;
        }
    }

    fn end(&mut self, ink: &mut Ink, x: u64, y: u64) {
        self.draw(ink, x, y);
        self.lives = None;
        self.wait = Wait::Nothing;
    }

    // The rest is drawn from this height on.
    fn restart(&mut self, top: u64) {
        if self.lives.is_some() {
            self.lives = Some(top);
        }
        self.since = top;
    }

    fn draw_wait(&mut self, ink: &mut Ink, x: u64, bottom: u64) {
        if self.since < bottom {
            ink.bar(self.wait, x, self.since, bottom);
        }
        self.since = bottom;
    }
}
