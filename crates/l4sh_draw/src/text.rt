use crate::amounts::{put_count, put_time};
use crate::ink::Ink;
use crate::legend::put_legend_text;
use crate::lines::{Line, pages_of};
use crate::signs::{put, put_arrow, put_lanes, sign_of};
use crate::words::{put_label, put_waits_after};
use ipc_words::ThreadId;
use l4sh_chart::{Column, Fold, Lane, Place, Row, Scene, lanes_of, turn_lanes, turns_upto};
use l4sh_state::Times;
use std::alloc::{AllocError, Global};

// Widths in characters: of the numbers, of the moments, of a lane where there are few or many, and
// of the words where lines are cut.
const NUMBERS: usize = 7;

const MOMENTS: usize = 12;

const WIDE_LANE: usize = 12;

const NARROW_LANE: usize = 8;

const LEAST_WORDS: usize = 40;

/// Text that is being drawn.
#[derive(Drop)]
struct Drawing {
    alloc: Global,
    lanes: Vec<Lane>,
    // the next turn
    next: usize,
    // the characters of a lane, and of a line; 0: as many as it needs
    lane: usize,
    width: usize,
    times: Times,
    // the moment of the row before
    moment: u64,
}

/// Draws a scene as text: a line for each row, with its number, how long after the
/// row before it comes, a lane for each thread, and what it says. A line of more characters than
/// the width is cut; 0: none is. Moments are told by these times.
pub fn draw_text(
    alloc: Global,
    scene: &Scene,
    width: usize,
    times: Times,
) -> Result<String, AllocError> {
    let mut ink = Ink::new(alloc);
    let done = draw_lines(alloc, &mut ink, scene, width, times);
    ink.keep(done);
    put_legend_text(&mut ink, scene, width);
    ink.finish()
}

fn draw_lines(
    alloc: Global,
    ink: &mut Ink,
    scene: &Scene,
    width: usize,
    times: Times,
) -> Result<(), AllocError> {
    let lane = lane_width(alloc, &scene.columns, width)?;
    let lanes = lanes_of(alloc, scene.columns.len())?;
    let mut drawing = Drawing {
        alloc,
        lanes,
        next: 0,
        lane,
        width,
        times,
        moment: first_moment(scene),
    };
    let done = draw_rows(alloc, ink, &mut drawing, scene);
    drop(drawing);
    done
}

// Draws all rows, on one page.
fn draw_rows(
    alloc: Global,
    ink: &mut Ink,
    drawing: &mut Drawing,
    scene: &Scene,
) -> Result<(), AllocError> {
    let pages = pages_of(alloc, &scene.folds, 0)?;
    for page in &pages {
        drawing.page(ink, scene, page);
    }
    drop(pages);
    Ok(())
}

/// The moment of the first row; 0 where there is none.
pub(crate) fn first_moment(scene: &Scene) -> u64 {
    moment_of(scene.rows.first())
}

fn moment_of(row: Option<&Row>) -> u64 {
    match row {
        Some(row) => row.moment,
        None => 0,
    }
}

// The width of a lane: room for the names, and where lines are cut for words too.
fn lane_width(alloc: Global, columns: &[Column], width: usize) -> Result<usize, AllocError> {
    let mut longest = 0usize;
    for column in columns {
        longest = longest.max(name_length(alloc, column.thread)?);
    }
    Ok(fitting_lane(columns.len(), width).max(longest.saturating_add(2)))
}

fn name_length(alloc: Global, thread: ThreadId) -> Result<usize, AllocError> {
    let mut name = Ink::new(alloc);
    name.id(thread);
    let (length, done) = (name.text.len(), name.done);
    drop(name);
    done?;
    Ok(length)
}

// The width of one of so many lanes beside words, where lines have that width.
fn fitting_lane(columns: usize, width: usize) -> usize {
    let usual = if columns <= 6 { WIDE_LANE } else { NARROW_LANE };
    if width == 0 || columns == 0 {
        return usual;
    }
    let room = width.saturating_sub(NUMBERS + MOMENTS + 2 + LEAST_WORDS);
    usual.min(room / columns).max(4)
}

impl Drawing {
    fn page(&mut self, ink: &mut Ink, scene: &Scene, page: &[Line]) {
        for (place, line) in page.iter().enumerate() {
            let behind = page.get(place.saturating_add(1));
            self.line(ink, scene, *line, behind);
        }
    }

    fn line(&mut self, ink: &mut Ink, scene: &Scene, line: Line, behind: Option<&Line>) {
        match line {
            Line::Names => {
                let moment = moment_behind(scene, behind, self.moment);
                self.names(ink, scene, moment);
            }
            Line::Row { row, .. } => {
                if let Some(found) = scene.rows.get(row) {
                    self.row(ink, scene, row, found);
                }
            }
            Line::Copies { fold } => {
                if let Some(found) = scene.folds.get(fold) {
                    self.copies(ink, scene, found);
                }
            }
        }
    }

    // The names of the threads over their lanes, and the moment of the row behind; above them,
    // where it is a time of day.
    fn names(&self, ink: &mut Ink, scene: &Scene, moment: u64) {
        let mut line = Ink::new(self.alloc);
        if self.times.are_of_day() {
            ink.moment(moment, self.times);
            ink.put("\n");
            put_spaces(&mut line, NUMBERS + MOMENTS + 2);
        } else {
            put_spaces(&mut line, NUMBERS);
            put_time_right(self.alloc, &mut line, "", moment);
        }
        for column in &scene.columns {
            put_name(self.alloc, &mut line, self.lane, column.thread);
        }
        end_line(ink, &line, self.width);
        drop(line);
    }

    // The number of an entry, its moment, the lanes with its mark, and what it says.
    fn row(&mut self, ink: &mut Ink, scene: &Scene, place: usize, row: &Row) {
        self.turn(scene, Place::above(place));
        let mut line = Ink::new(self.alloc);
        put_entry_number(self.alloc, &mut line, row);
        self.put_moment(&mut line, row.moment);
        self.put_signs(&mut line, Some(row));
        put_words(&mut line, scene, row);
        end_line(ink, &line, self.width);
        drop(line);
        self.turn(scene, Place::at(place));
    }

    // How often the rows above it come.
    fn copies(&mut self, ink: &mut Ink, scene: &Scene, fold: &Fold) {
        let last = last_row(fold);
        self.turn(scene, Place::at(last));
        let (number, moment) = end_of(scene, last, self.moment);
        let mut line = Ink::new(self.alloc);
        put_times(self.alloc, &mut line, fold.count);
        self.put_moment(&mut line, moment);
        self.put_signs(&mut line, None);
        put_copies(&mut line, scene, fold, number);
        end_line(ink, &line, self.width);
        drop(line);
    }

    // How long after the row before a row comes.
    fn put_moment(&mut self, line: &mut Ink, moment: u64) {
        let later = moment.saturating_sub(self.moment);
        self.moment = moment;
        if later > 0 {
            put_time_right(self.alloc, line, "+", later);
        } else {
            put_spaces(line, MOMENTS + 2);
        }
    }

    // The lanes, with the mark of a row among them.
    fn put_signs(&self, line: &mut Ink, marked: Option<&Row>) {
        let mut signs = Vec::new(self.alloc);
        let done = put_lanes(&mut signs, &self.lanes, self.lane);
        line.keep(done);
        if let Some(row) = marked {
            self.put_mark(&mut signs, row);
        }
        line.put_all(&signs);
    }

    // Which threads live, and what they wait for, behind a place.
    fn turn(&mut self, scene: &Scene, place: Place) {
        let turns = turns_upto(&scene.turns, self.next, place);
        turn_lanes(&mut self.lanes, turns);
        self.next = self.next.saturating_add(turns.len());
    }

    fn middle(&self, column: usize) -> usize {
        column
            .saturating_mul(self.lane)
            .saturating_add(self.lane / 2)
    }

    // The mark of a row among the lanes.
    fn put_mark(&self, signs: &mut [&'static str], row: &Row) {
        let from = self.middle(row.from);
        let to = self.middle(row.to);
        if from == to {
            put(signs, from, sign_of(row.mark));
        } else {
            put_arrow(signs, row.mark, from, to);
        }
    }
}

// The name of a thread over its lane.
fn put_name(alloc: Global, line: &mut Ink, lane: usize, thread: ThreadId) {
    let mut name = Ink::new(alloc);
    name.id(thread);
    let length = name.text.len();
    let before = (lane / 2).saturating_sub(length / 2);
    put_spaces(line, before);
    line.add(&name);
    drop(name);
    put_spaces(line, lane.saturating_sub(before.saturating_add(length)));
}

// The number of the entry of a row.
fn put_entry_number(alloc: Global, line: &mut Ink, row: &Row) {
    let mut number = Ink::new(alloc);
    number.number(row.number);
    put_right(line, &number, NUMBERS);
    drop(number);
}

// How many times a pattern comes.
fn put_times(alloc: Global, line: &mut Ink, count: usize) {
    let mut times = Ink::new(alloc);
    times.put("x ");
    put_count(alloc, &mut times, count as u64);
    put_right(line, &times, NUMBERS);
    drop(times);
}

// A time among the moments, behind a sign.
fn put_time_right(alloc: Global, line: &mut Ink, sign: &str, time: u64) {
    let mut told = Ink::new(alloc);
    told.put(sign);
    put_time(&mut told, time);
    put_right(line, &told, MOMENTS);
    drop(told);
    line.put("  ");
}

// What a row says, and how long phases waited that meet there.
fn put_words(line: &mut Ink, scene: &Scene, row: &Row) {
    put_label(line, scene, row);
    put_waits_after(line, "; ", row);
}

// A line, cut where it has more characters than the width; 0: it is not.
fn end_line(ink: &mut Ink, line: &Ink, width: usize) {
    ink.keep(line.done);
    let words = line.text.as_str();
    if width > 0 && words.chars().count() > width {
        ink.cut(words, width);
    } else {
        ink.put(words.trim_end());
    }
    ink.put("\n");
}

/// The moment of the row that a line shows, if one is behind; else the moment that is given.
pub(crate) fn moment_behind(scene: &Scene, behind: Option<&Line>, moment: u64) -> u64 {
    match behind {
        Some(Line::Row { row, .. }) => moment_of(scene.rows.get(*row)),
        _ => moment,
    }
}

/// The number of the entry of a row and its moment; with no such row 0 and the moment that is
/// given.
pub(crate) fn end_of(scene: &Scene, row: usize, moment: u64) -> (u64, u64) {
    match scene.rows.get(row) {
        Some(row) => (row.number, row.moment),
        None => (0, moment),
    }
}

/// Appends that so many rows above come again, up to the entry of this number, and which thread the
/// last copy names, where that is another.
pub(crate) fn put_copies(ink: &mut Ink, scene: &Scene, fold: &Fold, number: u64) {
    if fold.period == 1 {
        ink.put("the row above");
    } else {
        ink.between("the ", fold.period as u64, " rows above");
    }
    ink.between(", up to entry ", number, "");
    let first = fold.first.saturating_add(fold.period).saturating_sub(1);
    let (first, last) = (partner_at(scene, first), partner_at(scene, last_row(fold)));
    if first != last {
        ink.put(": ");
        ink.id(first);
        ink.put(" to ");
        ink.id(last);
    }
}

// The thread that the call of a row names; nilthread where it names none.
fn partner_at(scene: &Scene, row: usize) -> ThreadId {
    let Some(row) = scene.rows.get(row) else {
        return ThreadId::NILTHREAD;
    };
    match scene.call(row) {
        Some(call) if call.to == ThreadId::NILTHREAD => call.from,
        Some(call) => call.to,
        None => ThreadId::NILTHREAD,
    }
}

/// The last row of the last copy of a pattern.
pub(crate) fn last_row(fold: &Fold) -> usize {
    fold.first
        .saturating_add(fold.period.saturating_mul(fold.count))
        .saturating_sub(1)
}

fn put_spaces(ink: &mut Ink, count: usize) {
    for _ in 0..count {
        ink.put(" ");
    }
}

// A text at the right end of a field of so many characters.
fn put_right(ink: &mut Ink, told: &Ink, width: usize) {
    let taken = told.text.as_str().chars().count();
    put_spaces(ink, width.saturating_sub(taken));
    ink.add(told);
}
