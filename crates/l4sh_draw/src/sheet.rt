use crate::amounts::{put_count, put_time};
use crate::arrows::{draw_arrow, draw_over};
use crate::details::put_details;
use crate::ink::Ink;
use crate::layout::Layout;
use crate::lines::Line;
use crate::marks::draw_mark;
use crate::strands::{Strand, end_strands, strands_of, turn_strands};
use crate::text::{end_of, first_moment, last_row, moment_behind, put_copies};
use crate::words::label_of;
use l4sh_chart::{Column, Fold, Place, Row, Scene, turns_upto};
use l4sh_state::Times;
use std::alloc::{AllocError, Global};

// Heights in pixels: of a row, and of a line with the names of the threads.
const ROW: u64 = 20;

const NAMES: u64 = 38;

// Right ends of the numbers and of the moments.
const NUMBER: u64 = 56;

const MOMENT: u64 = 140;

/// A page that is being drawn, and what goes on from page to page.
#[derive(Drop)]
pub(crate) struct Sheet {
    alloc: Global,
    layout: Layout,
    times: Times,
    // what lies below the marks, and the marks
    under: Ink,
    over: Ink,
    strands: Vec<Strand>,
    // the next turn
    next: usize,
    // the height of the top of the next line
    y: u64,
    // the moment of the row before
    moment: u64,
    // the top of the pattern whose rows are being drawn
    pattern: Option<u64>,
    // how many rows were drawn
    rows: u64,
}

impl Sheet {
    /// A sheet on which nothing is drawn yet, from a height on.
    pub(crate) fn new(
        alloc: Global,
        scene: &Scene,
        layout: Layout,
        top: u64,
        times: Times,
    ) -> Result<Sheet, AllocError> {
        let strands = strands_of(alloc, scene.columns.len(), top)?;
        Ok(Sheet {
            alloc,
            layout,
            times,
            under: Ink::new(alloc),
            over: Ink::new(alloc),
            strands,
            next: 0,
            y: top,
            moment: first_moment(scene),
            pattern: None,
            rows: 0,
        })
    }

    /// Draws the lines of a page.
    pub(crate) fn draw(&mut self, scene: &Scene, page: &[Line]) {
        for (place, line) in page.iter().enumerate() {
            let behind = page.get(place.saturating_add(1));
            self.line(scene, *line, behind);
        }
    }

    /// Ends the page: appends what was drawn to a text. The next page begins at a height.
    pub(crate) fn end_page(&mut self, ink: &mut Ink, top: u64) {
        end_strands(
            &mut self.under,
            &mut self.strands,
            &self.layout,
            self.y,
            top,
        );
        ink.add(&self.under);
        ink.add(&self.over);
        self.under.text.clear();
        self.over.text.clear();
        if self.pattern.is_some() {
            self.pattern = Some(top);
        }
        self.y = top;
    }

    /// The width of the whole.
    pub(crate) fn width(&self) -> u64 {
        self.layout.width
    }

    /// The height below what was drawn.
    pub(crate) fn bottom(&self) -> u64 {
        self.y
    }

    fn line(&mut self, scene: &Scene, line: Line, behind: Option<&Line>) {
        match line {
            Line::Names => {
                let moment = moment_behind(scene, behind, self.moment);
                self.names(scene, moment);
            }
            Line::Row { row, copies } => {
                if let Some(found) = scene.rows.get(row) {
                    self.begin_pattern(copies);
                    self.row(scene, row, found);
                }
            }
            Line::Copies { fold } => {
                if let Some(found) = scene.folds.get(fold) {
                    self.copies(scene, found);
                }
            }
        }
    }

    // A pattern that comes more than once begins with this row, if none has begun.
    fn begin_pattern(&mut self, copies: usize) {
        if copies > 1 && self.pattern.is_none() {
            self.pattern = Some(self.y);
        }
    }

    // The names and the spaces of the threads, and the moment of the row behind.
    fn names(&mut self, scene: &Scene, moment: u64) {
        let top = self.y;
        self.over.rect("names", (0, top), self.layout.width, NAMES);
        self.moment_of_names(moment, top.saturating_add(17));
        for (place, column) in scene.columns.iter().enumerate() {
            draw_name(&mut self.over, column, self.layout.middle(place), top);
        }
        self.y = top.saturating_add(NAMES);
    }

    // A moment beside names. A time of day begins at the left, as it is longer.
    fn moment_of_names(&mut self, moment: u64, low: u64) {
        if self.times.are_of_day() {
            self.over.begin_words("w", 6, low);
            self.over.moment(moment, self.times);
            self.over.end_words();
        } else {
            draw_time(&mut self.over, "", moment, low);
        }
    }

    // The number of an entry, its moment, what it says, and its mark.
    fn row(&mut self, scene: &Scene, place: usize, row: &Row) {
        let top = self.y;
        let middle = top.saturating_add(ROW / 2);
        self.turn(scene, Place::above(place), top);
        self.begin_row(scene, row);
        self.gutter(row, middle.saturating_add(4));
        self.label(scene, row, middle.saturating_add(4));
        self.mark(row, middle);
        self.over.put("</g>\n");
        self.turn(scene, Place::at(place), middle);
        self.y = top.saturating_add(ROW);
    }

    // The group of a row, what is told where it is pointed at, and every second time a stripe below
    // it.
    fn begin_row(&mut self, scene: &Scene, row: &Row) {
        self.stripe();
        self.over.put("<g class=\"row\"><title>");
        put_details(&mut self.over, scene, row, self.times);
        self.over.put("</title>\n");
        self.over.rect("band", (0, self.y), self.layout.width, ROW);
    }

    fn stripe(&mut self) {
        if self.rows % 2 == 1 {
            self.under
                .rect("stripe", (0, self.y), self.layout.width, ROW);
        }
        self.rows = self.rows.saturating_add(1);
    }

    fn gutter(&mut self, row: &Row, low: u64) {
        self.over.begin_words("n", NUMBER, low);
        self.over.number(row.number);
        self.over.end_words();
        self.later(row.moment, low);
    }

    // How long after the row before a row comes.
    fn later(&mut self, moment: u64, low: u64) {
        let later = moment.saturating_sub(self.moment);
        self.moment = moment;
        if later > 0 {
            draw_time(&mut self.over, "+", later, low);
        }
    }

    // What a row says, cut where there is no room.
    fn label(&mut self, scene: &Scene, row: &Row, low: u64) {
        let label = label_of(self.alloc, scene, row);
        self.over.keep(label.done);
        draw_label(&mut self.over, &self.layout, label.text.as_str(), low);
        drop(label);
    }

    fn mark(&mut self, row: &Row, middle: u64) {
        let from = self.layout.middle(row.from);
        let to = self.layout.middle(row.to);
        if from == to {
            draw_mark(&mut self.over, row.mark, from, middle);
        } else {
            draw_arrow(&mut self.over, row.mark, from, to, middle);
            draw_over(self.alloc, &mut self.over, row, from, to, middle);
        }
    }

    // How often the rows above it come, and a line beside them.
    fn copies(&mut self, scene: &Scene, fold: &Fold) {
        let middle = self.y.saturating_add(ROW / 2);
        let low = middle.saturating_add(4);
        let last = last_row(fold);
        self.turn(scene, Place::at(last), middle);
        self.end_pattern(middle);
        self.count(fold.count, low);
        let (number, moment) = end_of(scene, last, self.moment);
        self.later(moment, low);
        self.over.begin_words("again", self.layout.words, low);
        put_copies(&mut self.over, scene, fold, number);
        self.over.end_words();
        self.y = self.y.saturating_add(ROW);
    }

    // A line beside the rows of the pattern that was begun, if any.
    fn end_pattern(&mut self, middle: u64) {
        if let Some(top) = self.pattern {
            self.under.line(
                "pattern",
                (6, top.saturating_add(2)),
                (6, middle.saturating_add(6)),
            );
        }
        self.pattern = None;
    }

    fn count(&mut self, count: usize, low: u64) {
        self.over.begin_words("copies", 12, low);
        self.over.put("x ");
        put_count(self.alloc, &mut self.over, count as u64);
        self.over.end_words();
    }

    // Which threads live, and what they wait for, behind a place, from a height on.
    fn turn(&mut self, scene: &Scene, place: Place, y: u64) {
        let turns = turns_upto(&scene.turns, self.next, place);
        turn_strands(&mut self.under, &mut self.strands, &self.layout, turns, y);
        self.next = self.next.saturating_add(turns.len());
    }
}

// The name of a thread, and its space.
fn draw_name(ink: &mut Ink, column: &Column, x: u64, top: u64) {
    ink.begin_words("name", x, top.saturating_add(17));
    ink.id(column.thread);
    ink.end_words();
    if let Some(space) = column.space {
        ink.begin_words("space", x, top.saturating_add(30));
        ink.between("space ", space, "");
        ink.end_words();
    }
}

// A time among the moments, behind a sign.
fn draw_time(ink: &mut Ink, sign: &str, time: u64, low: u64) {
    ink.begin_words("m", MOMENT, low);
    ink.put(sign);
    put_time(ink, time);
    ink.end_words();
}

// What a row says, cut where there is no room.
fn draw_label(ink: &mut Ink, layout: &Layout, label: &str, low: u64) {
    ink.begin_words("w", layout.words, low);
    if label.chars().count() <= layout.letters {
        ink.put(label);
    } else {
        ink.cut(label, layout.letters);
    }
    ink.end_words();
}
