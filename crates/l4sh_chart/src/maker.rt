ghost use Rattle.std.specs.Prelude.{IfOk, length};
ghost use Rattle.l4sh_chart.specs.Folds.{Covers};

use crate::bars::Bars;
use crate::events::{Change, Changes, Event, Mark, Step};
use crate::folding::{Fold, folds_of, singles};
use crate::notes::Notes;
use crate::order::{in_order, move_rows, order_of};
use crate::scene::{Column, Row, Said, Scene};
use crate::selection::Selection;
use crate::shapes::shapes_of;
use crate::told::{ToldCall, ToldCalls};
use ipc_history::{Entry, Input};
use ipc_words::ThreadId;
use std::alloc::{AllocError, Global};
use std::collections::BTreeMap;
use std::mem;

/// Makes the scene of the chosen entries of a history, which it is given one by one. It holds what
/// the scene has, and of the other entries what the open calls wait for.
#[derive(Drop)]
pub struct SceneMaker {
    selection: Selection,
    columns: Vec<Column>,
    rows: Vec<Row>,
    bars: Bars,
    // the columns' places, by the words of their threads
    places: BTreeMap<u64, usize>,
    notes: Notes,
    calls: ToldCalls,
    // how many entries it was given
    count: u64,
    // whether the last entry has the last row, and the next one may tell that it stops phases
    may_stop: bool,
}

impl SceneMaker {
    /// A maker that was given no entry.
    pub fn new(alloc: Global, selection: Selection) -> SceneMaker {
        SceneMaker {
            selection,
            columns: Vec::new(alloc),
            rows: Vec::new(alloc),
            bars: Bars::new(alloc),
            places: BTreeMap::new(alloc),
            notes: Notes::new(alloc),
            calls: ToldCalls::new(alloc),
            count: 0,
            may_stop: false,
        }
    }

    /// Which entries are chosen.
    pub fn selection(&self) -> &Selection {
        &self.selection
    }

    /// Gives it entries, one behind the other.
    pub fn give_all(&mut self, entries: &[Entry]) -> Result<(), AllocError> {
        for entry in entries {
            self.give(entry)?;
        }
        Ok(())
    }

    /// Gives it the next entry.
    pub fn give(&mut self, entry: &Entry) -> Result<(), AllocError> {
        self.answer(entry);
        self.count = self.count.saturating_add(1);
        if self.selection.reaches(self.count) {
            self.add(entry)
        } else {
            Ok(())
        }
    }

    /// Takes note of whether an entry is the rules' answer to the one before it.
    pub fn answer(&mut self, entry: &Entry) {
        if self.may_stop && matches!(entry, Entry::Written(_)) {
            let place = self.rows.len().saturating_sub(1);
            if let Some(row) = self.rows.get_mut(place) {
                row.mark = Mark::Stopped;
            }
        }
        self.may_stop = false;
    }

    /// Hands out the scene of the chosen entries, with the rows that come again folded or each by
    /// itself.
    pub fn scene(&mut self, is_folded: bool) -> Result<Scene, AllocError>
        // No row is lost, and none is shown twice.
        ensures folds { IfOk result (λ scene. Covers 0 scene.folds.items
            (length scene.rows.items)) }
    {
        let alloc = *self.rows.allocator();
        let order = order_of(alloc, &self.places, self.columns.len())?;
        move_rows(&mut self.rows, &order);
        let folds = folds_for(alloc, &self.rows, self.calls.told(), is_folded)?;
        let columns = in_order(alloc, &self.columns, &self.places)?;
        let turns = self.bars.take(&self.places, &order)?;
        Ok(Scene {
            columns,
            rows: mem::replace(&mut self.rows, Vec::new(alloc)),
            calls: self.calls.take(),
            turns,
            folds,
        })
    }

    // Adds what the last entry shows.
    fn add(&mut self, entry: &Entry) -> Result<(), AllocError> {
        self.note_call(entry)?;
        let Step { event, changes } = self.notes.step(entry)?;
        let Changes { first, second } = changes;
        match event {
            Some(event) if self.selection.shows(self.count, event.from, event.to) => {
                self.show(entry, event, [first, second])
            }
            _ => self.hide([first, second]),
        }
    }

    // Keeps what changes by an entry that is not shown.
    fn hide(&mut self, changes: [Option<Change>; 2]) -> Result<(), AllocError> {
        for change in changes.iter().flatten() {
            self.bars.hide(*change)?;
        }
        Ok(())
    }

    // Takes note of a call that is entered.
    fn note_call(&mut self, entry: &Entry) -> Result<(), AllocError> {
        match entry {
            Entry::Given(Input::Called(number, caller, call)) => {
                self.calls.note(*number, *caller, call.call())
            }
            _ => Ok(()),
        }
    }

    // Adds a row, and what changes above it and by it.
    fn show(
        &mut self,
        entry: &Entry,
        event: Event,
        changes: [Option<Change>; 2],
    ) -> Result<(), AllocError> {
        let from = self.column(event.from)?;
        let to = self.column(event.to)?;
        let call = self.call_of(event)?;
        let row = self.rows.len();
        self.bars.turn_above(row)?;
        for change in changes.iter().flatten() {
            self.bars.turn_at(row, *change)?;
        }
        self.rows.push(Row {
            number: self.count,
            said: said_by(entry),
            moment: self.notes.moment(),
            mark: event.mark,
            from,
            to,
            call,
            shown: event.shown,
            sent: event.sent,
            received: event.received,
        })?;
        self.may_stop = event.mark == Mark::Missed;
        Ok(())
    }

    // The place of the call that an event is about.
    fn call_of(&mut self, event: Event) -> Result<Option<usize>, AllocError> {
        if event.is_of_call {
            self.calls.place(event.from)
        } else {
            Ok(None)
        }
    }

    // The column of a thread, which may be a new one.
    fn column(&mut self, thread: ThreadId) -> Result<usize, AllocError> {
        match self.places.get(&thread.to_word()).copied() {
            Some(column) => Ok(column),
            None => self.add_column(thread),
        }
    }

    fn add_column(&mut self, thread: ThreadId) -> Result<usize, AllocError> {
        let column = self.columns.len();
        self.columns.push(Column {
            thread,
            space: self.notes.space(thread),
        })?;
        self.places.insert(thread.to_word(), column)?;
        Ok(column)
    }
}

// What an entry says, beside its threads and its call.
fn said_by(entry: &Entry) -> Said {
    match entry {
        Entry::Given(Input::At(moment)) => Said::Reads(*moment),
        Entry::Given(Input::Opened(_, space)) => Said::Opens(*space),
        Entry::Given(Input::Broke(_)) => Said::Ends,
        Entry::Given(Input::Called(_, _, _)) => Said::Calls,
        Entry::Given(Input::Exreg(_, other, control)) => Said::Stops(*other, *control),
        Entry::Given(Input::Moved(number, count)) => Said::Moves(*number, *count),
        Entry::Written(output) => Said::Writes(*output),
    }
}

// Which rows come again.
fn folds_for(
    alloc: Global,
    rows: &[Row],
    calls: &[ToldCall],
    is_folded: bool,
) -> Result<Vec<Fold>, AllocError>
    ensures { IfOk result (λ folds. Covers 0 folds.items (length rows.now)) }
{
    if !is_folded {
        return singles(alloc, rows.len());
    }
    let shapes = shapes_of(alloc, rows, calls)?;
    let folds = folds_of(alloc, &shapes);
    drop(shapes);
    folds
}
