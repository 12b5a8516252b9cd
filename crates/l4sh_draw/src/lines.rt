ghost use Rattle.std.specs.Prelude.{◌≡◌, ◌<◌, ◌≤◌, [], ◌∷◌, ◌++◌, All, flat_map, length, IfOk, OnOk, OnErr};
ghost use Rattle.l4sh_draw.specs.Lines.{rows_in, rows_of, with_rows};

use l4sh_chart::Fold;
use std::alloc::{AllocError, Global};
use std::marker::Model;
use std::mem;

/// After so many rows the threads are named again.
const ROWS_BETWEEN_NAMES: usize = 40;

/// A line of a chart.
#[derive(Clone, Copy)]
pub(crate) enum Line {
    /// The names of the threads.
    Names,
    /// A row, and how often the pattern comes that it is of.
    Row { row: usize, copies: usize },
    /// How often the rows above it come, which are those of a fold.
    Copies { fold: usize },
}

/// The lines of a page.
pub(crate) type Page = Vec<Line>;

/// Pages that are being made, seen as the rows that they show so far, and how many a page may have.
#[derive(Drop)]
struct Pages {
    alloc: Global,
    pages: Vec<Page>,
    page: Page,
    most: usize,
    // how many rows the page has, and how many since the threads were named
    rows: usize,
    since: usize,
}

impl Model for Pages {
    ghost use Rattle.std.specs.Prelude.{◌++◌, ◌<◌, ◌≤◌, All, flat_map, length};
    ghost use Rattle.l4sh_draw.specs.Lines.{ShownRows, rows_in};

    ghost Value = { ShownRows };

    ghost view = { λ p. record {
      rows = flat_map (λ page. rows_in page.items) p.pages.items ++ rows_in p.page.items;
      most = p.most;
    } };

    ghost invariant = { λ p. (0 < p.most)
        × (length (rows_in p.page.items) ≤ p.rows)
        × (p.rows ≤ p.most)
        × All (λ page. length (rows_in page.items) ≤ p.most) p.pages.items };
}

/// The lines of a chart by pages of so many rows at most; 0: all on one page. Each page begins with
/// the names of the threads. The rows of each fold come once, in their order.
pub(crate) fn pages_of(alloc: Global, folds: &[Fold], most: usize) -> Result<Vec<Page>, AllocError>
    ensures rows { IfOk result (λ pages.
        flat_map (λ page. rows_in page.items) pages.items ≡ flat_map rows_of folds.now) }
    ensures few { IfOk result (λ pages.
        0 < most → All (λ page. length (rows_in page.items) ≤ most) pages.items) }
{
    let mut pages = Pages::new(alloc, if most > 0 { most } else { usize::MAX });
    for (index, fold) in folds.iter().enumerate() {
        pages.add_fold(index, fold)?;
    }
    pages.finish()
}

/// Puts a line on a page.
#[tactic(auto, using(crate::proofs::LineLemmas::line_put))]
fn put_line(page: &mut Page, line: Line) -> Result<(), AllocError>
    ensures rows { OnOk result (rows_in page.new.items ≡ rows_in page.old.items
        ++ rows_in (line ∷ [])) }
    ensures same { OnErr result (page.new.items ≡ page.old.items) }
{
    page.push(line)?;
    Ok(())
}

// Puts a row on a page, below the names of the threads where they are to stand there.
fn put_row(page: &mut Page, row: usize, copies: usize, is_named: bool) -> Result<(), AllocError>
    ensures rows { OnOk result (rows_in page.new.items ≡ rows_in page.old.items ++ row ∷ []) }
    ensures same { OnErr result (rows_in page.new.items ≡ rows_in page.old.items) }
{
    if is_named {
        put_line(page, Line::Names)?;
    }
    put_line(page, Line::Row { row, copies })
}

// Begins the next page where this one has as many rows as it may, and answers how many the page
// has.
fn make_room(
    alloc: Global,
    pages: &mut Vec<Page>,
    page: &mut Page,
    rows: usize,
    most: usize,
) -> Result<usize, AllocError>
    requires { 0 < most }
    ensures shown { OnOk result (flat_map (λ page. rows_in page.items) pages.new.items
        ++ rows_in page.new.items ≡ flat_map (λ page. rows_in page.items) pages.old.items
        ++ rows_in page.old.items) }
    ensures few { length (rows_in page.old.items) ≤ most
        → All (λ page. length (rows_in page.items) ≤ most) pages.old.items
        → All (λ page. length (rows_in page.items) ≤ most) pages.new.items }
    ensures shorter { length (rows_in page.new.items) ≤ length (rows_in page.old.items) }
    ensures room { IfOk result (λ count. count < most) }
    ensures counted { length (rows_in page.old.items) ≤ rows
        → IfOk result (λ count. length (rows_in page.new.items) ≤ count) }
{
    if rows < most {
        return Ok(rows);
    }
    let full = mem::replace(page, Vec::new(alloc));
    pages.push(full)?;
    Ok(0)
}

// How many rows there are since the threads were named, with one more.
fn rows_since(is_named: bool, since: usize) -> usize {
    if is_named { 1 } else { since.saturating_add(1) }
}

impl Pages {
    /// No row, and pages of so many at most.
    fn new(alloc: Global, most: usize) -> Pages
        requires { 0 < most }
        ensures { result ≡ record { rows = []; most = most } }
    {
        Pages {
            alloc,
            pages: Vec::new(alloc),
            page: Vec::new(alloc),
            most,
            rows: 0,
            since: 0,
        }
    }

    /// The rows of a fold, and how often they come.
    fn add_fold(&mut self, index: usize, fold: &Fold) -> Result<(), AllocError>
        ensures { OnOk result (self.new ≡ with_rows (rows_of fold.now) self.old) }
    {
        for row in fold.first..fold.first.saturating_add(fold.period) {
            self.add_row(row, fold.count)?;
        }
        if fold.count > 1 {
            put_line(&mut self.page, Line::Copies { fold: index })?;
        }
        Ok(())
    }

    /// A row, on the next page where this one is full.
    fn add_row(&mut self, row: usize, copies: usize) -> Result<(), AllocError>
        ensures { OnOk result (self.new ≡ with_rows (row ∷ []) self.old) }
    {
        self.rows = make_room(
            self.alloc,
            &mut self.pages,
            &mut self.page,
            self.rows,
            self.most,
        )?;
        let is_named = self.rows == 0 || self.since >= ROWS_BETWEEN_NAMES;
        put_row(&mut self.page, row, copies, is_named)?;
        self.since = rows_since(is_named, self.since);
        self.rows += 1;
        Ok(())
    }

    /// The pages, with the one that is not full.
    fn finish(self) -> Result<Vec<Page>, AllocError>
        ensures rows { IfOk result (λ pages. flat_map (λ page. rows_in page.items)
            pages.items ≡ self.rows) }
        ensures few { IfOk result (λ pages. All
            (λ page. length (rows_in page.items) ≤ self.most) pages.items) }
    {
        let Pages {
            mut pages,
            page,
            ..
        } = self;
        pages.push(page)?;
        Ok(pages)
    }
}
