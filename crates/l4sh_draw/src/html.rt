use crate::ink::Ink;
use crate::layout::Layout;
use crate::legend::draw_legend;
use crate::lines::{Line, Page, pages_of};
use crate::sheet::Sheet;
use crate::style::{PAGE_STYLE, SCRIPT, STYLE};
use crate::svg::{put_head, put_paper};
use l4sh_chart::Scene;
use l4sh_state::Times;
use std::alloc::{AllocError, Global};

/// So many rows are on a page where it is not said.
const ROWS_OF_PAGE: usize = 200;

/// How a page begins, up to its style.
const HEAD: &str = "<!DOCTYPE html>\n<html lang=\"en\">\n<head>\n<meta charset=\"utf-8\">\n\
    <title>Chart of a trace</title>\n";

/// What stands behind its style, up to the number of pages.
const FIELDS: &str = "</head>\n<body>\n<header>\n<label>Find <input id=\"field\" type=\"search\" \
    placeholder=\"2.1, timeout, label 5, waited ..\"></label>\n\
    <span id=\"told\"></span>\n\
    <label>Page <input id=\"page\" type=\"number\" style=\"width: 6em\" ";

/// Draws a scene as an HTML page that needs nothing else: a field that finds rows,
/// a legend, and a picture for each so many rows; 0: 200. Moments are told by these times.
pub fn draw_html(
    alloc: Global,
    scene: &Scene,
    rows: usize,
    times: Times,
) -> Result<String, AllocError> {
    let rows = if rows == 0 { ROWS_OF_PAGE } else { rows };
    let mut ink = Ink::new(alloc);
    let done = draw_page(alloc, &mut ink, scene, rows, times);
    ink.keep(done);
    ink.finish()
}

fn draw_page(
    alloc: Global,
    ink: &mut Ink,
    scene: &Scene,
    rows: usize,
    times: Times,
) -> Result<(), AllocError> {
    let layout = Layout::of(alloc, scene)?;
    let pages = pages_of(alloc, &scene.folds, rows)?;
    put_top(ink, pages.len() as u64);
    put_legend(alloc, ink, scene, &layout);
    let done = match Sheet::new(alloc, scene, layout, 0, times) {
        Ok(sheet) => draw_pictures(ink, scene, sheet, &pages),
        Err(lost) => Err(lost),
    };
    drop(pages);
    ink.put(SCRIPT);
    ink.put("</body>\n</html>\n");
    done
}

// A picture for each of these pages, drawn on this sheet.
fn draw_pictures(
    ink: &mut Ink,
    scene: &Scene,
    sheet: Sheet,
    pages: &[Page],
) -> Result<(), AllocError> {
    let mut sheet = sheet;
    let width = sheet.width();
    for (place, page) in pages.iter().enumerate() {
        sheet.draw(scene, page);
        let height = sheet.bottom().saturating_add(8);
        put_page_head(ink, scene, page, (place as u64).saturating_add(1), height);
        put_head(ink, width, height);
        put_paper(ink);
        sheet.end_page(ink, 0);
        ink.put("</svg>\n</section>\n");
    }
    drop(sheet);
    Ok(())
}

// All above the legend.
fn put_top(ink: &mut Ink, pages: u64) {
    ink.put_all(&[HEAD, STYLE, PAGE_STYLE, FIELDS]);
    ink.between("min=\"1\" max=\"", pages, "\" value=\"1\"></label>\n");
    ink.between("<span>of ", pages, "</span>\n</header>\n");
}

fn put_legend(alloc: Global, ink: &mut Ink, scene: &Scene, layout: &Layout) {
    let mut legend = Ink::new(alloc);
    let height = draw_legend(&mut legend, scene, layout, 16);
    put_head(ink, layout.width, height);
    ink.add(&legend);
    drop(legend);
    ink.put("</svg>\n");
}

// The head of the section of a page, whose picture has this height: which entries it shows.
fn put_page_head(ink: &mut Ink, scene: &Scene, page: &[Line], number: u64, height: u64) {
    let (first, last) = entries_on(scene, page);
    ink.between("<section id=\"page", number, "\"");
    ink.between(
        " style=\"contain-intrinsic-height: auto ",
        height,
        "px\">\n",
    );
    ink.between("<h2>Page ", number, ": entries ");
    ink.between("", first, " to ");
    ink.between("", last, "</h2>\n");
}

// The numbers of the first and the last entry that has a row on a page; 0 where none has.
fn entries_on(scene: &Scene, page: &[Line]) -> (u64, u64) {
    let mut first = None;
    let mut last = 0u64;
    for line in page {
        if let Some(number) = number_on(scene, *line) {
            last = number;
            first = first.or(Some(number));
        }
    }
    (first.unwrap_or(last), last)
}

// The number of the entry whose row a line shows, if any.
fn number_on(scene: &Scene, line: Line) -> Option<u64> {
    match line {
        Line::Row { row, .. } => {
            let found = scene.rows.get(row)?;
            Some(found.number)
        }
        _ => None,
    }
}
