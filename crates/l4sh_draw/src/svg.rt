use crate::ink::Ink;
use crate::layout::Layout;
use crate::legend::draw_legend;
use crate::lines::pages_of;
use crate::sheet::Sheet;
use crate::style::STYLE;
use l4sh_chart::Scene;
use l4sh_state::Times;
use std::alloc::{AllocError, Global};

/// Draws a scene as one SVG picture: a column for each thread, bars where it
/// waits, a row for each entry, and a legend. Moments are told by these times.
pub fn draw_svg(alloc: Global, scene: &Scene, times: Times) -> Result<String, AllocError> {
    let mut ink = Ink::new(alloc);
    let done = draw_picture(alloc, &mut ink, scene, times);
    ink.keep(done);
    ink.finish()
}

// The head of the picture, its legend, and its rows.
fn draw_picture(
    alloc: Global,
    ink: &mut Ink,
    scene: &Scene,
    times: Times,
) -> Result<(), AllocError> {
    let layout = Layout::of(alloc, scene)?;
    let mut legend = Ink::new(alloc);
    let top = draw_legend(&mut legend, scene, &layout, 16);
    let done = match Sheet::new(alloc, scene, layout, top, times) {
        Ok(sheet) => draw_below(alloc, ink, scene, sheet, &legend),
        Err(lost) => Err(lost),
    };
    drop(legend);
    done
}

// The head, the legend, and the rows on this sheet below it.
fn draw_below(
    alloc: Global,
    ink: &mut Ink,
    scene: &Scene,
    sheet: Sheet,
    legend: &Ink,
) -> Result<(), AllocError> {
    let mut sheet = sheet;
    let done = draw_rows(alloc, &mut sheet, scene);
    let width = sheet.width();
    put_picture(ink, &mut sheet, legend, width);
    drop(sheet);
    done
}

// Draws all rows, on one page.
fn draw_rows(alloc: Global, sheet: &mut Sheet, scene: &Scene) -> Result<(), AllocError> {
    let pages = pages_of(alloc, &scene.folds, 0)?;
    for page in &pages {
        sheet.draw(scene, page);
    }
    drop(pages);
    Ok(())
}

// The legend, and what was drawn.
fn put_picture(ink: &mut Ink, sheet: &mut Sheet, legend: &Ink, width: u64) {
    put_head(ink, width, sheet.bottom().saturating_add(8));
    ink.put(STYLE);
    put_paper(ink);
    ink.add(legend);
    sheet.end_page(ink, 0);
    ink.put("</svg>\n");
}

/// Appends the head of a picture of this size.
pub(crate) fn put_head(ink: &mut Ink, width: u64, height: u64) {
    ink.between(
        "<svg xmlns=\"http://www.w3.org/2000/svg\" width=\"",
        width,
        "\"",
    );
    ink.between(" height=\"", height, "\">\n");
}

/// Appends what lies below all of a picture.
pub(crate) fn put_paper(ink: &mut Ink) {
    ink.put("<rect class=\"paper\" width=\"100%\" height=\"100%\"/>\n");
}
