//! Draws what a sequence chart shows: as text for a terminal, as an SVG picture, and as an HTML
//! page.
#![tactic(auto)]

mod amounts;
mod arrows;
mod details;
mod html;
mod ink;
mod layout;
mod legend;
mod lines;
mod marks;
mod messages;
mod sheet;
mod signs;
mod strands;
mod style;
mod svg;
mod text;
mod words;

pub use html::draw_html;
pub use svg::draw_svg;
pub use text::draw_text;
