//! The text of a picture.

ghost use Rattle.std.specs.Prelude.{IfOk};
ghost use Rattle.cml_picture.specs.WellFormed.{IsWellFormed};

use super::content::Content;
use super::draw::Pen;
use super::xml::{Attribute, file_of};
use crate::layout::{Link, Mark, frame_of};
use std::alloc::{AllocError, Global};

// How each class looks: black on white, and what is lost in red and bold.
const STYLE: &[u8] =
    b"svg{background:#fff}text{font:11px monospace}path{fill:none;stroke:#000}.head{font-weight:bold}.note{fill:#555;text-anchor:end}.print{fill:#333;font-style:italic}.lost{fill:#c00;font-weight:bold}.cover{stroke:none;pointer-events:all}.life{stroke:#777}.spawn{stroke-width:.8;stroke-dasharray:2 2}.tick{stroke:#777;stroke-dasharray:7 5}.arrow{stroke-width:1.5}.fed{stroke:#777;marker-end:url(#tip)}.held{stroke-width:7;opacity:.3}.solid{fill:#000;stroke:none}.bar{stroke-width:3}.waits{fill:#fff;stroke-width:1.5}.stuck{fill:#fff;stroke:#c00;stroke-width:3}";

impl Pen<'_> {
    // Adds how each class looks.
    fn add_style(&self, out: &mut Content) -> Result<(), AllocError> {
        let mut inner = Content::new(self.alloc);
        inner.add_words(self.alloc, STYLE)?;
        let css = Attribute {
            name: "type",
            value: b"text/css",
        };
        out.add_element(self.alloc, "style", &[css], &inner)?;
        out.add_words(self.alloc, b"\n")
    }

    // Adds the tip of the arrows from items that were fed, short of the sign at which they end.
    fn add_tip(&self, out: &mut Content) -> Result<(), AllocError> {
        let mut inner = Content::new(self.alloc);
        self.add_path(&mut inner, "solid", "M0 0l8 4l-8 4z")?;
        let attributes = [
            Attribute {
                name: "id",
                value: b"tip",
            },
            Attribute {
                name: "refX",
                value: b"12",
            },
            Attribute {
                name: "refY",
                value: b"4",
            },
            Attribute {
                name: "markerWidth",
                value: b"8",
            },
            Attribute {
                name: "markerHeight",
                value: b"8",
            },
            Attribute {
                name: "orient",
                value: b"auto",
            },
        ];
        out.add_element(self.alloc, "marker", &attributes, &inner)?;
        out.add_words(self.alloc, b"\n")
    }

    // Adds these lines between marks.
    fn add_links(&self, out: &mut Content, links: &[Link]) -> Result<(), AllocError> {
        for link in links {
            self.add_link(out, *link)?;
        }
        Ok(())
    }

    // Adds the lines of the threads.
    fn add_lives(&self, out: &mut Content, marks: &[Mark]) -> Result<(), AllocError> {
        for mark in marks {
            self.add_ended(out, mark)?;
        }
        Ok(())
    }

    // Adds the marks.
    fn add_marks(&self, out: &mut Content, marks: &[Mark]) -> Result<(), AllocError> {
        for mark in marks {
            self.add_mark(out, mark)?;
        }
        Ok(())
    }

    // What is in a picture of this name.
    fn content_of(
        &self,
        name: &str,
        marks: &[Mark],
        links: &[Link],
    ) -> Result<Content, AllocError> {
        let mut inner = Content::new(self.alloc);
        self.add_title(&mut inner, name.as_bytes())?;
        self.add_style(&mut inner)?;
        self.add_tip(&mut inner)?;
        self.add_lives(&mut inner, marks)?;
        self.add_links(&mut inner, links)?;
        self.add_marks(&mut inner, marks)?;
        Ok(inner)
    }

    // The file of a picture of this size, with what SVG 1.1 wants of the root.
    fn sized<'x>(
        &self,
        width: &'x str,
        height: &'x str,
        corners: &'x str,
        inner: &Content,
    ) -> Result<Vec<u8>, AllocError>
        ensures { IfOk result (λ text. ∥ IsWellFormed text.items ∥₁) }
    {
        let attributes = [
            Attribute {
                name: "xmlns",
                value: b"http://www.w3.org/2000/svg",
            },
            Attribute {
                name: "version",
                value: b"1.1",
            },
            Attribute {
                name: "width",
                value: width.as_bytes(),
            },
            Attribute {
                name: "height",
                value: height.as_bytes(),
            },
            Attribute {
                name: "viewBox",
                value: corners.as_bytes(),
            },
        ];
        file_of(self.alloc, "svg", &attributes, inner)
    }

    // The file of a picture.
    fn file(&self, inner: &Content) -> Result<Vec<u8>, AllocError>
        ensures { IfOk result (λ text. ∥ IsWellFormed text.items ∥₁) }
    {
        let width = format!(in self.alloc; "{}", self.frame.width)?;
        let height = format!(in self.alloc; "{}", self.frame.height)?;
        let corners = format!(in self.alloc; "0 0 {width} {height}")?;
        self.sized(width.as_str(), height.as_str(), corners.as_str(), inner)
    }
}

/// A picture of this name, of so many threads, with these marks, and with these lines below them, as an SVG 1.1 file. It is well-formed whatever the marks are. Nothing
/// overlaps where each thread that has marks has one at which its line begins and one at which it ends, where the rows of marks stand one
/// below the other, and where no words are longer than 100 cells.
///
/// # Errors
/// Out of memory.
pub fn chart_of(
    alloc: Global,
    name: &str,
    threads: u32,
    marks: &[Mark],
    links: &[Link],
) -> Result<Vec<u8>, AllocError>
    ensures { IfOk result (λ text. ∥ IsWellFormed text.items ∥₁) }
{
    let frame = frame_of(alloc, threads, marks)?;
    let pen = Pen {
        alloc,
        frame: &frame,
    };
    let inner = pen.content_of(name, marks, links)?;
    pen.file(&inner)
}
