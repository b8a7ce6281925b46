//! How each mark is drawn.

use super::content::Content;
use super::xml::Attribute;
use crate::layout::{Frame, Link, Mark, Shape, level_of, line_from_left, row_height, seat_of};
use std::alloc::{AllocError, Global};

/// What draws marks in a frame.
#[derive(Clone, Copy)]
pub(crate) struct Pen<'a> {
    pub(crate) alloc: Global,
    pub(crate) frame: &'a Frame,
}

// Where words stand: a place, and how far they are moved from it.
#[derive(Clone, Copy)]
struct Spot {
    x: u64,
    y: u64,
    right: &'static str,
    down: &'static str,
}

// Which marks have a sign on a line.
fn has_sign(shape: Shape) -> bool {
    !matches!(
        shape,
        Shape::Beginning | Shape::Tick | Shape::Print | Shape::Event | Shape::Lost
    )
}

// The class of the sign.
fn sign_class(shape: Shape) -> &'static str {
    match shape {
        Shape::Spawn | Shape::Runs => "life",
        Shape::Arrow | Shape::Dot | Shape::Nack => "solid",
        Shape::End | Shape::Fault => "bar",
        Shape::Fed => "arrow",
        Shape::Waits => "waits",
        Shape::Stuck => "stuck",
        _ => "",
    }
}

// What is drawn from the place of the sign on.
fn sign_path(shape: Shape, from_left: bool) -> &'static str {
    match shape {
        Shape::Spawn => "m-7-4l7 4l-7 4",
        Shape::Arrow if from_left => "l-9-4v8z",
        Shape::Arrow => "l9-4v8z",
        Shape::Fed => "m-5 0l5-5l5 5l-5 5z",
        Shape::Dot => "m-4 0a4 4 0 1 0 8 0a4 4 0 1 0-8 0z",
        Shape::Nack => "m-4-4h8l-4 8z",
        Shape::End => "m-7 0h14",
        Shape::Fault => "m-5-5l10 10m0-10l-10 10",
        Shape::Waits | Shape::Stuck => "m-5 0a5 5 0 1 0 10 0a5 5 0 1 0-10 0z",
        Shape::Runs => "m-5-3l5 8l5-8",
        _ => "",
    }
}

// Which marks have words in a column.
fn has_words(shape: Shape) -> bool {
    !matches!(
        shape,
        Shape::Tick | Shape::End | Shape::Waits | Shape::Stuck
    )
}

// The class of the words.
fn words_class(shape: Shape) -> &'static str {
    match shape {
        Shape::Beginning | Shape::Spawn | Shape::Fault => "head",
        Shape::Print | Shape::Nack | Shape::Runs => "print",
        Shape::Lost => "lost",
        _ => "words",
    }
}

// How far words stand to the right of their place, and below it.
fn words_moved(shape: Shape) -> (&'static str, &'static str) {
    match shape {
        Shape::Beginning => ("10", "-8"),
        Shape::Arrow => ("10", "-6"),
        _ => ("8", "4"),
    }
}

impl Pen<'_> {
    // Where the line of a thread stands.
    fn column(&self, thread: u64) -> u64 {
        line_from_left(self.frame.edges.as_slice(), thread)
    }

    // Adds a path of this class.
    pub(crate) fn add_path<'x>(
        &self,
        out: &mut Content,
        class: &'x str,
        data: &'x str,
    ) -> Result<(), AllocError> {
        let attributes = [
            Attribute {
                name: "class",
                value: class.as_bytes(),
            },
            Attribute {
                name: "d",
                value: data.as_bytes(),
            },
        ];
        out.add_lone(self.alloc, "path", &attributes)
    }

    // Adds words of this class, which stand in an element, at this place.
    fn add_text<'x>(
        &self,
        out: &mut Content,
        class: &'x str,
        place: (&'x str, &'x str),
        moved: (&'x str, &'x str),
        inner: &Content,
    ) -> Result<(), AllocError> {
        let attributes = [
            Attribute {
                name: "class",
                value: class.as_bytes(),
            },
            Attribute {
                name: "x",
                value: place.0.as_bytes(),
            },
            Attribute {
                name: "y",
                value: place.1.as_bytes(),
            },
            Attribute {
                name: "dx",
                value: moved.0.as_bytes(),
            },
            Attribute {
                name: "dy",
                value: moved.1.as_bytes(),
            },
        ];
        out.add_element(self.alloc, "text", &attributes, inner)
    }

    // Adds words of this class.
    fn add_words(
        &self,
        out: &mut Content,
        class: &str,
        spot: Spot,
        words: &[u8],
    ) -> Result<(), AllocError> {
        let x = format!(in self.alloc; "{}", spot.x)?;
        let y = format!(in self.alloc; "{}", spot.y)?;
        let mut inner = Content::new(self.alloc);
        inner.add_words(self.alloc, words)?;
        let place = (x.as_str(), y.as_str());
        self.add_text(out, class, place, (spot.right, spot.down), &inner)
    }

    /// Adds what a mouse shows.
    pub(crate) fn add_title(&self, out: &mut Content, title: &[u8]) -> Result<(), AllocError> {
        let mut inner = Content::new(self.alloc);
        inner.add_words(self.alloc, title)?;
        out.add_element(self.alloc, "title", &[], &inner)
    }

    // Adds the whole row of a mark, unseen, for the mouse.
    fn add_cover(&self, out: &mut Content, mark: &Mark) -> Result<(), AllocError> {
        let width = self.frame.width;
        let height = row_height(mark.shape);
        let data = format!(in self.alloc; "M0 {}H{width}v{height}H0z", mark.at)?;
        self.add_path(out, "cover", data.as_str())
    }

    // Adds the number of the item, in the margin.
    fn add_note(&self, out: &mut Content, mark: &Mark) -> Result<(), AllocError> {
        if mark.item == 0 {
            return Ok(());
        }
        let note = mark.note(self.alloc)?;
        let spot = Spot {
            x: self.frame.margin,
            y: level_of(mark),
            right: "-8",
            down: "4",
        };
        self.add_words(out, "note", spot, note.as_slice())
    }

    // Adds a line straight across.
    fn add_across(
        &self,
        out: &mut Content,
        class: &str,
        y: u64,
        from: u64,
        to: u64,
    ) -> Result<(), AllocError> {
        let data = format!(in self.alloc; "M{from} {y}H{to}")?;
        self.add_path(out, class, data.as_str())
    }

    // Adds the line that leads from one thread to another, or across the picture.
    fn add_line(&self, out: &mut Content, mark: &Mark) -> Result<(), AllocError> {
        let from = self.column(mark.thread);
        let to = self.column(mark.other);
        let y = level_of(mark);
        match mark.shape {
            Shape::Spawn => self.add_across(out, "spawn", y, from, to),
            Shape::Arrow => self.add_across(out, "arrow", y, from, to),
            Shape::Tick => self.add_across(out, "tick", y, self.frame.margin, self.frame.width),
            _ => Ok(()),
        }
    }

    // Adds the sign of a mark, on the line of the thread that it leads to.
    fn add_sign(&self, out: &mut Content, mark: &Mark) -> Result<(), AllocError> {
        if !has_sign(mark.shape) {
            return Ok(());
        }
        let x = self.column(mark.other);
        let y = level_of(mark);
        let path = sign_path(mark.shape, mark.thread < mark.other);
        let data = format!(in self.alloc; "M{x} {y}{path}")?;
        self.add_path(out, sign_class(mark.shape), data.as_str())
    }

    // Adds the words of a mark.
    fn add_said(&self, out: &mut Content, mark: &Mark) -> Result<(), AllocError> {
        if !has_words(mark.shape) {
            return Ok(());
        }
        let (right, down) = words_moved(mark.shape);
        let spot = Spot {
            x: self.column(seat_of(mark)),
            y: level_of(mark),
            right,
            down,
        };
        let class = words_class(mark.shape);
        self.add_words(out, class, spot, mark.words.as_slice())
    }

    // Adds the parts of a mark.
    fn add_parts(&self, out: &mut Content, mark: &Mark) -> Result<(), AllocError> {
        self.add_title(out, mark.title.as_slice())?;
        self.add_cover(out, mark)?;
        self.add_note(out, mark)?;
        self.add_line(out, mark)?;
        self.add_sign(out, mark)?;
        self.add_said(out, mark)
    }

    /// Adds a mark.
    pub(crate) fn add_mark(&self, out: &mut Content, mark: &Mark) -> Result<(), AllocError> {
        let mut inner = Content::new(self.alloc);
        self.add_parts(&mut inner, mark)?;
        out.add_element(self.alloc, "g", &[], &inner)?;
        out.add_words(self.alloc, b"\n")
    }

    // Adds the arrow from an item that was fed, whose sign it fills, to the one that took it.
    fn add_fed(&self, out: &mut Content, link: Link) -> Result<(), AllocError> {
        let (from, at) = (self.column(link.thread), link.at);
        let (to, below) = (self.column(link.other), link.below);
        let sign = sign_path(Shape::Fed, true);
        let filled = format!(in self.alloc; "M{from} {at}{sign}")?;
        self.add_path(out, "solid", filled.as_str())?;
        let line = format!(in self.alloc; "M{from} {at}L{to} {below}")?;
        self.add_path(out, "fed", line.as_str())
    }

    // Adds the bar along which a thread holds something.
    fn add_held(&self, out: &mut Content, link: Link) -> Result<(), AllocError> {
        let (x, at, below) = (self.column(link.thread), link.at, link.below);
        let bar = format!(in self.alloc; "M{x} {at}V{below}")?;
        self.add_path(out, "held", bar.as_str())
    }

    /// Adds a line between marks.
    pub(crate) fn add_link(&self, out: &mut Content, link: Link) -> Result<(), AllocError> {
        if link.is_held {
            self.add_held(out, link)?;
        } else {
            self.add_fed(out, link)?;
        }
        out.add_words(self.alloc, b"\n")
    }

    // Adds the line of a thread, down to a mark at which it ends.
    fn add_life(&self, out: &mut Content, mark: &Mark) -> Result<(), AllocError> {
        let x = self.column(mark.thread);
        let top = line_from_left(self.frame.tops.as_slice(), mark.thread);
        let y = level_of(mark);
        let data = format!(in self.alloc; "M{x} {top}V{y}")?;
        self.add_path(out, "life", data.as_str())?;
        out.add_words(self.alloc, b"\n")
    }

    /// Adds the line of a thread, if it ends at the mark.
    pub(crate) fn add_ended(&self, out: &mut Content, mark: &Mark) -> Result<(), AllocError> {
        match mark.shape {
            Shape::End | Shape::Fault | Shape::Waits | Shape::Stuck | Shape::Runs => {
                self.add_life(out, mark)
            }
            _ => Ok(()),
        }
    }
}
