//! What a run of workers begins with.

ghost use Rattle.atomic_table.specs.Seated.{TableId};
ghost use Rattle.cml_work.specs.{Picks.{Picker}, Works.{PlainOpening}};

use std::marker::Brand;

/// The hub with which a run of workers begins, by what stays of it to the end of the run. It has no value at run time: a run that begins
/// picks its own for `Brand`, and so the lock can promise that its hub goes on from that one.
pub trait Opening {
    /// What stays.
    ghost opening: { PlainOpening };

    /// The board by which its reports are told.
    ghost board: { TableId };

    /// What its chooser picks.
    ghost picks: { Picker };
}

impl Opening for Brand {
    ghost use Rattle.std.specs.Prelude.{[], None};
    ghost use Rattle.cml_work.specs.Marks.{no_board};

    ghost opening = { record { program = []; budget = 0; watch = None; items = [] } };

    ghost board = { no_board };

    ghost picks = { λ k rows. None };
}
