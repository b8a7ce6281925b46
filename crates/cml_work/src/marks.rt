//! What one thread was shown of a list that only grows, while others have it under a lock.
//!
//! The keeper's mark lies under the lock with the list, and knows a prefix of it that has all that anybody was shown. Each other mark
//! knows a prefix of what the keeper knew. Marks have no bytes: they are for the proofs alone.

ghost use Rattle.std.specs.Prelude.{◌≡◌, [], IfOk};
ghost use Rattle.cml_work.specs.Marks.{known_of, shown_of, IsKeeper, WasShown, BeginsWith};

use atomic_table::{Join, Split};
use cml_schedule::Report;
use crossbeam_utils::atomic::seq_cell::{Pass, RuledSeqCell};
use crossbeam_utils::rule::{Outcome, Protocol};
use std::alloc::{AllocError, Global};
use std::collections::LinkedList;
use std::marker::{Brand, PhantomData};
use std::sync::Wait;

/// What a mark knows: the keeper all that was shown; and each what it was shown itself. No value of it is made.
pub struct Known {
    pub keeps: bool,
    pub all: LinkedList<Report>,
    pub shown: LinkedList<Report>,
}

/// The rule of the marks.
pub struct Grows;

impl Protocol<[u64; 1], Known> for Grows {
    ghost use Rattle.std.specs.Prelude.{[]};
    ghost use Rattle.cml_work.specs.Marks.{knower, MarksAgree};

    ghost holds = { MarksAgree };

    ghost first = { knower [] };
}

/// What the list is now. It has no value at run time.
pub trait Naming {
    ghost use Rattle.std.specs.Prelude.{List};
    ghost use Rattle.cml_schedule.specs.Reports.{PlainReport};

    /// The list.
    ghost list: { List PlainReport };
}

impl Naming for Brand {
    ghost use Rattle.std.specs.Prelude.{[]};

    ghost list = { [] };
}

// The keeper learns what the list is now, and that it begins with what the mark that was taken in was shown.
pub struct Learns<X: Naming> {
    of: PhantomData<X>,
}

impl<X: Naming> Outcome<[u64; 1], Known> for Learns<X> {
    ghost use Rattle.cml_work.specs.Marks.{Learned};

    ghost then = { λ v before after w. Learned X.list v w };
}

// The keeper takes a mark in; and gives out one that was shown all that it knows.
pub struct All;

impl Split<Known> for All {
    ghost use Rattle.cml_work.specs.Marks.{shown_all};

    ghost left = { λ v. v };

    ghost right = { shown_all };
}

impl Join<Known> for All {
    ghost use Rattle.cml_work.specs.Marks.{with_shown, nobody};

    ghost both = { with_shown };

    ghost spent = { nobody };
}

/// What ties the marks together: a cell of the toolchain's, made with a rule that each access to it keeps.
pub type Board = RuledSeqCell<[u64; 1], Known, Grows, 1>;

/// What one thread was shown.
pub type Mark = Pass<[u64; 1], Known>;

/// A board, with the mark of its keeper, who knows an empty list.
pub fn new_board(alloc: Global) -> Result<(Board, Mark), AllocError>
    ensures { IfOk result (λ b. IsKeeper b.0.table.shared.table_id [] b.1) }
{
    Board::ruled(alloc, [0])
}

// The keeper takes a mark in, and learns what the list is now.
pub(crate) fn learn<X: Naming, R: Wait>(
    rt: &R,
    board: &Board,
    keeper: &mut Mark,
    mark: Mark,
    list: &[Report],
)
    requires keeper { IsKeeper board.now.table.shared.table_id (known_of keeper.old) keeper.old }
    requires mark { WasShown board.now.table.shared.table_id (shown_of mark) mark }
    requires named { X.list ≡ list.now }
    requires grows { BeginsWith X.list (known_of keeper.old) }
    ensures keeper { IsKeeper board.now.table.shared.table_id X.list keeper.new }
    ensures shown { BeginsWith X.list (shown_of mark) }
{
    let _ = list;
    board.join_pass::<All>(keeper, mark);
    board.load_as::<Learns<X>, R>(rt, keeper);
}

// A mark that was shown all that the keeper knows.
pub(crate) fn show(board: &Board, keeper: &mut Mark) -> Mark
    requires keeper { IsKeeper board.now.table.shared.table_id (known_of keeper.old) keeper.old }
    ensures keeper { IsKeeper board.now.table.shared.table_id (known_of keeper.old) keeper.new }
    ensures mark { WasShown board.now.table.shared.table_id (known_of keeper.old) result }
{
    board.split_pass::<All>(keeper)
}
