//! The index as a table of communications.

ghost use Rattle.std.specs.Prelude.{true};
ghost use Rattle.cml_index.specs.Posts as spec;

use crate::index::OfferIndex;
use cml_objects::Tally;
use cml_scan::{Light, Meet, Place, Table};
use cml_value::{Group, Tid};
use std::alloc::{AllocError, Global};

impl Table for OfferIndex {
    ghost entries = { λ told. told.entries };

    ghost is_lit = { λ told. spec.told told.flags };

    ghost SURE = { true };

    const SURE: bool = true;

    fn change(
        &mut self,
        alloc: Global,
        gone: &[Tid],
        came: Option<(Tid, &Group)>,
        lit: &[Light],
        unlit: &[Light],
    ) -> Result<(), AllocError> {
        self.change_tallied(alloc, gone, came, lit, unlit, &mut Tally::new())
    }

    fn rows(&self, alloc: Global) -> Result<Vec<Meet>, AllocError> {
        self.all_rows(alloc)
    }

    fn has(&self, row: &Meet) -> bool {
        self.has_tallied(row, &mut Tally::new())
    }

    fn head_count(&self) -> usize {
        self.head_count_tallied(&mut Tally::new())
    }

    fn head(&self, k: usize) -> Place {
        self.head_tallied(k, &mut Tally::new())
    }

    fn partner_count(&self, head: Place) -> usize {
        self.partner_count_tallied(head, &mut Tally::new())
    }

    fn partner(&self, head: Place, j: usize) -> Meet {
        self.partner_tallied(head, j, &mut Tally::new())
    }
}
