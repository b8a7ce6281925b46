//! A row that is picked.

ghost use Rattle.std.specs.Prelude.{◌≡◌, true, [], MatchOption};
ghost use Rattle.cml_scan.specs.Scan.{scan_of, has_row};
ghost use Rattle.cml_index.specs.Posts.{told};
ghost use Rattle.cml_hub.specs.Playing.{picked, spent};

use crate::choose::Chooser;
use cml_index::OfferIndex;
use cml_scan::law::{a_head_has_a_partner, a_picked_row_is_in_the_scan, no_head_where_no_row};
use cml_scan::{Meet, Table};

// A row that the chooser picks: a head, and then one of the head's rows. It picks both, also where there is only one.
pub(crate) fn pick_row<C: Chooser>(table: &OfferIndex, chooser: &mut C) -> Option<Meet>
    ensures row { let rows = scan_of table.now.entries (told table.now.flags) in MatchOption result (rows ≡ []) (λ row. has_row rows row ≡ true) }
    ensures picked { result ≡ picked (record { picks = C.picks; next = C.next }) chooser.old (scan_of table.now.entries (told table.now.flags)) }
    ensures spent { chooser.new ≡ spent (record { picks = C.picks; next = C.next }) chooser.old result }
{
    no_head_where_no_row();
    a_head_has_a_partner();
    a_picked_row_is_in_the_scan();
    let heads = table.head_count();
    if heads == 0 {
        return None;
    }
    match table.head_or_row(chooser.pick(heads)) {
        Ok(row) => {
            let _first = chooser.pick(1);
            Some(row)
        }
        Err(head) => {
            let partners = table.partner_count(head);
            Some(table.partner(head, chooser.pick(partners)))
        }
    }
}
