//! Laws of the definitions, each a function that does nothing and whose contract is the law.

ghost use Rattle.std.specs.Prelude.{◌≡◌, ◌≢◌, ◌↔◌, ◌<◌, ℕ, Bool, true, not, nat_lt, map, filter, ◌++◌, List};
ghost use Rattle.std.specs.Prelude.{[], length, IsTrue, Any, AllPairs, Contains, Some, slice_get};
ghost use Rattle.cml_value.specs.{Value.{PlainValue, PlainBase, send, swap}, declared.number.Tid.{Tid}};
ghost use Rattle.cml_scan.specs.{World.{PlainWorld, pending}, Light.{lit, light_of, lit_by}};
ghost use Rattle.cml_scan.specs.Scan.{PlainOffer, offers_of, meets, can_meet, pair, scan, scan_of, place_of, heads_of, heads, partners_of, partners, names};
ghost use Rattle.cml_scan.specs.{Table.{without, AgreeFor, TellsLights}, Order.{place, row_before, first_row, has_partner, can_take, can_swap}};
ghost use Rattle.cml_scan.specs.{Enabled.{IsEnabled}, declared.object.Light.{Light}, declared.meet.Meet.{Meet}, declared.meet.Meet.TheVariants.{Pair}};
ghost use Rattle.cml_scan.specs.declared.meet.Place.{Place};

/// A row is in the scan exactly where its leaves are enabled.
pub fn scan_lists_what_is_enabled()
    ensures { (w : PlainWorld) (row : Meet) → Contains (scan w) row ↔ IsEnabled w row }
{}

/// Each row of the scan stands once.
pub fn scan_lists_each_row_once()
    ensures { (w : PlainWorld) → AllPairs (λ r s. r ≢ s) (scan w) }
{}

/// The rows of the scan stand in order.
pub fn scan_is_in_order()
    ensures { (w : PlainWorld) → AllPairs (λ r s. IsTrue (row_before r s)) (scan w) }
{}

/// The heads are the places that begin a row; they stand in the order of their first rows, and so
/// each stands once.
pub fn heads_begin_the_rows()
    ensures members { (w : PlainWorld) (p : Place) →
        Contains (heads w) p ↔ Any (λ row. place_of row ≡ p) (scan w) }
    ensures order { (w : PlainWorld) →
        AllPairs (λ p q. first_row p (scan w) < first_row q (scan w)) (heads w) }
{}

/// The partners of a head are the rows that it begins, in order.
pub fn partners_are_the_rows_of_a_head()
    ensures members { (w : PlainWorld) (p : Place) (row : Meet) →
        Contains (partners w p) row ↔ (Contains (scan w) row × (place_of row ≡ p)) }
    ensures order { (w : PlainWorld) (p : Place) →
        AllPairs (λ r s. IsTrue (row_before r s)) (partners w p) }
{}

/// There is no head exactly where there is no row.
pub fn no_head_where_no_row()
    ensures { (rows : List Meet) → (heads_of rows ≡ []) ↔ (rows ≡ []) }
{}

/// Each place that begins a row has a partner.
pub fn a_head_has_a_partner()
    ensures { (rows : List Meet) (k : ℕ) (p : Place) →
        slice_get (heads_of rows) k ≡ Some p → 0 < length (partners_of rows p) }
{}

/// The row that is picked by a head and one of its partners is among the rows, and begins at that
/// head.
pub fn a_picked_row_is_in_the_scan()
    ensures { (rows : List Meet) (k j : ℕ) (p : Place) (row : Meet) →
        slice_get (heads_of rows) k ≡ Some p → slice_get (partners_of rows p) j ≡ Some row →
        Contains rows row × (place_of row ≡ p) }
{}

/// The scan depends only on the pending groups and on the lights that their leaves wait for.
pub fn scan_depends_on_groups_and_lights()
    ensures { (v w : PlainWorld) →
        pending v ≡ pending w → AgreeFor (pending w) (light_of v) (light_of w) →
        scan v ≡ scan w }
{}

/// After some threads leave, the scan is the old one without the rows that name them, where each light
/// that a leaf of the others waits for is as it was.
pub fn scan_after_threads_leave()
    ensures { (gone : List Tid) (v w : PlainWorld) →
        pending w ≡ without gone (pending v) → AgreeFor (pending w) (light_of w) (light_of v) →
        scan w ≡ filter (λ row. not (names gone row)) (scan v) }
{}

/// The partners of a leaf that sends are the receives of its channel in other threads, by thread and leaf.
pub fn partners_of_a_send()
    ensures { (w : PlainWorld) (head : PlainOffer) (c : ℕ) (v : PlainValue) →
        Contains (offers_of (pending w)) head → head.base ≡ send c v →
        partners w (place head)
        ≡ map (pair head) (filter (can_take head.thread c) (offers_of (pending w))) }
{}

/// The partners of a leaf that swaps are the swaps of its swap channel in the threads above its own, by thread and leaf.
pub fn partners_of_a_swap()
    ensures { (w : PlainWorld) (head : PlainOffer) (s : ℕ) (v : PlainValue) →
        Contains (offers_of (pending w)) head → head.base ≡ swap s v →
        partners w (place head)
        ≡ map (pair head) (filter (can_swap head.thread s) (offers_of (pending w))) }
{}

/// Of two leaves of two threads that are the sides of one communication, exactly one is the head. Where
/// either could be, as with two swaps, it is the one of the lower thread.
pub fn one_of_two_leaves_is_the_head()
    ensures one { (a b : PlainOffer) →
        meets a.base b.base ≡ true → a.thread ≢ b.thread → can_meet b a ≡ not (can_meet a b) }
    ensures lower { (a b : PlainOffer) →
        meets a.base b.base ≡ true → meets b.base a.base ≡ true →
        can_meet a b ≡ nat_lt a.thread b.thread }
{}

/// No two leaves stand in two rows, once with the one and once with the other as the head.
pub fn two_leaves_are_listed_once()
    ensures { (w : PlainWorld) (a b : Tid) (i j : ℕ) →
        Contains (scan w) (Pair a i b j) → Contains (scan w) (Pair b j a i) → ⊥ }
{}

/// The heads are the lit leaves, and then those that are the head of a pair.
pub fn heads_are_lit_leaves_and_those_that_meet()
    ensures { (w : PlainWorld) → let leaves = offers_of (pending w) in
        heads w ≡ map place (filter (λ o. lit w o.base) leaves)
        ++ map place (filter (has_partner leaves) leaves) }
{}

/// A base event is lit exactly where it is an `always`, or where its light is lit.
pub fn lit_by_its_light()
    ensures { (w : PlainWorld) (b : PlainBase) → lit w b ≡ lit_by (light_of w) b }
{}

/// The scan of what a table was told is the scan of the world, wherever it was told of the pending
/// threads and of each light that one of their leaves waits for.
pub fn scan_of_what_was_told()
    ensures { (w : PlainWorld) (told : Light → Bool) →
        TellsLights w told → scan_of (pending w) told ≡ scan w }
{}
