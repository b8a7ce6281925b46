//! Laws of the leaves, the wraps and the scopes of a group. Each is proved, and its function does nothing.

ghost use Rattle.std.specs.{Prelude.{◌≡◌, ℕ, ◌-◌, ◌<◌, ◌≤◌, nat_lt, if◌then◌else◌, List, [], ◌∷◌, ◌++◌, IsSome}, List.{flat_map}, Option.{option_map}};
ghost use Rattle.cml_value.specs.Value.{PlainBase, PlainFunction};
ghost use Rattle.cml_value.specs.Group.{PlainGroup, never, leaf, choose, wrap, scope, groups, leaves, leaf_count, scopes, nacks_of, lost};
ghost use Rattle.cml_group.specs.{Leaves.{pick, leaf_base, leaf_wraps}, Laws.{FiresAt}};

/// The leaves of a choice are those of its members, one after another.
pub fn choice_leaves()
    ensures { (gs : List PlainGroup) → leaves (choose (groups gs)) ≡ flat_map leaves gs }
{}

/// Each number below the number of leaves names one leaf, and no other number names any.
pub fn named_leaves()
    ensures named { (g : PlainGroup) (n : ℕ) → n < leaf_count g → IsSome (pick g n) }
    ensures no_more { (g : PlainGroup) (n : ℕ) → leaf_count g ≤ n → pick g n ≡ None }
{}

/// A leaf below a wrap is the leaf without the wrap, and its result goes through the same functions and then through the wrap's.
pub fn wrapped_leaf()
    ensures base { (g : PlainGroup) (f : PlainFunction) (n : ℕ) →
        leaf_base (wrap g f) n ≡ leaf_base g n }
    ensures wraps { (g : PlainGroup) (f : PlainFunction) (n : ℕ) →
        leaf_wraps (wrap g f) n ≡ option_map (λ fs. fs ++ f ∷ []) (leaf_wraps g n) }
{}

/// Choosing a leaf fires no nack whose scope holds it, and the nack of every other scope once.
pub fn other_scopes_fire()
    ensures { (g : PlainGroup) (n : ℕ) → (places : List ℕ) × FiresAt g n places }
{}

/// What choosing a leaf fires, by the parts of the group. In a scope, a leaf in it fires what it fires without the scope, and
/// any other leaf fires the scope's nack and those of all scopes in it. In a choice, a leaf of the first member fires what it fires
/// there and all nacks of the others, and a leaf of another member all nacks of the first and what it fires among the others.
pub fn lost_by_parts()
    ensures never { (n : ℕ) → lost never n ≡ [] }
    ensures leaf { (b : PlainBase) (n : ℕ) → lost (leaf b) n ≡ [] }
    ensures wrap { (g : PlainGroup) (f : PlainFunction) (n : ℕ) → lost (wrap g f) n ≡ lost g n }
    ensures scope { (k : ℕ) (g : PlainGroup) (n : ℕ) → lost (scope k g) n
        ≡ (if nat_lt n (leaf_count g) then lost g n else k ∷ nacks_of (scopes g)) }
    ensures no_choice { (n : ℕ) → lost (choose (groups [])) n ≡ [] }
    ensures choice { (g : PlainGroup) (gs : List PlainGroup) (n : ℕ) →
        lost (choose (groups (g ∷ gs))) n
        ≡ (if nat_lt n (leaf_count g) then lost g n ++ nacks_of (scopes (choose (groups gs)))
        else nacks_of (scopes g) ++ lost (choose (groups gs)) (n - leaf_count g)) }
{}

/// The nacks of all scopes, by the parts of the group: none in never and in a leaf, under a wrap those without it, an outer one
/// before those in it, and those of a choice member by member.
pub fn nacks_by_parts()
    ensures never { nacks_of (scopes never) ≡ [] }
    ensures leaf { (b : PlainBase) → nacks_of (scopes (leaf b)) ≡ [] }
    ensures wrap { (g : PlainGroup) (f : PlainFunction) →
        nacks_of (scopes (wrap g f)) ≡ nacks_of (scopes g) }
    ensures scope { (k : ℕ) (g : PlainGroup) →
        nacks_of (scopes (scope k g)) ≡ k ∷ nacks_of (scopes g) }
    ensures choice { (gs : List PlainGroup) →
        nacks_of (scopes (choose (groups gs))) ≡ flat_map (λ g. nacks_of (scopes g)) gs }
{}
