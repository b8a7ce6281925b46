//! Laws of machines, and of what agrees with a program.

ghost use Rattle.std.specs.Prelude.{◌≡◌, ◌≤◌, ◌++◌, ℕ, List, [], ◌∷◌, length, true, Some, slice_get};
ghost use Rattle.cml_value.specs.{Value.{PlainValue}, Group.{PlainGroup, PlainLeaf, leaves}};
ghost use Rattle.cml_group.specs.Force.{event_of};
ghost use Rattle.cml_check.specs.Syntax.{PlainItem};
ghost use Rattle.cml_step.specs.{Agrees.{value_agrees, all_agree, event_agrees, leaf_agrees, answer_agrees}, Asks.{a_commit}, Machines.{PlainMachine, Fits}};
ghost use Rattle.cml_step.specs.Terms.{max_entries};

/// A machine that fits a program has at most 1,024 entries on its stack.
pub fn few_entries()
    ensures { (p : List (PlainItem ℕ)) (m : PlainMachine) → Fits p m
        → length m.stack ≤ max_entries }
{}

/// Where an event agrees with a program, its leaves do. So the answer to a commit of one of them agrees, if the value that its base
/// event gives does.
pub fn leaves_agree()
    ensures leaves { (arities : List ℕ) (g : PlainGroup) (n : ℕ) (l : PlainLeaf) →
        event_agrees arities (event_of g) ≡ true → slice_get (leaves g) n ≡ Some l
        → leaf_agrees arities l ≡ true }
    ensures answers { (arities : List ℕ) (l : PlainLeaf) (v : PlainValue) →
        leaf_agrees arities l ≡ true → value_agrees arities v ≡ true
        → answer_agrees arities (a_commit v l.wraps) ≡ true }
{}

/// A queue whose items agree with a program agrees with one more item that does, and so do its first item and the rest.
pub fn queues_agree()
    ensures added { (arities : List ℕ) (items : List PlainValue) (v : PlainValue) →
        all_agree arities items ≡ true → value_agrees arities v ≡ true
        → all_agree arities (items ++ v ∷ []) ≡ true }
    ensures taken { (arities : List ℕ) (v : PlainValue) (items : List PlainValue) →
        all_agree arities (v ∷ items) ≡ true
        → (value_agrees arities v ≡ true) × (all_agree arities items ≡ true) }
{}
