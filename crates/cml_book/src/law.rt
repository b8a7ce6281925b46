//! Laws of what commands do, each a function that does nothing and whose contract is the law.

ghost use Rattle.std.specs.Prelude.{◌≡◌, ℕ};
ghost use Rattle.cml_scan.specs.World.{PlainWorld};
ghost use Rattle.cml_book.specs.{Running.{runs_after}, Step.{step}, Walks.{is_running}, declared.command.Command.{Command}};

/// Which threads run after a command, by its reply: one that was made, and the parties of a row that
/// was taken; no thread that now waits or has ended; and every other thread as before.
pub fn who_runs_after_a_command()
    ensures { (w : PlainWorld) (c : Command) (t : ℕ) →
        is_running (step w c).0 t ≡ runs_after (step w c).1 c t (is_running w t) }
{}
