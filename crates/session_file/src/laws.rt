//! A law of what trees hold.

ghost use Rattle.std.specs.Prelude.{◌≡◌};
ghost use Rattle.sqlite_trees.specs.Tree.{Trees};
ghost use Rattle.session_file.specs.Kept.{HoldsIn, Kept};

/// A law, and no code: trees hold one session at most. So if a commit was under way as the machine stopped, an open finds what
/// was staged, or what could be found before.
pub fn held_session_is_one()
    ensures { (db : Trees) (first other : Kept) → HoldsIn db first → HoldsIn db other → first ≡ other }
{}
