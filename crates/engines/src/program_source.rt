//! A source of programs.

ghost use Rattle.std.specs.Prelude.{◌≡◌, ℕ, List, [], ◌∷◌, Option, None, Some, IfOk, IfSome, OnErr, OnOk};
ghost use Rattle.engines.specs.Opened.{Close, FileOrder, Open, OrdersFollow};

use byte_streams::Source;
use std::io;

/// A source of the programs of a block.
pub trait Programs {
    /// An open program, whose bytes are read.
    type File: Source + Drop;

    /// The bytes of the program at a path, if they are known and nothing keeps them from being read.
    ghost content: { Self → List ℕ → Option (List ℕ) };

    /// What was asked so far, the last order last, if that is known.
    ghost asked: { Self → Option (List FileOrder) };

    /// Opens the program at a path. Refused if it can't be opened; then there is nothing to close.
    fn open(&mut self, path: &str) -> io::Result<Self::File>
        ensures opened { IfOk result (λ f. IfSome (content self.old path.now) (λ bytes. Self.File.remaining f ≡ Some bytes)) }
        ensures readable { IfOk result (λ f. Self.File.may_fail f → content self.old path.now ≡ None) }
        ensures refused { OnErr result (content self.old path.now ≡ None) }
        ensures asks { OnOk result (OrdersFollow (asked self.old) (asked self.new) (Open path.now ∷ [])) }
        ensures asks_nothing { OnErr result (asked self.new ≡ asked self.old) }
        ensures same { content self.new ≡ content self.old };

    /// Closes a program that this opened.
    fn close(&mut self, file: Self::File)
        ensures asks { OrdersFollow (asked self.old) (asked self.new) (Close ∷ []) }
        ensures same { content self.new ≡ content self.old };
}
