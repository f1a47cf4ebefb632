//! The numbers of registers.

ghost use Rattle.std.specs.Prelude.{◌≡◌};
ghost use Rattle.rv_isa.specs.Ranges.{IsRegister};

/// A register by its number, 0 to 31. The number has 32 bits since a number of 8 bits costs an instruction more wherever
/// it is taken from a word.
#[derive(Clone, Copy, Debug, PartialEq, Eq)]
pub struct Reg {
    pub number: u32,
    pub ghost in_range: { IsRegister number },
}

impl Reg {
    /// x2, the stack pointer.
    pub fn sp() -> Self
        ensures { result.number ≡ 2 }
    {
        Reg { number: 2 }
    }

    /// x10, the first argument and the first result.
    pub fn a0() -> Self
        ensures { result.number ≡ 10 }
    {
        Reg { number: 10 }
    }

    /// x11, the second argument and the second result.
    pub fn a1() -> Self
        ensures { result.number ≡ 11 }
    {
        Reg { number: 11 }
    }

    /// x12, the third argument.
    pub fn a2() -> Self
        ensures { result.number ≡ 12 }
    {
        Reg { number: 12 }
    }

    /// x17, the eighth argument.
    pub fn a7() -> Self
        ensures { result.number ≡ 17 }
    {
        Reg { number: 17 }
    }
}
