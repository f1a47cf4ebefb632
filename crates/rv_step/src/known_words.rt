//! The steps of words whose opcode and functs are known, in a page of code. Each is made up of the instruction's operands
//! and a step of that instruction.

ghost use Rattle.std.specs.Prelude.{◌≡◌, ◌%◌, ◌^◌};
ghost use Rattle.rv_isa.specs.Decoded.{decoded};
ghost use Rattle.rv_isa.specs.Decoding.{slots_of};
ghost use Rattle.rv_isa.specs.Word.{condition_funct3, immediate_funct3, load_funct3, operation_functs, shift_functs, store_funct3};
ghost use Rattle.rv_step.specs.PageSteps.{MeetsTry, machine_at};

use crate::machine::Machine;
use crate::page_loop::Position;
use rv_isa::{
    Condition, ImmediateOperation, Instr, LoadKind, Operation, Shift, StoreKind, branch_offset,
    immediate_of_i, immediate_of_s, jump_offset, rd, rs1, rs2, shift_amount, upper,
};

impl Machine {
    /// A computation with an immediate.
    #[inline(always)]
    pub(crate) fn immediate_word(
        &mut self,
        operation: ImmediateOperation,
        word: u32,
        first: u32,
        position: &mut Position,
    ) -> bool
        requires opcode { word % 2 ^ 7 ≡ 0b0010011 }
        requires funct3 { (slots_of word).funct3 ≡ immediate_funct3 operation }
        ensures { MeetsTry result (decoded word) (machine_at self.old first position.old) (machine_at self.new first position.new) }
    {
        self.try_plain(
            &Instr::ComputeImmediate {
                operation,
                rd: rd(word),
                source: rs1(word),
                immediate: immediate_of_i(word),
            },
            first,
            position,
        )
    }

    /// A shift by a fixed amount.
    #[inline(always)]
    pub(crate) fn shift_word(
        &mut self,
        shift: Shift,
        word: u32,
        first: u32,
        position: &mut Position,
    ) -> bool
        requires opcode { word % 2 ^ 7 ≡ 0b0010011 }
        requires funct7 { (slots_of word).funct7 ≡ (shift_functs shift).0 }
        requires funct3 { (slots_of word).funct3 ≡ (shift_functs shift).1 }
        ensures { MeetsTry result (decoded word) (machine_at self.old first position.old) (machine_at self.new first position.new) }
    {
        self.try_plain(
            &Instr::ShiftImmediate {
                shift,
                rd: rd(word),
                source: rs1(word),
                amount: shift_amount(word),
            },
            first,
            position,
        )
    }

    /// A computation of two registers.
    #[inline(always)]
    pub(crate) fn compute_word(
        &mut self,
        operation: Operation,
        word: u32,
        first: u32,
        position: &mut Position,
    ) -> bool
        requires opcode { word % 2 ^ 7 ≡ 0b0110011 }
        requires funct7 { (slots_of word).funct7 ≡ (operation_functs operation).0 }
        requires funct3 { (slots_of word).funct3 ≡ (operation_functs operation).1 }
        ensures { MeetsTry result (decoded word) (machine_at self.old first position.old) (machine_at self.new first position.new) }
    {
        self.try_plain(
            &Instr::Compute {
                operation,
                rd: rd(word),
                left: rs1(word),
                right: rs2(word),
            },
            first,
            position,
        )
    }

    /// A branch.
    #[inline(always)]
    pub(crate) fn branch_word(
        &mut self,
        condition: Condition,
        word: u32,
        first: u32,
        position: &mut Position,
    ) -> bool
        requires opcode { word % 2 ^ 7 ≡ 0b1100011 }
        requires funct3 { (slots_of word).funct3 ≡ condition_funct3 condition }
        ensures { MeetsTry result (decoded word) (machine_at self.old first position.old) (machine_at self.new first position.new) }
    {
        self.try_plain(
            &Instr::Branch {
                condition,
                left: rs1(word),
                right: rs2(word),
                offset: branch_offset(word),
            },
            first,
            position,
        )
    }

    /// LUI.
    #[inline(always)]
    pub(crate) fn lui_word(&mut self, word: u32, first: u32, position: &mut Position) -> bool
        requires { word % 2 ^ 7 ≡ 0b0110111 }
        ensures { MeetsTry result (decoded word) (machine_at self.old first position.old) (machine_at self.new first position.new) }
    {
        self.try_plain(
            &Instr::Lui {
                rd: rd(word),
                immediate: upper(word),
            },
            first,
            position,
        )
    }

    /// AUIPC.
    #[inline(always)]
    pub(crate) fn auipc_word(&mut self, word: u32, first: u32, position: &mut Position) -> bool
        requires { word % 2 ^ 7 ≡ 0b0010111 }
        ensures { MeetsTry result (decoded word) (machine_at self.old first position.old) (machine_at self.new first position.new) }
    {
        self.try_plain(
            &Instr::Auipc {
                rd: rd(word),
                immediate: upper(word),
            },
            first,
            position,
        )
    }

    /// JAL.
    #[inline(always)]
    pub(crate) fn jal_word(&mut self, word: u32, first: u32, position: &mut Position) -> bool
        requires { word % 2 ^ 7 ≡ 0b1101111 }
        ensures { MeetsTry result (decoded word) (machine_at self.old first position.old) (machine_at self.new first position.new) }
    {
        self.try_plain(
            &Instr::Jal {
                rd: rd(word),
                offset: jump_offset(word),
            },
            first,
            position,
        )
    }

    /// JALR.
    #[inline(always)]
    pub(crate) fn jalr_word(&mut self, word: u32, first: u32, position: &mut Position) -> bool
        requires opcode { word % 2 ^ 7 ≡ 0b1100111 }
        requires funct3 { (slots_of word).funct3 ≡ 0b000 }
        ensures { MeetsTry result (decoded word) (machine_at self.old first position.old) (machine_at self.new first position.new) }
    {
        self.try_plain(
            &Instr::Jalr {
                rd: rd(word),
                base: rs1(word),
                offset: immediate_of_i(word),
            },
            first,
            position,
        )
    }

    /// A load.
    #[inline(always)]
    pub(crate) fn load_word(
        &mut self,
        kind: LoadKind,
        word: u32,
        first: u32,
        position: &mut Position,
    ) -> bool
        requires opcode { word % 2 ^ 7 ≡ 0b0000011 }
        requires funct3 { (slots_of word).funct3 ≡ load_funct3 kind }
        ensures { MeetsTry result (decoded word) (machine_at self.old first position.old) (machine_at self.new first position.new) }
    {
        self.try_load(
            kind,
            rd(word),
            rs1(word),
            immediate_of_i(word),
            first,
            position,
        )
    }

    /// A store.
    #[inline(always)]
    pub(crate) fn store_word(
        &mut self,
        kind: StoreKind,
        word: u32,
        first: u32,
        position: &mut Position,
    ) -> bool
        requires opcode { word % 2 ^ 7 ≡ 0b0100011 }
        requires funct3 { (slots_of word).funct3 ≡ store_funct3 kind }
        ensures { MeetsTry result (decoded word) (machine_at self.old first position.old) (machine_at self.new first position.new) }
    {
        self.try_store(
            kind,
            rs2(word),
            rs1(word),
            immediate_of_s(word),
            first,
            position,
        )
    }
}
