//! The steps of words in a page of code. Each word leads to a branch that names its instruction (known_words.rt), so that the
//! compiler knows the instruction there. The branches are comparisons. An ordering test comes between two tests of equality.
//! For tests of equality alone the compiler makes a table, and a jump through a table may cost more than three branches. The
//! most frequent instruction of an opcode is tested first. `Loop` says which loop over a page makes the steps. So each loop has
//! its own copy of these functions, and the compiler inlines it: it does that only if a function has one caller.

ghost use Rattle.std.specs.Prelude.{◌≡◌, ◌≤◌, ◌<◌, ◌+◌, ◌*◌, ◌%◌, ◌^◌};
ghost use Rattle.rv_isa.specs.Decoded.{decoded};
ghost use Rattle.rv_isa.specs.Decoding.{slots_of};
ghost use Rattle.rv_step.specs.PageSteps.{MeetsTry, machine_at};

use crate::fields::{
    ADD, ADDI, AND, BEQ, BGEU, BLT, BLTU, BNE, DIVU, JALR, LB, LBU, LH, LHU, LW, MUL, MULHSU,
    MULHU, OR, ORI, REM, REMU, SB, SH, SLL, SLLI, SLTI, SLTU, SRA, SRLI, SUB, SW, XOR, XORI,
    opcode_of, placed_funct3, placed_functs,
};
use crate::machine::Machine;
use crate::page_loop::Position;
use rv_isa::{Condition, ImmediateOperation, LoadKind, Operation, Shift, StoreKind, opcode};

impl Machine {
    /// Makes the step of a word, if it leads to another instruction. Returns false if it does not, and if the word is one that
    /// this function leaves out: FENCE, ECALL, EBREAK, an illegal word. Then nothing changes.
    #[inline(always)]
    pub(crate) fn step_word<Loop>(&mut self, word: u32, first: u32, position: &mut Position) -> bool
        ensures { MeetsTry result (decoded word) (machine_at self.old first position.old) (machine_at self.new first position.new) }
    {
        let code = opcode_of(word);
        if code == opcode::OP_IMM {
            return self.step_immediate::<Loop>(word, first, position);
        }
        if code < opcode::BRANCH {
            return self.step_below_branch::<Loop>(word, first, position);
        }
        if code == opcode::BRANCH {
            return self.step_branch::<Loop>(word, first, position);
        }
        if code > opcode::JALR {
            if code == opcode::JAL {
                return self.jal_word(word, first, position);
            }
            return false;
        }
        if code == opcode::JALR && placed_funct3(word) == JALR {
            return self.jalr_word(word, first, position);
        }
        false
    }

    /// The same for an opcode below that of the branches.
    #[inline(always)]
    fn step_below_branch<Loop>(&mut self, word: u32, first: u32, position: &mut Position) -> bool
        ensures { MeetsTry result (decoded word) (machine_at self.old first position.old) (machine_at self.new first position.new) }
    {
        let code = opcode_of(word);
        if code == opcode::OP {
            return self.step_compute::<Loop>(word, first, position);
        }
        if code < opcode::STORE {
            if code == opcode::LOAD {
                return self.step_load::<Loop>(word, first, position);
            }
            if code > opcode::LOAD && code == opcode::AUIPC {
                return self.auipc_word(word, first, position);
            }
            return false;
        }
        if code > opcode::STORE {
            if code == opcode::LUI {
                return self.lui_word(word, first, position);
            }
            return false;
        }
        self.step_store::<Loop>(word, first, position)
    }

    /// The same for the opcode OP-IMM.
    #[inline(always)]
    fn step_immediate<Loop>(&mut self, word: u32, first: u32, position: &mut Position) -> bool
        requires { word % 2 ^ 7 ≡ 0b0010011 }
        ensures { MeetsTry result (decoded word) (machine_at self.old first position.old) (machine_at self.new first position.new) }
    {
        let field = placed_funct3(word);
        if field == ADDI {
            return self.immediate_word(ImmediateOperation::Addi, word, first, position);
        }
        if field > XORI {
            if field == SRLI {
                return self.step_right_shift::<Loop>(word, first, position);
            }
            if field > ORI {
                return self.immediate_word(ImmediateOperation::Andi, word, first, position);
            }
            return self.immediate_word(ImmediateOperation::Ori, word, first, position);
        }
        if field == SLLI {
            if word < 1 << 25 {
                return self.shift_word(Shift::Slli, word, first, position);
            }
            return false;
        }
        if field > SLTI {
            if field == XORI {
                return self.immediate_word(ImmediateOperation::Xori, word, first, position);
            }
            return self.immediate_word(ImmediateOperation::Sltiu, word, first, position);
        }
        self.immediate_word(ImmediateOperation::Slti, word, first, position)
    }

    /// The same for the shifts to the right by a fixed amount.
    #[inline(always)]
    fn step_right_shift<Loop>(&mut self, word: u32, first: u32, position: &mut Position) -> bool
        requires opcode { word % 2 ^ 7 ≡ 0b0010011 }
        requires funct3 { (slots_of word).funct3 ≡ 0b101 }
        ensures { MeetsTry result (decoded word) (machine_at self.old first position.old) (machine_at self.new first position.new) }
    {
        if word < 1 << 25 {
            return self.shift_word(Shift::Srli, word, first, position);
        }
        if word >> 25 == 0b0100000 {
            return self.shift_word(Shift::Srai, word, first, position);
        }
        false
    }

    /// The same for the opcode OP.
    #[inline(always)]
    fn step_compute<Loop>(&mut self, word: u32, first: u32, position: &mut Position) -> bool
        requires { word % 2 ^ 7 ≡ 0b0110011 }
        ensures { MeetsTry result (decoded word) (machine_at self.old first position.old) (machine_at self.new first position.new) }
    {
        let fields = placed_functs(word);
        if fields == ADD {
            return self.compute_word(Operation::Add, word, first, position);
        }
        if fields < OR {
            return self.step_low_compute::<Loop>(word, first, position);
        }
        if fields == OR {
            return self.compute_word(Operation::Or, word, first, position);
        }
        if fields <= AND {
            return self.compute_word(Operation::And, word, first, position);
        }
        if fields <= REMU {
            return self.step_product::<Loop>(word, first, position);
        }
        if fields == SUB {
            return self.compute_word(Operation::Sub, word, first, position);
        }
        if fields > SUB && fields == SRA {
            return self.compute_word(Operation::Sra, word, first, position);
        }
        false
    }

    /// The same for the computations from SLL to SRL.
    #[inline(always)]
    fn step_low_compute<Loop>(&mut self, word: u32, first: u32, position: &mut Position) -> bool
        requires opcode { word % 2 ^ 7 ≡ 0b0110011 }
        requires low { (slots_of word).funct7 * 2 ^ 25 + (slots_of word).funct3 * 2 ^ 12 < 0b110 * 2 ^ 12 }
        requires some { 0 < (slots_of word).funct7 * 2 ^ 25 + (slots_of word).funct3 * 2 ^ 12 }
        ensures { MeetsTry result (decoded word) (machine_at self.old first position.old) (machine_at self.new first position.new) }
    {
        let fields = placed_functs(word);
        if fields == XOR {
            return self.compute_word(Operation::Xor, word, first, position);
        }
        if fields < SLTU {
            if fields == SLL {
                return self.compute_word(Operation::Sll, word, first, position);
            }
            return self.compute_word(Operation::Slt, word, first, position);
        }
        if fields == SLTU {
            return self.compute_word(Operation::Sltu, word, first, position);
        }
        self.compute_word(Operation::Srl, word, first, position)
    }

    /// The same for products, quotients and remainders.
    #[inline(always)]
    fn step_product<Loop>(&mut self, word: u32, first: u32, position: &mut Position) -> bool
        requires opcode { word % 2 ^ 7 ≡ 0b0110011 }
        requires low { (slots_of word).funct7 * 2 ^ 25 + (slots_of word).funct3 * 2 ^ 12 < 2 ^ 26 }
        requires high { 0b111 * 2 ^ 12 < (slots_of word).funct7 * 2 ^ 25 + (slots_of word).funct3 * 2 ^ 12 }
        ensures { MeetsTry result (decoded word) (machine_at self.old first position.old) (machine_at self.new first position.new) }
    {
        let fields = placed_functs(word);
        if fields == MUL {
            return self.compute_word(Operation::Mul, word, first, position);
        }
        if fields > MULHU {
            return self.step_quotient::<Loop>(word, first, position);
        }
        if fields == MULHU {
            return self.compute_word(Operation::Mulhu, word, first, position);
        }
        if fields < MULHSU {
            return self.compute_word(Operation::Mulh, word, first, position);
        }
        self.compute_word(Operation::Mulhsu, word, first, position)
    }

    /// The same for quotients and remainders.
    #[inline(always)]
    fn step_quotient<Loop>(&mut self, word: u32, first: u32, position: &mut Position) -> bool
        requires opcode { word % 2 ^ 7 ≡ 0b0110011 }
        requires low { (slots_of word).funct7 * 2 ^ 25 + (slots_of word).funct3 * 2 ^ 12 < 2 ^ 26 }
        requires high { 2 ^ 25 + 0b011 * 2 ^ 12 < (slots_of word).funct7 * 2 ^ 25 + (slots_of word).funct3 * 2 ^ 12 }
        ensures { MeetsTry result (decoded word) (machine_at self.old first position.old) (machine_at self.new first position.new) }
    {
        let fields = placed_functs(word);
        if fields == DIVU {
            return self.compute_word(Operation::Divu, word, first, position);
        }
        if fields < REM {
            return self.compute_word(Operation::Div, word, first, position);
        }
        if fields == REMU {
            return self.compute_word(Operation::Remu, word, first, position);
        }
        self.compute_word(Operation::Rem, word, first, position)
    }

    /// The same for the opcode LOAD.
    #[inline(always)]
    fn step_load<Loop>(&mut self, word: u32, first: u32, position: &mut Position) -> bool
        requires { word % 2 ^ 7 ≡ 0b0000011 }
        ensures { MeetsTry result (decoded word) (machine_at self.old first position.old) (machine_at self.new first position.new) }
    {
        let field = placed_funct3(word);
        if field == LW {
            return self.load_word(LoadKind::Lw, word, first, position);
        }
        if field > LW {
            if field == LBU {
                return self.load_word(LoadKind::Lbu, word, first, position);
            }
            if field > LBU && field == LHU {
                return self.load_word(LoadKind::Lhu, word, first, position);
            }
            return false;
        }
        if field == LB {
            return self.load_word(LoadKind::Lb, word, first, position);
        }
        self.load_word(LoadKind::Lh, word, first, position)
    }

    /// The same for the opcode STORE.
    #[inline(always)]
    fn step_store<Loop>(&mut self, word: u32, first: u32, position: &mut Position) -> bool
        requires { word % 2 ^ 7 ≡ 0b0100011 }
        ensures { MeetsTry result (decoded word) (machine_at self.old first position.old) (machine_at self.new first position.new) }
    {
        let field = placed_funct3(word);
        if field == SW {
            return self.store_word(StoreKind::Sw, word, first, position);
        }
        if field < SH {
            return self.store_word(StoreKind::Sb, word, first, position);
        }
        if field == SH {
            return self.store_word(StoreKind::Sh, word, first, position);
        }
        false
    }

    /// The same for the opcode BRANCH.
    #[inline(always)]
    fn step_branch<Loop>(&mut self, word: u32, first: u32, position: &mut Position) -> bool
        requires { word % 2 ^ 7 ≡ 0b1100011 }
        ensures { MeetsTry result (decoded word) (machine_at self.old first position.old) (machine_at self.new first position.new) }
    {
        let field = placed_funct3(word);
        if field == BEQ {
            return self.branch_word(Condition::Beq, word, first, position);
        }
        if field < BLT {
            if field == BNE {
                return self.branch_word(Condition::Bne, word, first, position);
            }
            return false;
        }
        if field == BLTU {
            return self.branch_word(Condition::Bltu, word, first, position);
        }
        if field > BLTU {
            return self.branch_word(Condition::Bgeu, word, first, position);
        }
        if field == BLT {
            return self.branch_word(Condition::Blt, word, first, position);
        }
        self.branch_word(Condition::Bge, word, first, position)
    }
}
