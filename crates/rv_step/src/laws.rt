//! Laws of the definitions of a run.

ghost use Rattle.rv_ledger.specs.Call.{Invocation};
ghost use Rattle.rv_ledger.specs.Key.{Storage};
ghost use Rattle.ecalls.specs.StorageCalls.{charge_of};
ghost use Rattle.ecalls.specs.declared.storage_call.StorageCall.{StorageCall};
ghost use Rattle.gas.specs.Costs.{cost_of};
ghost use Rattle.rv_isa.specs.declared.instruction.Instr.{Instr};
ghost use Rattle.ecalls.specs.declared.storage_call.StorageCall.TheVariants.{Read};
ghost use Rattle.std.specs.Prelude.{◌≡◌, ◌<◌, ◌≤◌, Option, List, Ok, ℕ, true, false};
ghost use Rattle.rv_step.specs.Chain.{HasOneReceipt, enough_steps};
ghost use Rattle.rv_step.specs.Charged.{charged_steps, gas_left};
ghost use Rattle.rv_step.specs.Moment.{Reply, is_over, moment_over};
ghost use Rattle.rv_step.specs.Step.{Progress, Leads, TakesGas, answered, charged, ecall_result, instruction_result, is_ecall, step};
ghost use Rattle.rv_step.specs.declared.machine.Machine.{Machine};

/// Over each storage a call ends after at most one step more than it has gas.
pub fn call_ends()
    ensures { (call : Invocation) (store : Storage) → is_over (moment_over call store (enough_steps call)) ≡ true }
{}

/// For each call and each storage there is exactly one receipt.
pub fn one_receipt()
    ensures { (call : Invocation) (store : Storage) → HasOneReceipt call store }
{}

/// However many steps a call makes and whatever answers it gets, the steps that take gas are at most as many as its gas limit.
/// Each one that is charged takes gas: an instruction, a storage call, and the answer to a READ that asked.
pub fn charged_steps_within_gas()
    ensures within { (call : Invocation) (replies : List Reply) (n : ℕ) → charged_steps call replies n ≤ call.gas }
    ensures instruction { (s : Machine) (instr : Instr) → is_ecall instr ≡ false → cost_of instr ≤ s.gas
        → gas_left (charged (cost_of instr) s (λ t. instruction_result instr t)) < s.gas }
    ensures storage_call { (s : Machine) (call : StorageCall) (progress : Progress) → charge_of call s.regs ≤ s.gas
        → ecall_result s (Ok (charge_of call s.regs)) ≡ Leads progress → gas_left progress < s.gas }
    ensures answer { (s : Machine) (content : Option (List ℕ)) → charge_of Read s.regs ≤ s.gas
        → gas_left (answered s content) < s.gas }
{}

/// Each step and each answer after which the call continues takes gas, and no end returns any. Each instruction has a charge
/// above 0, and so has each storage call.
pub fn each_step_takes_gas()
    ensures step { (s : Machine) (progress : Progress) → step s ≡ Leads progress → TakesGas s progress }
    ensures answer { (s : Machine) (content : Option (List ℕ)) → TakesGas s (answered s content) }
    ensures instruction { (instr : Instr) → is_ecall instr ≡ false → 0 < cost_of instr }
    ensures storage_call { (call : StorageCall) (registers : List ℕ) → 0 < charge_of call registers }
{}
