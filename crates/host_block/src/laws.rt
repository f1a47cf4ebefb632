//! A law of a block's run in order.

ghost use Rattle.std.specs.Prelude.{List, Option};
ghost use Rattle.host_block.specs.Hosts.{AreHostCalls, IsResultOver};
ghost use Rattle.host_block.specs.Ordered.{AreResults, OrderedView, new_run};
ghost use Rattle.host_block.specs.declared.ordered_run.BlockResult.{BlockResult};
ghost use Rattle.rv_ledger.specs.Call.{Invocation};
ghost use Rattle.rv_ledger.specs.Key.{Storage};

/// Whatever a host over one storage does with a new run, and however often memory runs out: if there is a result then, its receipts
/// are those of the calls one after another over that storage, and its changes lead from it to the storage after them.
pub fn host_gets_calls_in_order()
    ensures { (store : Storage) (calls : List Invocation) (views : List OrderedView) (last : OrderedView) (result : Option BlockResult)
        → AreHostCalls store (new_run calls) views last → AreResults result last → IsResultOver store calls result }
{}
