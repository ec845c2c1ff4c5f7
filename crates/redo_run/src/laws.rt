//! Laws about the definitions alone: their contracts are theorems, and their bodies are empty.
ghost use Rattle.std.specs.Prelude.{◌≡◌, ℕ, List, Some, Err, IsSome};
ghost use Rattle.redo_device.specs.Feed.{Stream};
ghost use Rattle.redo_line.specs.Source.{StreamInput};
ghost use Rattle.redo_logs.specs.Logs.{Log};
ghost use Rattle.redo_run.specs.declared.run_fault.RunFault.{RunFault};
ghost use Rattle.redo_run.specs.Outcome.{Call};
ghost use Rattle.redo_run.specs.Rendered.{RenderCall, expansion_call, rendered_result};
ghost use Rattle.redo_run.specs.Run.{Request, result_of};

use redo_gather::logs_unless_fault;

/// Every run has a result, for any streams: a text, or the fault that is returned instead.
pub fn run_has_a_result()
    ensures { (request : Request) (streams : List (StreamInput Stream)) → IsSome (result_of request streams) }
{
    logs_unless_fault();
}

/// A run with any text has a result too. With the expansion as its text it is the result of [`run`](crate::run), and
/// another text changes no fault.
pub fn run_as_matches_run()
    ensures some_result { (call : RenderCall) (streams : List (StreamInput Stream)) → IsSome (rendered_result call streams) }
    ensures expansion { (call : Call) (streams : List (StreamInput Stream)) →
        rendered_result (expansion_call call) streams ≡ result_of call.request streams }
    ensures faults { (call : RenderCall) (text : List Log → List (List ℕ) → List ℕ) (streams : List (StreamInput Stream)) →
        (fault : RunFault) → rendered_result call streams ≡ Some (Err fault) →
        rendered_result (record call { text = text }) streams ≡ Some (Err fault) }
{
    logs_unless_fault();
}
