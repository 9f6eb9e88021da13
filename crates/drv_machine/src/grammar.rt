//! What the grammar of texts and their working agree on.

ghost use Rattle.drv_funcs.specs.Functions.{function_of, name_of};
ghost use Rattle.drv_funcs.specs.declared.function.Function.{Function};
ghost use Rattle.drv_syntax.specs.Bytes.{is_function};
ghost use Rattle.std.specs.Prelude.{◌≡◌, List, Some, is_some, ℕ};

/// The law that the grammar's names of functions are the names that denote one, so that no tree has
/// a call of another, and that each function is denoted by its own name. It takes and gives
/// nothing.
#[tactic(auto, using(crate::proofs::FunctionNames::is_function_known, crate::proofs::FunctionNames::name_of_denotes))]
pub fn function_names()
    ensures known { (name : List ℕ) → is_function name ≡ is_some (function_of name) }
    ensures own { (function : Function) → function_of (name_of function) ≡ Some function }
{}
