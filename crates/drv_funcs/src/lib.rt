//! The functions of spec texts: the result of each, and the order of versions.
#![tactic(auto)]

mod calling;
mod changes;
mod comparing;
mod existing;
mod fault;
mod function;
mod operator;
mod outputs;
mod site;
mod version;

pub use calling::{FunctionCall, call};
pub use fault::FuncsFault;
pub use function::Function;
pub use outputs::Outputs;
pub use site::Site;
pub use version::compare_versions;
