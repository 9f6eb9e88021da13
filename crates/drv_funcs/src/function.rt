//! The functions of spec texts and their names.

ghost use Rattle.drv_funcs.specs.Functions.{function_of, name_of};
ghost use Rattle.std.specs.Prelude.{◌≡◌};

/// A function of spec texts (GCC manual, "Spec Files").
#[derive(Clone, Copy, Debug)]
pub enum Function {
    /// The value of a variable, followed by a string.
    Getenv,
    /// A path that exists.
    IfExists,
    /// A path that exists, or else another word.
    IfExistsElse,
    /// One word if a path exists, otherwise another word or nothing.
    IfExistsThenElse,
    /// Replaces an output, in the link.
    ReplaceOutfile,
    /// Removes an output, in the link.
    RemoveOutfile,
    /// A word, if the version of a switch compares so.
    VersionCompare,
}

impl Function {
    /// The function with this name.
    pub fn by_name(name: &[u8]) -> Option<Function>
        ensures { result ≡ function_of name.now }
    {
        if name == b"getenv".as_slice() {
            Some(Function::Getenv)
        } else if name == b"if-exists".as_slice() {
            Some(Function::IfExists)
        } else if name == b"if-exists-else".as_slice() {
            Some(Function::IfExistsElse)
        } else if name == b"if-exists-then-else".as_slice() {
            Some(Function::IfExistsThenElse)
        } else if name == b"replace-outfile".as_slice() {
            Some(Function::ReplaceOutfile)
        } else if name == b"remove-outfile".as_slice() {
            Some(Function::RemoveOutfile)
        } else if name == b"version-compare".as_slice() {
            Some(Function::VersionCompare)
        } else {
            None
        }
    }

    /// The function's name.
    pub fn name(self) -> &'static [u8]
        ensures { result.now ≡ name_of self }
    {
        match self {
            Function::Getenv => b"getenv",
            Function::IfExists => b"if-exists",
            Function::IfExistsElse => b"if-exists-else",
            Function::IfExistsThenElse => b"if-exists-then-else",
            Function::ReplaceOutfile => b"replace-outfile",
            Function::RemoveOutfile => b"remove-outfile",
            Function::VersionCompare => b"version-compare",
        }
    }
}
