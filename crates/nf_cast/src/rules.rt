//! The rules of a C text: their kinds, and what a name stands for.

/// The kinds of rules (specs/Rules.antt). Of two that are broken at one token the first here is told.
#[derive(Debug, Clone, Copy, PartialEq, Eq)]
pub enum CRule {
    Twice,
    Unknown,
    Form,
    Class,
    Count,
    Void,
    Assign,
    Bound,
    Loop,
    Return,
    Size,
    Calls,
    Interface,
}

/// A rule that is broken, and the line of the token where it is.
#[derive(Debug, Clone, Copy, PartialEq, Eq)]
pub struct Breach {
    pub line: u64,
    pub rule: CRule,
}

/// What a name stands for outside functions: a scalar, an array of so many cells, or a function with its
/// number of parameters, whether it is void, and its depth of calls.
#[derive(Debug, Clone, Copy, PartialEq, Eq)]
pub enum Global {
    Scalar,
    Array(u64),
    Func { params: u64, void: bool, depth: u64 },
}

/// What a name stands for in a function: a parameter or a local that may be assigned, a constant, or the
/// name of an open loop.
#[derive(Debug, Clone, Copy, PartialEq, Eq)]
pub enum Local {
    Plain,
    Constant,
    Loop,
}

/// What a visible name stands for.
#[derive(Debug, Clone, Copy, PartialEq, Eq)]
pub enum Seen {
    Global(Global),
    Local(Local),
}

/// What a program asks of its text: the number of parameters of `nf_event`, and of how many cells `nf_in`
/// and `nf_out` are at least.
#[derive(Debug, Clone, Copy, PartialEq, Eq)]
pub struct Needs {
    pub params: u64,
    pub input: u64,
    pub output: u64,
}
