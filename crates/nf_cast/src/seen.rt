//! What a name stands for where it is used, and what each use asks of it. Each test is met where nothing
//! is visible: then the name is unknown.

ghost use Rattle.std.specs.Prelude.{◌≡◌};
ghost use Rattle.nf_cast.specs.Book.{is_scalar, is_array, is_func, is_assignable, is_constant, takes, gives_value, has_func, has_cells};

use crate::rules::{Global, Local, Seen};

/// Whether a name may stand alone.
#[tactic(auto, unfolding(crate::specs::Book::is_scalar))]
pub(crate) fn is_scalar(seen: Option<Seen>) -> bool
    ensures { result ≡ is_scalar seen }
{
    match seen {
        None | Some(Seen::Local(_)) | Some(Seen::Global(Global::Scalar)) => true,
        Some(Seen::Global(Global::Array(_))) | Some(Seen::Global(Global::Func { .. })) => false,
    }
}

/// Whether a name may have an index.
#[tactic(auto, unfolding(crate::specs::Book::is_array))]
pub(crate) fn is_array(seen: Option<Seen>) -> bool
    ensures { result ≡ is_array seen }
{
    match seen {
        None | Some(Seen::Global(Global::Array(_))) => true,
        Some(Seen::Local(_)) => false,
        Some(Seen::Global(Global::Scalar)) | Some(Seen::Global(Global::Func { .. })) => false,
    }
}

/// Whether a name may be called.
#[tactic(auto, unfolding(crate::specs::Book::is_func))]
pub(crate) fn is_func(seen: Option<Seen>) -> bool
    ensures { result ≡ is_func seen }
{
    match seen {
        None | Some(Seen::Global(Global::Func { .. })) => true,
        Some(Seen::Local(_)) => false,
        Some(Seen::Global(Global::Scalar)) | Some(Seen::Global(Global::Array(_))) => false,
    }
}

/// Whether a name may be assigned: it is no constant, and no open loop's.
#[tactic(auto, unfolding(crate::specs::Book::is_assignable))]
pub(crate) fn is_assignable(seen: Option<Seen>) -> bool
    ensures { result ≡ is_assignable seen }
{
    match seen {
        Some(Seen::Local(Local::Constant)) | Some(Seen::Local(Local::Loop)) => false,
        None | Some(Seen::Local(Local::Plain)) | Some(Seen::Global(_)) => true,
    }
}

/// Whether a name may be a loop's bound: a constant.
#[tactic(auto, unfolding(crate::specs::Book::is_constant))]
pub(crate) fn is_constant(seen: Option<Seen>) -> bool
    ensures { result ≡ is_constant seen }
{
    match seen {
        None | Some(Seen::Local(Local::Constant)) => true,
        Some(Seen::Local(Local::Plain)) | Some(Seen::Local(Local::Loop)) => false,
        Some(Seen::Global(_)) => false,
    }
}

/// Whether a function has so many parameters.
#[tactic(auto, unfolding(crate::specs::Book::takes))]
pub(crate) fn takes(count: u64, seen: Option<Seen>) -> bool
    ensures { result ≡ takes count seen }
{
    match seen {
        Some(Seen::Global(Global::Func { params, .. })) => count == params,
        None | Some(Seen::Local(_)) => true,
        Some(Seen::Global(Global::Scalar)) | Some(Seen::Global(Global::Array(_))) => true,
    }
}

/// Whether a function gives a value.
#[tactic(auto, unfolding(crate::specs::Book::gives_value))]
pub(crate) fn gives_value(seen: Option<Seen>) -> bool
    ensures { result ≡ gives_value seen }
{
    match seen {
        Some(Seen::Global(Global::Func { void, .. })) => !void,
        None | Some(Seen::Local(_)) => true,
        Some(Seen::Global(Global::Scalar)) | Some(Seen::Global(Global::Array(_))) => true,
    }
}

/// Whether a name stands for a function.
pub(crate) fn has_func(found: Option<Global>) -> bool
    ensures { result ≡ has_func found }
{
    match found {
        Some(Global::Func { .. }) => true,
        None | Some(Global::Scalar) | Some(Global::Array(_)) => false,
    }
}

/// Whether a name stands for an array of at least so many cells.
pub(crate) fn has_cells(most: u64, found: Option<Global>) -> bool
    ensures { result ≡ has_cells most found }
{
    match found {
        Some(Global::Array(count)) => most <= count,
        None | Some(Global::Scalar) | Some(Global::Func { .. }) => false,
    }
}
