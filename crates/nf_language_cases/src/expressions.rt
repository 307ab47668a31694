//! Expressions, as they are shown: each operator before its operands, in parentheses.

use nf_core::{Expr, NoMemory, Term};

/// Adds an expression as it is written.
pub fn push_expr(out: &mut String, x: &Expr) -> Result<(), NoMemory> {
    match x {
        Expr::Bool(b) => write!(out, "{b}")?,
        Expr::Int(n) => write!(out, "{n}")?,
        Expr::Text(text) => write!(out, "'{}'", text.as_str())?,
        Expr::Start(label) => write!(out, "{}.begin", label.as_str())?,
        Expr::Stop(label) => write!(out, "{}.end", label.as_str())?,
        Expr::Key(label, key) => write!(out, "{}.{}", label.as_str(), key.as_str())?,
        Expr::Neg(inner) => {
            out.push_str("(Neg ")?;
            push_expr(out, inner.get())?;
            out.push(')')?;
        }
        Expr::Not(inner) => {
            out.push_str("(Not ")?;
            push_expr(out, inner.get())?;
            out.push(')')?;
        }
        Expr::Bin(op, left, right) => {
            write!(out, "({op:?} ")?;
            push_expr(out, left.get())?;
            out.push(' ')?;
            push_expr(out, right.get())?;
            out.push(')')?;
        }
    }
    Ok(())
}

/// Adds a term of a plan: `0.begin` and `0.end` of a member, and `0#2` for the key at a place.
pub fn push_term(out: &mut String, x: &Term) -> Result<(), NoMemory> {
    match x {
        Term::Bool(b) => write!(out, "{b}")?,
        Term::Int(n) => write!(out, "{n}")?,
        Term::Text(text) => write!(out, "'{}'", text.as_str())?,
        Term::Start(member) => write!(out, "{member}.begin")?,
        Term::Stop(member) => write!(out, "{member}.end")?,
        Term::Key(member, place) => write!(out, "{member}#{place}")?,
        Term::Neg(inner) => {
            out.push_str("(Neg ")?;
            push_term(out, inner.get())?;
            out.push(')')?;
        }
        Term::Not(inner) => {
            out.push_str("(Not ")?;
            push_term(out, inner.get())?;
            out.push(')')?;
        }
        Term::Bin(op, left, right) => {
            write!(out, "({op:?} ")?;
            push_term(out, left.get())?;
            out.push(' ')?;
            push_term(out, right.get())?;
            out.push(')')?;
        }
    }
    Ok(())
}
