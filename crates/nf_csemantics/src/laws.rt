//! Laws of the meaning, one for each form. Each function does nothing, and its contract is the law.

ghost use Rattle.std.specs.Prelude.{◌≡◌, ℤ, Bool, Option, Some, None, Ok, List, map, not, neg_ℤ};
ghost use Rattle.nf_core.specs.declared.operators.BinOp.{BinOp};
ghost use Rattle.nf_cast.specs.declared.expressions.CExpr.{CExpr};
ghost use Rattle.nf_cast.specs.declared.expressions.CExpr.TheVariants as expr;
ghost use Rattle.nf_cast.specs.declared.expressions.CRight.{CRight};
ghost use Rattle.nf_cast.specs.declared.expressions.CBound.{CBound};
ghost use Rattle.nf_cast.specs.declared.statements.CStmt.{CStmt};
ghost use Rattle.nf_cast.specs.declared.statements.CStmt.TheVariants as stmt;
ghost use Rattle.nf_cast.specs.declared.statements.CBlock.{CBlock};
ghost use Rattle.nf_csemantics.specs.States.{Name, State, variable, with_variable, declared};
ghost use Rattle.nf_csemantics.specs.Values.{
  value_of,
  and_then,
  in_range,
  truth,
  is_met,
  early,
  operated_after,
  cell_at,
};
ghost use Rattle.nf_csemantics.specs.Statements as spec;
ghost use Rattle.nf_csemantics.specs.Statements.{
  Calls,
  Next,
  Returned,
  with_value,
  with_right,
  called,
  after,
  stored,
  chosen,
  looped,
  bound_of,
  sequence,
  leaves_block,
  run_of,
  run_of_block,
};

/// The value of an expression, form by form. Its parts are evaluated from left to right, and the first
/// cause is that of the whole; `&&` and `||` don't evaluate their right side where the left one
/// decides.
pub fn values_by_form()
    ensures literal { (n : ℤ) (s : State) → value_of (expr.Lit n) s ≡ Ok n }
    ensures name { (x : Name) (s : State) → value_of (expr.Name x) s ≡ Ok (variable s x) }
    ensures cell { (x : Name) (index : CExpr) (s : State) → value_of (expr.Cell x index) s
        ≡ and_then (value_of index s) (cell_at (s.world.objects x)) }
    ensures minus { (a : CExpr) (s : State) → value_of (expr.Neg a) s
        ≡ and_then (value_of a s) (λ n. in_range (neg_ℤ n)) }
    ensures not { (a : CExpr) (s : State) → value_of (expr.Not a) s
        ≡ and_then (value_of a s) (λ n. Ok (truth (not (is_met n)))) }
    ensures binary { (o : BinOp) (a b : CExpr) (s : State) → value_of (expr.Bin o a b) s
        ≡ and_then (value_of a s) (λ m. operated_after o m (early o m) (value_of b s)) }
{}

/// What a statement does, form by form, whatever functions there are to call.
pub fn statements_by_form()
    ensures local { (calls : Calls) (constant : Bool) (x : Name) (r : CRight) (s : State)
        → run_of calls (stmt.Local constant x r) s
        ≡ with_right calls r (λ n t. Next (declared t x n)) s }
    ensures assign { (calls : Calls) (x : Name) (r : CRight) (s : State)
        → run_of calls (stmt.Assign x r) s
        ≡ with_right calls r (λ n t. Next (with_variable t x n)) s }
    ensures store { (calls : Calls) (x : Name) (index a : CExpr) (s : State)
        → run_of calls (stmt.Store x index a) s
        ≡ with_value (value_of index s) (λ n. with_value (value_of a s) (λ v. stored x n v s)) }
    ensures call { (calls : Calls) (f : Name) (arguments : List CExpr) (s : State)
        → run_of calls (stmt.Call f arguments) s
        ≡ with_value (called calls f arguments s) (λ back. Next (after calls back s)) }
    ensures if_alone { (calls : Calls) (c : CExpr) (a : CBlock) (s : State)
        → run_of calls (stmt.If c a None) s
        ≡ with_value (value_of c s) (λ n. chosen n (run_of_block calls a) None s) }
    ensures if_else { (calls : Calls) (c : CExpr) (a b : CBlock) (s : State)
        → run_of calls (stmt.If c a (Some b)) s
        ≡ with_value (value_of c s)
        (λ n. chosen n (run_of_block calls a) (Some (run_of_block calls b)) s) }
    ensures repeats { (calls : Calls) (x : Name) (to : CBound) (body : CBlock) (s : State)
        → run_of calls (stmt.For x to body) s
        ≡ looped x (run_of_block calls body) (bound_of to s) s }
    ensures return_void { (calls : Calls) (s : State)
        → run_of calls (stmt.Return None) s ≡ Returned None s.world }
    ensures return_value { (calls : Calls) (a : CExpr) (s : State)
        → run_of calls (stmt.Return (Some a)) s
        ≡ with_value (value_of a s) (λ n. Returned (Some n) s.world) }
{}

/// What a block does: its statements in their order, and its locals end with it.
pub fn blocks_by_statements()
    ensures { (calls : Calls) (stmts : List CStmt) (s : State)
        → run_of_block calls (record { stmts = stmts }) s
        ≡ leaves_block s (sequence (map (run_of calls) stmts) s) }
{}
