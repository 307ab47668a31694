//! Programs: texts of the C subset that keep all its rules.

ghost use Rattle.std.specs.Prelude.{◌≡◌, ℕ, None, map, IfOk};
ghost use Rattle.nf_cast.specs.Placed.{strip_item};
ghost use Rattle.nf_cast.specs.Rules.{breach_of};
ghost use Rattle.nf_cast.specs.Program.{program_from, needs_of, IsManifest, IsSpelled, KeepsLimits};
ghost use Rattle.nf_cast.specs.Text.{c_text};

use crate::manifests::CManifest;
use crate::objects::CItemList;
use crate::placed::PlacedItem;
use crate::printing::{push_items, push_manifest, push_opening};
use crate::stripping::strip_items;
use nf_core::{Lines, NoMemory};
use std::alloc::Global;
use std::marker::Model;

/// A program: a manifest, and objects and functions in the order of the text. `IsProgram` of
/// specs/Program.antt is true of every program: its manifest has the form of one; its names and literals
/// have theirs; with the parentheses that `print_c` writes it keeps the limits; and it breaks no rule.
#[derive(Drop)]
pub struct CProgram {
    pub manifest: CManifest,
    pub items: CItemList,
}

impl Model for CProgram {
    ghost use Rattle.nf_cast.specs.Program as spec;
    ghost use Rattle.nf_cast.specs.contracts.statements.CStmt as stmt;
    ghost use Rattle.nf_cast.specs.contracts.expressions.CExpr as expr;
    ghost use Rattle.std.specs.Coded.{codes};

    ghost Value = { spec.Program };

    ghost coded = { Prim.hlevel (codes, expr.the_row.coded, stmt.the_row.coded) };

    ghost view = { λ p. spec.program_from p.manifest p.items };

    ghost invariant = { λ p. spec.IsProgram (spec.program_from p.manifest p.items) };

    ghost inverse = { λ p. record { manifest = p.manifest; items = p.items } };
}

impl CProgram {
    /// The program of a text with this manifest and these objects and functions: the trees without their
    /// lines and their parentheses. What is asked of the text is what a program has: the form of its
    /// manifest, of its names and of its literals, the limits, and that it breaks no rule, wherever it ends
    /// (`first_breach`). NoMemory comes where memory is wanted; then nothing is left.
    pub fn of_text(
        alloc: Global,
        manifest: CManifest,
        items: &[PlacedItem],
    ) -> Result<CProgram, NoMemory>
        requires manifest { IsManifest manifest }
        requires spelled { IsSpelled (map strip_item items.now) }
        requires limits { KeepsLimits (map strip_item items.now) }
        requires rules { (last : ℕ) × (breach_of (needs_of manifest) last items.now ≡ None) }
        ensures { IfOk result (λ p. p ≡ program_from manifest (map strip_item items.now)) }
    {
        let items = strip_items(alloc, items)?;
        Ok(CProgram { manifest, items })
    }
}

/// The text of a program (`c_text` in specs/Text.antt): one statement a line, two spaces a level, and an
/// empty line before each function. NoMemory comes where memory is wanted; then nothing is left of the
/// text. The stack that it takes is as deep as the blocks and the expressions of the program, so at most
/// 32 blocks and 128 operators.
#[tactic(auto, unfolding(crate::specs::Text::c_text))]
pub fn print_c(alloc: Global, program: &CProgram) -> Result<Lines, NoMemory>
    ensures { IfOk result (λ lines. lines ≡ c_text program.now.manifest program.now.items) }
{
    let mut lines = Lines::new(alloc);
    push_manifest(alloc, &program.manifest, &mut lines)?;
    push_opening(&mut lines)?;
    push_items(alloc, program.items.as_slice(), &mut lines)?;
    Ok(lines)
}
