//! The C subset: the trees of a monitor, the rules that they keep, and their text.
//!
//! A `CProgram` is a manifest, and objects and functions: names and literals of the right form,
//! within the limits, and without a broken rule (`IsProgram` of specs/Program.antt). `print_c`
//! gives its text (`c_text` of specs/Text.antt).
//!
//! The rules are stated once (specs/Rules.antt, over the book of specs/Book.antt), over the trees
//! of a text as it is written, which `placed` has: with lines, parentheses and all names of a
//! loop's header. They give the first breach of a text, which `first_breach` answers. A program keeps
//! them where its own trees, at no lines, have none. `strip_items` makes the trees of a program of
//! those of a text, and `rules_hold_without_lines` says that this changes nothing for the rules: so
//! `CProgram::of_text` makes a program of a text that breaks none.
//!
//! Of the other files, `expressions`, `statements`, `objects` and `manifests` have the trees and
//! `rules` the kinds of rules. `book` keeps what is known at a place, `seen` and `asking` have what is
//! asked of a name, `expression_rules`, `statement_rules` and `breaches` what each part of a text asks,
//! and `needs` what a manifest does. `levels` says where parentheses stand, and `expression_text`,
//! `statement_text` and `printing` put the text together. Below stand nf_core with texts and lists;
//! above it the reader of C texts, their meaning and the generator.
#![tactic(auto)]

mod asking;
mod book;
mod breaches;
mod expression_rules;
mod expression_text;
mod expressions;
mod laws;
mod levels;
mod limits;
mod manifests;
mod needs;
mod objects;
mod placed;
mod printing;
mod programs;
mod rules;
mod seen;
mod statement_rules;
mod statement_text;
mod statements;
mod stripping;

pub use breaches::first_breach;
pub use expressions::{CBound, CExpr, CExprList, CRight};
pub use laws::rules_hold_without_lines;
pub use limits::{MOST_BLOCKS, MOST_CALLS, MOST_CELLS, MOST_OPEN, MOST_OPERATORS};
pub use manifests::{CManifest, CName, CNameList};
pub use needs::needs_of;
pub use objects::{CForm, CFunc, CItem, CItemList, CObject};
pub use placed::{
    PlacedBlock, PlacedBound, PlacedCells, PlacedExpr, PlacedExprList, PlacedFunc, PlacedItem,
    PlacedItemList, PlacedName, PlacedObject, PlacedRight, PlacedStmt,
};
pub use programs::{CProgram, print_c};
pub use rules::{Breach, CRule, Global, Local, Needs, Seen};
pub use statements::{CBlock, CStmt, CStmtList};
pub use stripping::strip_items;
