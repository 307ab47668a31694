//! What holds of the definitions themselves.

ghost use Rattle.std.specs.Prelude.{◌≡◌, ◌⊎◌, ℕ, List, Option};
ghost use Rattle.nf_io.specs.Files.{Files};
ghost use Rattle.nfer_cli.specs.Answers.{Answer, Defines};
ghost use Rattle.nfer_cli.specs.Words.{Asked, Asks, AsksNothing};

use nf_drill::drill_has_one_plan;
use nf_spec::every_specification_has_one_answer;

/// Words ask for one thing at most (`Asks` of specs/Words.antt), and whether they ask for something is known:
/// there is what they ask for, or they ask for nothing.
pub fn words_ask_for_one_thing()
    ensures one { (words : List (List ℕ)) (a b : Asked) → Asks words a → Asks words b → a ≡ b }
    ensures known { (words : List (List ℕ)) → ((a : Asked) × Asks words a) ⊎ AsksNothing words }
{}

/// Every question has a defined answer, whatever the words and the files are, and no question has two:
/// the answer that a call is measured by, and after how many files it is known, are determined by what it
/// was given (`Defines` of specs/Answers).
pub fn every_question_has_one_answer()
    ensures some { (asked : Option Asked) (files : Files)
        → (reads : ℕ) × (answer : Answer) × Defines asked files reads answer }
    ensures one { (asked : Option Asked) (files : Files) (m n : ℕ) (a b : Answer)
        → Defines asked files m a → Defines asked files n b → (m ≡ n) × (a ≡ b) }
{
    drill_has_one_plan();
    every_specification_has_one_answer();
}
