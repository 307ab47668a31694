//! The reader of tokens.

ghost use Rattle.std.specs.Prelude.{◌≡◌, ◌⊎◌, IfOk, IfErr, Ok, Err, All};
ghost use Rattle.nf_lex.specs.declared.fault.LexFault.TheVariants as variant;
ghost use Rattle.nf_lex.specs.Division.{Answer, Divides};
ghost use Rattle.nf_lex.specs.Layout.{IsTokenOf, AreLaidOut};

use crate::fault::LexFault;
use crate::piece::Piece;
use crate::scanning::piece_at;
use crate::token::Token;
use crate::token_list::Tokens;
use nf_text::Span;
use std::alloc::Global;

/// The tokens of `source` in order, each as a span of it, or its first fault with the line, counted
/// from 1, of the first byte of what is faulty. It is read in one pass, and nothing of it is copied.
/// `NoMemory` comes only where no memory was left for the tokens; then nothing is left of them. The
/// rule is `Divides` in specs/Division.antt, and what the tokens are in the source `IsTokenOf` and
/// `AreLaidOut` in specs/Layout.antt: the text of a token is the slice at its span, spans are in
/// order, and between them stand separators and comments.
#[tactic(auto, using(crate::proofs::ReaderLemmas::so_far_start, crate::proofs::ReaderLemmas::so_far_gap, crate::proofs::ReaderLemmas::so_far_token, crate::proofs::ReaderLemmas::so_far_end, crate::proofs::ReaderLemmas::so_far_fault))]
pub fn tokens(alloc: Global, source: &[u8]) -> Result<Tokens, LexFault>
    ensures tokens { IfOk result (λ found. Divides source.now 0 (Ok found)) }
    ensures fault { IfErr result (λ fault.
        (fault ≡ variant.NoMemory) ⊎ Divides source.now 0 (Err fault)) }
    ensures exact { (answer : Answer) → Divides source.now 0 answer
        → (result ≡ answer) ⊎ (result ≡ Err variant.NoMemory) }
    ensures each { IfOk result (All (IsTokenOf source.now)) }
    ensures laid_out { IfOk result (λ found. AreLaidOut source.now 0 found) }
{
    let mut found = Tokens::new(alloc);
    let mut place = 0;
    'words: while place < source.len() {
        match piece_at(source, place)? {
            Piece::Gap(length) => place += length,
            Piece::Token(kind, length) => {
                let stop = place + length;
                found.push(Token {
                    kind,
                    span: Span { start: place, stop },
                })?;
                place = stop;
            }
        }
    }
    Ok(found)
}
