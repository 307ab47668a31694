//! Cutting bytes that come in pieces into lines.

ghost use Rattle.std.specs.Prelude.{◌≡◌, ◌≢◌, ◌≤◌, ◌↔◌, [], ◌++◌, length, false, true, IsTrue, IfOk, IfErr, IfSome, OnOk, OnErr};
ghost use Rattle.std.specs.Option.{option_copied};
ghost use Rattle.std.specs.Borrow.{sem};
ghost use Rattle.std.specs.Io.BufRead.{Rests};
ghost use Rattle.nf_line.specs.Lines.{without_return};
ghost use Rattle.nf_line.specs.Cutting.{nothing_kept, after_long, has_feed, goes_beyond, is_long, last_line, CanBeRead, IsContent};
ghost use Rattle.nf_line.specs.Calls.{Takes, content_left};
ghost use Rattle.nf_line.specs.contracts.liner.Liner.{the_row};

use crate::carried::Carried;
use crate::fault::CutFault;
use crate::limits::LINE_LIMIT;
use crate::pieces::{cut_piece, without_return};
use crate::taken::Taken;
use std::alloc::Global;
use std::marker::Model;

/// Cuts bytes that come in pieces into lines. Contracts see what it keeps: the bytes since the last
/// line, and whether a line was too long (`Content` of specs/Cutting). Only a line that is cut between
/// pieces is kept, in one buffer.
#[derive(Debug, Drop)]
pub struct Liner {
    carried: Carried,
    was_long: bool,
}

impl Model for Liner {
    ghost use Rattle.nf_line.specs.Cutting as cutting;

    ghost Value = { cutting.Content };

    ghost view = { λ l. record { kept = l.carried; was_long = l.was_long } };

    ghost invariant = { λ l. cutting.IsContent (record {
      kept = l.carried;
      was_long = l.was_long;
    }) };
}

impl Liner {
    /// Keeps nothing. Takes no memory.
    pub fn new(alloc: Global) -> Liner
        ensures { result ≡ nothing_kept }
    {
        Liner {
            carried: Carried::new(alloc),
            was_long: false,
        }
    }

    /// Takes a piece up to its first LF and with it, or the whole piece where it has none. The line
    /// is None exactly where no LF stands in the piece; then the whole piece is kept. Otherwise the
    /// kept bytes and the piece up to its first LF are handed out as one line, without the LF and
    /// without one CR before it, and nothing is kept. Where nothing was kept before, that line is lent
    /// by the piece, and no memory is taken.
    ///
    /// `Long` comes exactly where the kept bytes and the piece up to its first LF or its end are more
    /// than 65,536 bytes, or `Long` came before; then nothing is kept, and each later call answers it
    /// too. `NoMemory` leaves all as it was, and never comes where nothing was kept and the piece has
    /// an LF.
    pub fn next_line<'a>(&'a mut self, piece: &'a [u8]) -> Result<Taken<'a>, CutFault>
        ensures long { (result ≡ Err CutFault.Long) ↔ IsTrue (is_long self.old piece.now) }
        ensures lent { self.old.kept ≡ [] → has_feed piece.now ≡ true
            → result ≢ Err CutFault.NoMemory }
        ensures taken { IfOk result (Takes self.old piece.now) }
        ensures within { IfOk result (λ taken. taken.used ≤ length piece.now) }
        ensures line { IfOk result (λ taken. IfSome taken.line (λ line. CanBeRead line.now)) }
        ensures valid { IsContent self.old }
        ensures* after { sem 𝓛 (Rests the_row self.entry (λ after.
            after ≡ content_left self.old piece.now result)) }
    {
        let cut = cut_piece(piece);
        if !cut.has_feed {
            self.keep(cut.before)?;
            return Ok(Taken {
                used: piece.len(),
                line: None,
            });
        }
        let used = cut.before.len() + 1;
        if self.carried.len() == 0 {
            let line = self.lend(cut.before)?;
            return Ok(Taken {
                used,
                line: Some(line),
            });
        }
        self.keep(cut.before)?;
        Ok(Taken {
            used,
            line: Some(self.hand_out()),
        })
    }

    /// Hands out the kept bytes without one CR at their end, and keeps nothing. None exactly where
    /// nothing was kept. Takes no memory.
    pub fn last(&mut self) -> Option<&[u8]>
        ensures last { option_copied result ≡ last_line self.old.kept }
        ensures line { IfSome result (λ line. CanBeRead line.now) }
        ensures valid { IsContent self.old }
        ensures* after { sem 𝓛 (Rests the_row self.entry (λ after.
            after ≡ record self.old { kept = [] })) }
    {
        if self.carried.len() == 0 {
            return None;
        }
        Some(self.hand_out())
    }

    // The line that bytes without LF are where nothing is kept, without one CR at their end. They lend it.
    #[tactic(auto, using(crate::proofs::CarriageReturnLemmas::can_be_read))]
    fn lend<'a>(&mut self, bytes: &'a [u8]) -> Result<&'a [u8], CutFault>
        requires none { self.old.kept ≡ [] }
        requires no_feed { has_feed bytes.now ≡ false }
        ensures long { (result ≡ Err CutFault.Long)
            ↔ IsTrue (goes_beyond self.old (length bytes.now)) }
        ensures memory { result ≢ Err CutFault.NoMemory }
        ensures line { IfOk result (λ line. line.now ≡ without_return bytes.now) }
        ensures read { IfOk result (λ line. CanBeRead line.now) }
        ensures ok { OnOk result (self.new ≡ self.old) }
        ensures err { OnErr result (self.new ≡ after_long) }
        ensures valid { IsContent self.old }
    {
        self.measure(bytes)?;
        Ok(without_return(bytes))
    }

    // Keeps more bytes, none of which is LF. Where they are too many nothing is kept from then on.
    fn keep(&mut self, bytes: &[u8]) -> Result<(), CutFault>
        requires { has_feed bytes.now ≡ false }
        ensures long { (result ≡ Err CutFault.Long)
            ↔ IsTrue (goes_beyond self.old (length bytes.now)) }
        ensures ok { OnOk result
            (self.new ≡ record self.old { kept = self.old.kept ++ bytes.now }) }
        ensures err { IfErr result (λ fault. self.new ≡ content_left self.old [] (Err fault)) }
        ensures valid { IsContent self.old }
    {
        self.measure(bytes)?;
        match self.carried.push(bytes) {
            Ok(()) => Ok(()),
            Err(_) => Err(CutFault::NoMemory),
        }
    }

    // Tests that the line isn't too long with more bytes. Where it is nothing is kept from then on.
    fn measure(&mut self, bytes: &[u8]) -> Result<(), CutFault>
        ensures long { (result ≡ Err CutFault.Long)
            ↔ IsTrue (goes_beyond self.old (length bytes.now)) }
        ensures memory { result ≢ Err CutFault.NoMemory }
        ensures ok { OnOk result (self.new ≡ self.old) }
        ensures err { OnErr result (self.new ≡ after_long) }
        ensures valid { IsContent self.old }
    {
        if self.was_long || self.carried.len() + bytes.len() > LINE_LIMIT {
            self.carried.clear();
            self.was_long = true;
            return Err(CutFault::Long);
        }
        Ok(())
    }

    // Hands out the kept bytes without one CR at their end.
    #[tactic(auto, using(crate::proofs::CarriageReturnLemmas::can_be_read))]
    fn hand_out(&mut self) -> &[u8]
        ensures kept { result.now ≡ without_return self.old.kept }
        ensures line { CanBeRead result.now }
        ensures* after { sem 𝓛 (Rests the_row self.entry (λ after.
            after ≡ record self.old { kept = [] })) }
    {
        without_return(self.carried.hand_out())
    }
}
