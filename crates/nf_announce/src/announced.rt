//! Announcements, and their order.

ghost use Rattle.std.specs.Prelude.{Some, refl};
ghost use Rattle.std.specs.Ordering.{eq_by_cmp};
ghost use Rattle.std.specs.Cmp.{partial_equiv_from_equiv, eq_by_cmp_equiv, po};
ghost use Rattle.nf_announce.specs.Announcements.{announcement_cmp};
ghost use Rattle.nf_announce.specs.inner.AnnouncementOrder.{announcement_cmp_total};

use nf_core::Lines;
use std::cmp::Ordering;
use std::marker::Model;

/// An announcement without its sign: a name, a begin, an end, and the rest of the line. Contracts
/// see the record `Announcement` of specs/Announcements. Announcements are ordered by the bytes of
/// the name, then by begin, then by end, then by the bytes of the rest (`announcement_cmp` there).
#[derive(Drop)]
pub(crate) struct Announced<'a> {
    pub(crate) name: &'a str,
    pub(crate) start: i64,
    pub(crate) stop: i64,
    pub(crate) rest: Lines,
}

impl<'a> Model for Announced<'a> {
    ghost use Rattle.nf_announce.specs.Announcements as spec;

    ghost Value = { spec.Announcement };

    ghost view = { λ a. record {
      name = a.name.now;
      start = a.start;
      stop = a.stop;
      rest = a.rest;
    } };
}

impl<'a> PartialEq for Announced<'a> {
    ghost eq = { eq_by_cmp announcement_cmp };

    ghost laws = { partial_equiv_from_equiv (eq_by_cmp_equiv announcement_cmp_total) };

    fn eq(&self, other: &Announced<'a>) -> bool {
        self.cmp(other).is_eq()
    }
}

impl<'a> Eq for Announced<'a> {
    ghost laws = { eq_by_cmp_equiv announcement_cmp_total };
}

impl<'a> PartialOrd for Announced<'a> {
    ghost partial_cmp = { λ a b. Some (announcement_cmp a b) };

    ghost laws = { po announcement_cmp_total (λ a b. refl) };

    fn partial_cmp(&self, other: &Announced<'a>) -> Option<Ordering> {
        Some(self.cmp(other))
    }
}

impl<'a> Ord for Announced<'a> {
    ghost cmp = { announcement_cmp };

    ghost total = { announcement_cmp_total };

    ghost matches_partial_cmp = { λ a b. refl };

    ghost matches_eq = { λ a b. refl };

    fn cmp(&self, other: &Announced<'a>) -> Ordering {
        self.name
            .cmp(other.name)
            .then(self.start.cmp(&other.start))
            .then(self.stop.cmp(&other.stop))
            .then(self.rest.as_slice().cmp(other.rest.as_slice()))
    }
}
