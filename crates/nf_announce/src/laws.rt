//! Announcement lines give back what was announced. Each function does nothing, and its contract is the law.

ghost use Rattle.std.specs.Prelude.{◌≡◌, ◌≢◌, ℕ, false, ◌<◌, ◌∷◌, [], ◌++◌, List, length, All, IsTrue};
ghost use Rattle.std.specs.Str.{is_utf8};
ghost use Rattle.nf_core.specs.Plan.{Plan, IsPlan, keys_of, is_head, is_wide};
ghost use Rattle.nf_core.specs.declared.intervals.Named.{Named};
ghost use Rattle.nf_model.specs.Members.{IsInTime};
ghost use Rattle.nf_model.specs.ProperRows.{IsProper};
ghost use Rattle.nf_announce.specs.Announcements.{announcement, unsigned_line, signed_line};
ghost use Rattle.nf_announce.specs.Reading.{Announces, HasTexts, sign_of};
ghost use Rattle.nf_announce.specs.declared.read_lines.Signed as signed;

/// A line of an announcement of a name that isn't wide gives back its sign, its name, its begin, its end
/// and its row (`back`), and it holds no LF before its end (`no_feed`).
pub fn lines_give_back_what_they_announce()
    ensures back { (plan : Plan) (sign other : ℕ) (a b : Named)
        → IsPlan plan → a.name < length plan.names → b.name < length plan.names
        → is_wide plan a.name ≡ false → is_wide plan b.name ≡ false
        → IsProper (keys_of plan a.name) a.interval → IsProper (keys_of plan b.name) b.interval
        → signed_line sign (announcement plan a) ≡ signed_line other (announcement plan b)
        → (sign ≡ other) × (a ≡ b) }
    ensures no_feed { (plan : Plan) (a : Named)
        → IsPlan plan → a.name < length plan.names → is_wide plan a.name ≡ false
        → IsProper (keys_of plan a.name) a.interval
        → All (λ byte. byte ≢ 10) (unsigned_line (announcement plan a)) }
{}

/// A line announces at most one interval with one sign (`one`), and what is printed of a proper interval
/// of a head whose texts are UTF-8 is a line that announces it (`printed`).
pub fn lines_announce_one_thing()
    ensures one { (plan : Plan) (line : List ℕ) (a b : signed.Signed) → IsPlan plan
        → Announces plan line a → Announces plan line b → a ≡ b }
    ensures printed { (plan : Plan) (a : signed.Signed) (line : List ℕ) → IsPlan plan
        → a.item.name < length plan.names → IsTrue (is_head plan a.item.name)
        → IsProper (keys_of plan a.item.name) a.item.interval → IsInTime a.item.interval
        → All HasTexts a.item.interval.row
        → line ++ 10 ∷ [] ≡ signed_line (sign_of a.added) (announcement plan a.item)
        → Announces plan line a }
{}
