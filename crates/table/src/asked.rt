// What the kind of a rule asks of its group and its parts.
ghost use Rattle.std.specs.Prelude.{◌≡◌};
ghost use Rattle.table.specs.Parts.{uses_r, uses_s, has_group, bad_group, bad_part};
ghost use Rattle.table.specs.Answers.{below};

use crate::types::Rule;
use atl::{Kind, Temporal};

impl Rule {
    // Whether r is the number of a rule.
    pub(crate) fn uses_r(&self) -> bool
        ensures { result ≡ uses_r self.now.kind }
    {
        !matches!(self.kind, Kind::Label)
    }

    // Whether s is the number of a rule.
    pub(crate) fn uses_s(&self) -> bool
        ensures { result ≡ uses_s self.now.kind }
    {
        matches!(
            self.kind,
            Kind::Or | Kind::Strategic(_, Temporal::Until | Temporal::Unless)
        )
    }

    fn has_group(&self) -> bool
        ensures { result ≡ has_group self.now.kind }
    {
        matches!(self.kind, Kind::Strategic(_, _))
    }

    // Whether a game of so many players lacks the group.
    pub(crate) fn lacks_group(&self, players: u8) -> bool
        ensures { result ≡ bad_group players self.now.kind self.now.group }
    {
        let group = self.group;
        if self.has_group() {
            players < 8 && group >= 1 << players
        } else {
            group != 0
        }
    }

    // Whether so many rules lack a part.
    pub(crate) fn lacks_part(&self, count: u8) -> bool
        ensures { result ≡ bad_part (below count) self.now.kind self.now.r self.now.s }
    {
        let bad_r = if self.uses_r() {
            self.r >= count
        } else {
            self.r > 15
        };
        let bad_s = if self.uses_s() {
            self.s >= count
        } else {
            self.s != 0
        };
        bad_r || bad_s
    }
}
