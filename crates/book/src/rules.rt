// The rules of a book, each a field of seven bytes.
ghost use Rattle.std.specs.Prelude.{◌≡◌};
ghost use Rattle.std.specs.Iterator.{YieldsFirst, item_count};
ghost use Rattle.book.specs.Readers.{told, left};
ghost use Rattle.book.specs.Told.{rule_count, rule_told, Tells};

// The four values of a rule, as they stand in the book.
#[derive(Clone, Copy, PartialEq, Eq, Debug)]
pub struct RuleField {
    pub kind: u8,
    pub group: u8,
    pub r: u8,
    pub s: u8,
}

// The rules in order, over the bytes of their fields.
#[derive(Clone, Copy)]
pub struct Rules<'a> {
    pub(crate) bytes: &'a [u8],
}

// One rule after another, over the bytes of those that are left.
#[derive(Drop)]
pub struct RuleFields<'a> {
    pub(crate) bytes: &'a [u8],
}

impl Iterator for RuleFields<'_> {
    type Item = RuleField;

    ghost next_gives = { YieldsFirst left };

    ghost remaining = { item_count left };

    #[tactic(auto, using(crate::proofs::Telling::rules_next, crate::proofs::Telling::rules_fewer))]
    fn next(&mut self) -> Option<RuleField> {
        let [_, _, _, kind, group, r, s, rest @ ..] = self.bytes else {
            return None;
        };
        self.bytes = rest;
        Some(RuleField {
            kind: *kind,
            group: *group,
            r: *r,
            s: *s,
        })
    }
}

impl<'a> Rules<'a> {
    // How many there are.
    pub fn len(&self) -> usize
        ensures { result ≡ rule_count (told self.now) }
    {
        self.bytes.len() / 7
    }

    // Rule `k`, from 0, where there is one.
    pub fn get(&self, k: usize) -> Option<RuleField>
        ensures { result ≡ rule_told (told self.now) k }
    {
        if k >= self.len() {
            return None;
        }
        let mut from = RuleFields {
            bytes: &self.bytes[7 * k..],
        };
        from.next()
    }

    // The rules, from the first.
    #[tactic(auto, using(crate::proofs::Telling::tells_told))]
    pub fn iter(&self) -> RuleFields<'a>
        ensures { Tells (told self.now) (left result) }
    {
        RuleFields { bytes: self.bytes }
    }
}
