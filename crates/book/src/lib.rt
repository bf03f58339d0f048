// Session books: a game with its rules, as bytes.
#![tactic(auto)]

mod book;
mod fault;
mod field;
mod filed;
mod heading;
mod record;
mod rules;

pub use book::{UnreadBook, read_rules};
pub use fault::{Cause, Fault, Layer};
pub use filed::FiledBook;
pub use rules::{RuleField, RuleFields, Rules};

#[cfg(test)]
mod tests {
    use crate::book::UnreadBook;
    use crate::fault::*;
    use crate::rules::*;
    use game::Game;
    use std::test::Fail;

    // Two players and three states: in state 0 both have two moves and equal moves lead to 1, others to 2; in 1 and 2 nothing more happens.
    static MEETING: &[u8] =
        b"\x01\x00\x03\x02\x02\x00\x02\x00\x08\x00\x00\x02\x02\x01\x02\x02\x01\x02\x00\x05\x00\x01\x01\x01\x01\x02\x00\x05\x00\x00\x01\x01\x02\x03\x00\x04\x00\x00\x00\x00\x03\x00\x04\x03\x01\x00\x00\x03\x00\x04\x06\x01\x00\x00";

    fn fault(bytes: &[u8]) -> Option<Fault> {
        let book = UnreadBook { bytes };
        book.read().err()
    }

    #[test]
    fn refuses_what_ends_too_soon(rt: HostRuntime) {
        assert_eq!(rt;
            fault(&MEETING[0..0]),
            Some(Fault {
                cause: Cause::Ended,
                byte: 0,
                layer: Layer::Book,
            })
        );
        assert_eq!(rt;
            fault(&MEETING[0..2]),
            Some(Fault {
                cause: Cause::Cut,
                byte: 0,
                layer: Layer::Field,
            })
        );
    }

    #[test]
    fn reads_a_book(rt: HostRuntime) -> Result<(), Fail> {
        let book = UnreadBook { bytes: MEETING };
        let filed = book.read()?;
        assert_eq!(rt; filed.players(), 2);
        assert_eq!(rt; filed.states(), (3, 0));
        assert_eq!(rt; filed.moves(2, 0), 2);
        assert_eq!(rt; filed.labels(1), 1);
        assert_eq!(rt; filed.next(0, 0x12), Some(2));
        assert_eq!(rt; filed.next(0, 0x22), Some(1));
        assert_eq!(rt; filed.next(1, 0x12), None);
        assert_eq!(rt; filed.rules().len(), 3);
        assert_eq!(rt; filed.rules().iter().count(), 3);
        assert_eq!(rt;
            filed.rules().get(1),
            Some(RuleField {
                kind: 3,
                group: 1,
                r: 0,
                s: 0,
            })
        );
        Ok(())
    }
}
