// The edges of the games and of the board, by example.
#![tactic(auto)]

#[cfg(test)]
mod tests {
    use atl::{Shown, Verdict};
    use binding::Binding;
    use board::Board;
    use book::UnreadBook;
    use calls::{Answer, Call, perform};
    use drill::Drill;
    use game::{Game, is_choice, is_vector};
    use judged::{Example, judged, meeting_book};
    use refusal::Refusal;
    use report::{Report, list_book, list_drill, playbook_of_book};
    use std::alloc::Global;
    use std::test::Fail;

    fn drill(limit: u8) -> Result<Drill, Fail> {
        Drill::new(limit).map_err(|_| Fail::new("no drill of this limit"))
    }

    // The number of the refusal, or 0 where the call was taken: a test names what is told to users.
    fn refused<T: Drop>(answer: Result<T, Refusal>) -> u8 {
        match answer {
            Ok(_) => 0,
            Err(refusal) => u8::from(refusal),
        }
    }

    #[test]
    fn drill_limits(rt: HostRuntime) -> Result<(), Fail> {
        assert_eq!(rt; refused(Drill::new(0)), 13);
        assert_eq!(rt; refused(Drill::new(1)), 0);
        assert_eq!(rt; refused(Drill::new(253)), 0);
        assert_eq!(rt; refused(Drill::new(254)), 13);
        let (states, start) = drill(253)?.states();
        assert!(rt; states == 256 && start == 0);
        Ok(())
    }

    #[test]
    fn drill_vectors(rt: HostRuntime) -> Result<(), Fail> {
        let d = drill(1)?;
        assert!(rt; is_vector(&d, 0, 0x11) && is_vector(&d, 1, 0x22));
        assert!(rt; !is_vector(&d, 0, 0x01) && !is_vector(&d, 0, 0x31) && !is_vector(&d, 0, 0x111));
        assert!(rt; is_vector(&d, 2, 0x11) && !is_vector(&d, 2, 0x12) && !is_vector(&d, 4, 0x11));
        assert!(rt;
            is_choice(&d, 0, 1, 0x02) && !is_choice(&d, 0, 1, 0x22) && is_choice(&d, 0, 0, 0)
        );
        assert_eq!(rt; d.next(1, 0x12), Some(3));
        assert_eq!(rt; d.next(0, 0x12), Some(1));
        assert_eq!(rt; d.next(0, 0x22), Some(2));
        assert_eq!(rt; d.next(0, 0x31), None);
        Ok(())
    }

    fn filled() -> Result<Board<Drill>, Fail> {
        let mut board = Board::new(drill(1)?);
        for _ in 0..31 {
            let _ = board.write(0, 0, 8, 0);
        }
        Ok(board)
    }

    #[test]
    fn thirty_two_rules(rt: HostRuntime) -> Result<(), Fail> {
        let mut board = filled()?;
        let last = refused(board.write(0, 0, 15, 0));
        let full = refused(board.write(0, 0, 8, 0));
        let full_before_kind = refused(board.write(9, 9, 99, 9));
        let erased = refused(board.erase());
        let again = refused(board.write(0, 0, 8, 0));
        let _ = board.close();
        assert!(rt; last == 0 && full == 1 && full_before_kind == 1 && erased == 0 && again == 0);
        Ok(())
    }

    #[test]
    fn writes_refused_in_order(rt: HostRuntime) -> Result<(), Fail> {
        let mut board = Board::new(drill(1)?);
        let kind = refused(board.write(9, 9, 99, 9));
        let group = refused(board.write(3, 4, 99, 9));
        let no_group = refused(board.write(1, 1, 99, 9));
        let label = refused(board.write(0, 0, 16, 0));
        let unused = refused(board.write(0, 0, 15, 1));
        let part = refused(board.write(1, 0, 0, 0));
        let nothing = refused(board.erase());
        let _ = board.close();
        assert!(rt; kind == 2 && group == 3 && no_group == 3);
        assert!(rt; label == 4 && unused == 4 && part == 4 && nothing == 5);
        Ok(())
    }

    #[test]
    fn rounds_and_questions_refused_in_order(rt: HostRuntime) -> Result<(), Fail> {
        let mut board = Board::new(drill(1)?);
        let _ = board.write(0, 0, 8, 0);
        let _ = board.write(1, 0, 0, 0);
        let no_rule = refused(board.round(2));
        let part = refused(board.round(1));
        let first = refused(board.round(0));
        let settled = refused(board.round(0));
        let second = refused(board.round(1));
        let no_state = refused(board.ask(0, 4));
        let rule_first = refused(board.ask(2, 4));
        let untold = refused(board.tell(2));
        let _ = board.close();
        assert!(rt; no_rule == 5 && part == 7 && first == 0 && settled == 8 && second == 0);
        assert!(rt; no_state == 6 && rule_first == 5 && untold == 5);
        Ok(())
    }

    #[test]
    fn open_until_asked(rt: HostRuntime) -> Result<(), Fail> {
        let mut board = Board::new(drill(1)?);
        let _ = board.write(0, 0, 8, 0);
        let before = board.ask(0, 2);
        let _ = board.round(0);
        let after = board.ask(0, 2);
        let _ = board.close();
        assert_eq!(rt;
            before.ok(),
            Some(Shown {
                verdict: Verdict::Open,
                number: 256,
            })
        );
        assert_eq!(rt;
            after.ok(),
            Some(Shown {
                verdict: Verdict::Yes,
                number: 0,
            })
        );
        Ok(())
    }

    // A book of one state and six players who have four moves each, but the first, who has `first`.
    fn crowded(heap: Global, first: u8, vectors: u16) -> Result<Vec<u8>, Fail> {
        let mut bytes = Vec::new(heap);
        bytes.extend_from_slice(b"\x01\x00\x03\x06\x00\x00\x02")?;
        bytes.extend_from_slice(&(vectors.saturating_add(8)).to_be_bytes())?;
        bytes.extend_from_slice(b"\x00\x00")?;
        bytes.push(first)?;
        bytes.extend_from_slice(b"\x04\x04\x04\x04\x04")?;
        for _ in 0..vectors {
            bytes.push(0)?;
        }
        Ok(bytes)
    }

    // The number of the fault and its byte, or 0 and 0 where the book was taken: both are told to users, and so tests name them.
    fn faulty(bytes: &[u8]) -> (u8, usize) {
        let unread = UnreadBook { bytes };
        match unread.read() {
            Ok(_) => (0, 0),
            Err(fault) => (u8::from(fault.cause), fault.byte),
        }
    }

    #[test]
    fn product_of_the_counts(rt: HostRuntime) -> Result<(), Fail> {
        let most = crowded(rt.alloc(), 4, 4096)?;
        assert_eq!(rt; faulty(most.as_slice()), (0, 0));
        let more = crowded(rt.alloc(), 5, 5120)?;
        assert_eq!(rt; faulty(more.as_slice()), (19, 11));
        let count = crowded(rt.alloc(), 16, 4096)?;
        assert_eq!(rt; faulty(count.as_slice()), (19, 11));
        let short = crowded(rt.alloc(), 4, 4095)?;
        assert_eq!(rt; faulty(short.as_slice()), (18, 6));
        Ok(())
    }

    #[test]
    fn faults_in_order(rt: HostRuntime) {
        assert_eq!(rt; faulty(b""), (15, 0));
        assert_eq!(rt; faulty(b"\x01\x00"), (16, 0));
        assert_eq!(rt; faulty(b"\x02\x00\x01\x01"), (17, 0));
        assert_eq!(rt; faulty(b"\x01\x00\x02\x01\x00"), (18, 0));
        assert_eq!(rt; faulty(b"\x01\x00\x03\x07\x00\x00"), (19, 3));
        assert_eq!(rt; faulty(b"\x01\x00\x03\x01\x00\x01"), (19, 5));
        assert_eq!(rt; faulty(b"\x01\x00\x03\x01\x00\x00"), (15, 6));
        assert_eq!(rt;
            faulty(b"\x01\x00\x03\x01\x00\x00\x02\x00\x04\x00\x00\x01\x01"),
            (19, 12)
        );
        assert_eq!(rt;
            faulty(b"\x01\x00\x03\x01\x00\x00\x02\x00\x04\x00\x00\x01\x00\x03"),
            (16, 13)
        );
    }

    #[test]
    fn answers_of_the_meeting_book(rt: HostRuntime) -> Result<(), Fail> {
        let book = UnreadBook {
            bytes: meeting_book(),
        };
        let Ok(filed) = book.read() else {
            return Err(Fail::new("not read"));
        };
        assert!(rt; filed.players() == 2 && filed.states() == (3, 0));
        assert!(rt; filed.moves(2, 0) == 2 && filed.labels(1) == 1);
        assert_eq!(rt; filed.next(0, 0x12), Some(2));
        assert_eq!(rt; filed.next(0, 0x22), Some(1));
        assert_eq!(rt; filed.next(1, 0x12), None);
        assert!(rt; filed.rules().len() == 3);
        let Some(rule) = filed.rules().get(1) else {
            return Err(Fail::new("no rule 1"));
        };
        assert!(rt; rule.kind == 3 && rule.group == 1 && rule.r == 0 && rule.s == 0);
        Ok(())
    }

    // Two states of one length and of the same counts, two moves of player 1 and one of player 2, each of which leads to the other.
    static TURNS: &[u8] =
        b"\x01\x00\x03\x02\x01\x00\x02\x00\x06\x00\x01\x02\x01\x01\x01\x02\x00\x06\x00\x02\x02\x01\x00\x00";

    #[test]
    fn straight_to_a_state(rt: HostRuntime) -> Result<(), Fail> {
        let book = UnreadBook { bytes: TURNS };
        let Ok(filed) = book.read() else {
            return Err(Fail::new("not read"));
        };
        assert!(rt; filed.labels(1) == 2 && filed.moves(1, 1) == 2);
        assert_eq!(rt; filed.next(0, 0x12), Some(1));
        assert_eq!(rt; filed.next(1, 0x11), Some(0));
        assert_eq!(rt; filed.next(1, 0x21), None);
        Ok(())
    }

    // The fault of the first bytes of the meeting book: its fields stand at these places, and its rules from 33 on.
    fn truncated(len: usize) -> (u8, usize) {
        let fields = [0usize, 6, 17, 25, 33, 40, 47, 54];
        let field = fields
            .into_iter()
            .filter(|at| *at <= len)
            .max()
            .unwrap_or(0);
        if field < len {
            (16, field)
        } else if field < 33 {
            (15, field)
        } else {
            (0, 0)
        }
    }

    #[test]
    fn truncations_of_the_meeting_book(rt: HostRuntime) {
        let book =
            *b"\x01\0\x03\x02\x02\0\x02\0\x08\0\0\x02\x02\x01\x02\x02\x01\x02\0\x05\0\x01\x01\x01\x01\x02\0\x05\0\0\x01\x01\x02\x03\0\x04\0\0\0\0\x03\0\x04\x03\x01\0\0\x03\0\x04\x06\x01\0\0";
        for len in 0..55usize {
            assert_eq!(rt; faulty(&book[..len]), truncated(len));
        }
    }

    // A book of one player who has one move, with so many states, each but the last leading to the start.
    fn chain(heap: Global, most: u8, states: u16, last: u8) -> Result<Vec<u8>, Fail> {
        let mut bytes = Vec::new(heap);
        bytes.extend_from_slice(b"\x01\0\x03\x01")?;
        bytes.push(most)?;
        bytes.push(0)?;
        for _ in 1..states {
            bytes.extend_from_slice(b"\x02\0\x04\0\0\x01\0")?;
        }
        bytes.extend_from_slice(b"\x02\0\x04\0\0\x01")?;
        bytes.push(last)?;
        Ok(bytes)
    }

    #[test]
    fn last_state_of_a_book(rt: HostRuntime) -> Result<(), Fail> {
        let one = chain(rt.alloc(), 0, 1, 0)?;
        assert_eq!(rt; faulty(one.as_slice()), (0, 0));
        let whole = chain(rt.alloc(), 255, 256, 255)?;
        assert_eq!(rt; faulty(whole.as_slice()), (0, 0));
        let ended = chain(rt.alloc(), 255, 255, 0)?;
        assert_eq!(rt; faulty(ended.as_slice()), (15, 1791));
        let astray = chain(rt.alloc(), 254, 255, 255)?;
        assert_eq!(rt; faulty(astray.as_slice()), (19, 1790));
        Ok(())
    }

    // A book of one state and 9,359 rules, which these bytes end: seven of them make the largest book.
    fn long(heap: Global, end: &[u8]) -> Result<Vec<u8>, Fail> {
        let mut bytes = Vec::new(heap);
        bytes.extend_from_slice(b"\x01\0\x03\x01\0\0\x02\0\x06\0\0\x03\0\0\0")?;
        for _ in 0..9359 {
            bytes.extend_from_slice(b"\x03\0\x04\0\0\0\0")?;
        }
        bytes.extend_from_slice(end)?;
        Ok(bytes)
    }

    #[test]
    fn end_of_the_largest_book(rt: HostRuntime) -> Result<(), Fail> {
        let largest = long(rt.alloc(), b"\x03\0\x04\0\0\0\0")?;
        assert!(rt; largest.len() == 65535);
        assert_eq!(rt; faulty(largest.as_slice()), (0, 0));
        let cut = long(rt.alloc(), b"\x03\0\x04\0\0\0")?;
        assert_eq!(rt; faulty(cut.as_slice()), (16, 65528));
        let tag = long(rt.alloc(), b"\x02\0\x04\0\0\0\0")?;
        assert_eq!(rt; faulty(tag.as_slice()), (17, 65528));
        let short = long(rt.alloc(), b"\x03\0\x03\0\0\0")?;
        assert_eq!(rt; faulty(short.as_slice()), (18, 65528));
        let over = long(rt.alloc(), b"\x03\0\x04\0\0\0\0\x03")?;
        assert_eq!(rt; faulty(over.as_slice()), (14, 0));
        Ok(())
    }

    // The rules of "answered at last": 0 is label 8, 2 is true everywhere, 3 is can-until with r 2 and s 0.
    fn settle_reach<G: Game>(board: &mut Board<G>, group: u8) {
        let _ = board.write(0, 0, 8, 0);
        let _ = board.write(1, 0, 0, 0);
        let _ = board.write(2, 0, 0, 1);
        let _ = board.write(4, group, 2, 0);
        for rule in 0..4u8 {
            for _ in 0..5 {
                let _ = board.round(rule);
            }
        }
    }

    #[test]
    fn playbook_in_the_middle_of_a_buffer(rt: HostRuntime) -> Result<(), Fail> {
        let mut board = Board::new(drill(1)?);
        settle_reach(&mut board, 3);
        let mut buffer = [7u8; 18];
        let copied = board.copy(3, &mut buffer, 1);
        let no_room = refused(board.copy(3, &mut buffer, 3));
        let no_rule = refused(board.copy(4, &mut buffer, 0));
        let no_playbook = refused(board.play(0, 0));
        let no_state = refused(board.play(3, 4));
        let played = board.play(3, 0);
        let _ = board.write(4, 1, 2, 0);
        let unsettled = refused(board.play(4, 0));
        let _ = board.close();
        assert_eq!(rt; copied.ok(), Some(16));
        assert_eq!(rt; played.ok(), Some(34));
        assert!(rt;
            no_room == 11 && no_rule == 5 && no_playbook == 10 && no_state == 6 && unsettled == 9
        );
        assert_eq!(rt;
            buffer,
            *b"\x07\0\0\0\x22\0\0\0\x22\0\0\0\x11\0\0\0\x11\x07"
        );
        Ok(())
    }

    #[test]
    fn bound_to_its_playbook(rt: HostRuntime) -> Result<(), Fail> {
        let mut binding = Binding::new(drill(1)?, 3);
        let no_state = refused(binding.set(4, 0x11));
        let no_choice = refused(binding.set(0, 0x31));
        let first = refused(binding.set(0, 0x22));
        let second = refused(binding.set(1, 0x22));
        let mut board = Board::new(binding);
        settle_reach(&mut board, 0);
        let told = board.tell(3);
        let at_try = board.ask(3, 0);
        let given_up = board.ask(3, 3);
        let _ = board.close().close();
        assert!(rt; no_state == 6 && no_choice == 12 && first == 0 && second == 0);
        assert_eq!(rt; told.ok(), Some((3, true)));
        assert_eq!(rt;
            at_try.ok(),
            Some(Shown {
                verdict: Verdict::Yes,
                number: 1,
            })
        );
        assert_eq!(rt;
            given_up.ok(),
            Some(Shown {
                verdict: Verdict::No,
                number: 256,
            })
        );
        Ok(())
    }

    #[test]
    fn calls_on_what_earlier_ones_left(rt: HostRuntime) -> Result<(), Fail> {
        let calls = [
            Call::Round(0),
            Call::Write(0, 0, 8, 0),
            Call::Round(0),
            Call::Ask(0, 2),
            Call::Erase,
            Call::Ask(0, 2),
            Call::Copy(0, 0),
        ];
        let mut board = Board::new(drill(1)?);
        let mut buffer = [1u8; 4];
        let made = perform(rt.alloc(), &mut board, &calls, &mut buffer);
        let _ = board.close();
        let answers = made?;
        assert!(rt; answers.len() == 7);
        assert_eq!(rt; answers[0], Answer::Refused(Refusal::NoRule));
        assert_eq!(rt; answers[1], Answer::Number(0));
        assert_eq!(rt; answers[2], Answer::Marked(4));
        assert_eq!(rt;
            answers[3],
            Answer::Says(Shown {
                verdict: Verdict::Yes,
                number: 0,
            })
        );
        assert_eq!(rt; answers[4], Answer::Number(0));
        assert_eq!(rt; answers[5], Answer::Refused(Refusal::NoRule));
        assert_eq!(rt; answers[6], Answer::Refused(Refusal::NoRule));
        assert_eq!(rt; buffer, [1u8; 4]);
        Ok(())
    }

    #[test]
    fn three_bindings(rt: HostRuntime) -> Result<(), Fail> {
        let mut sends = Binding::new(drill(1)?, 1);
        let first = refused(sends.set(0, 0x02));
        let second = refused(sends.set(1, 0x02));
        let mut carries = Binding::new(sends, 2);
        let third = refused(carries.set(0, 0x20));
        let bound_below = refused(carries.set(1, 0x22));
        let mut both = Binding::new(carries, 3);
        let only_moves = refused(both.set(0, 0x11));
        let moves_below = refused(both.set(0, 0x22));
        let answered = both.next(0, 0x11);
        let lost = both.next(1, 0x11);
        let one_move = both.moves(1, 0);
        let mut board = Board::new(both);
        settle_reach(&mut board, 0);
        let at_start = board.ask(3, 0);
        let at_limit = board.ask(3, 1);
        let _ = board.close().close().close().close();
        assert!(rt; first == 0 && second == 0 && third == 0 && bound_below == 12);
        assert!(rt; only_moves == 0 && moves_below == 12 && one_move == 1);
        assert_eq!(rt; answered, Some(2));
        assert_eq!(rt; lost, Some(3));
        assert_eq!(rt;
            at_start.ok(),
            Some(Shown {
                verdict: Verdict::Yes,
                number: 1,
            })
        );
        assert_eq!(rt;
            at_limit.ok(),
            Some(Shown {
                verdict: Verdict::No,
                number: 256,
            })
        );
        Ok(())
    }

    #[test]
    fn part_erased_and_written_again(rt: HostRuntime) -> Result<(), Fail> {
        let calls = [
            Call::Write(0, 0, 8, 0),
            Call::Round(0),
            Call::Write(1, 0, 0, 0),
            Call::Erase,
            Call::Erase,
            Call::Write(0, 0, 0, 0),
            Call::Write(1, 0, 0, 0),
            Call::Round(1),
            Call::Tell(0),
            Call::Round(0),
            Call::Round(1),
            Call::Ask(1, 3),
        ];
        let mut board = Board::new(drill(1)?);
        let mut buffer = [0u8; 1];
        let made = perform(rt.alloc(), &mut board, &calls, &mut buffer);
        let _ = board.close();
        let answers = made?;
        assert!(rt; answers.len() == 12);
        assert_eq!(rt; answers[2], Answer::Number(1));
        assert_eq!(rt; answers[3], Answer::Number(1));
        assert_eq!(rt; answers[4], Answer::Number(0));
        assert_eq!(rt; answers[5], Answer::Number(0));
        assert_eq!(rt; answers[6], Answer::Number(1));
        assert_eq!(rt; answers[7], Answer::Refused(Refusal::PartUnsettled));
        assert_eq!(rt; answers[8], Answer::Told(0, false));
        assert_eq!(rt; answers[9], Answer::Marked(4));
        assert_eq!(rt; answers[10], Answer::Marked(4));
        assert_eq!(rt;
            answers[11],
            Answer::Says(Shown {
                verdict: Verdict::No,
                number: 0,
            })
        );
        Ok(())
    }

    #[test]
    fn copy_at_the_last_place(rt: HostRuntime) -> Result<(), Fail> {
        let calls = [Call::Copy(3, 2), Call::Copy(3, 3)];
        let mut board = Board::new(drill(1)?);
        settle_reach(&mut board, 3);
        let mut buffer = [7u8; 18];
        let made = perform(rt.alloc(), &mut board, &calls, &mut buffer);
        let _ = board.close();
        let answers = made?;
        assert!(rt; answers.len() == 2);
        assert_eq!(rt; answers[0], Answer::Copied(16));
        assert_eq!(rt; answers[1], Answer::Refused(Refusal::NoRoom));
        assert_eq!(rt;
            buffer,
            *b"\x07\x07\0\0\0\x22\0\0\0\x22\0\0\0\x11\0\0\0\x11"
        );
        Ok(())
    }

    #[test]
    fn worked_examples(rt: HostRuntime) -> Result<(), Fail> {
        let answers = judged(rt.alloc(), Example::Drill)?;
        assert!(rt; answers.len() == 130);
        assert_eq!(rt; answers[126], Answer::Choice(34));
        assert_eq!(rt; answers[127], Answer::Choice(34));
        assert_eq!(rt; answers[128], Answer::Choice(17));
        assert_eq!(rt; answers[129], Answer::Choice(17));
        assert!(rt; judged(rt.alloc(), Example::BoundDrill)?.len() == 60);
        Ok(())
    }

    // The line of a session that was declined.
    fn declined(report: Report) -> Result<String, Fail> {
        match report {
            Report::Declined(line) => Ok(line),
            _ => Err(Fail::new("not declined")),
        }
    }

    #[test]
    fn listing_of_the_meeting(rt: HostRuntime) -> Result<(), Fail> {
        match list_book(rt.alloc(), meeting_book())? {
            Report::Listing(text) => {
                assert!(rt;
                    text.as_str() == "game 2 3 0\n0 1 n0 y0 n0\n1 1 n0 y0 n0\n2 1 y0 y0 n0\n"
                );
                Ok(())
            },
            _ => Err(Fail::new("no listing")),
        }
    }

    #[test]
    fn declined_sessions(rt: HostRuntime) -> Result<(), Fail> {
        let heap = rt.alloc();
        let empty = declined(list_book(heap, b"")?)?;
        assert!(rt; empty.as_str() == "fault 15 0 book\n");
        let cut = declined(list_book(heap, b"\x01\x00")?)?;
        assert!(rt; cut.as_str() == "fault 16 0 field\n");
        let no_drill = declined(list_drill(heap, 254, b"")?)?;
        assert!(rt; no_drill.as_str() == "refused 13\n");
        let no_label = declined(list_drill(heap, 1, b"\x03\x00\x04\x00\x00\x10\x00")?)?;
        assert!(rt; no_label.as_str() == "refused 0 4\n");
        let no_rule = declined(playbook_of_book(heap, meeting_book(), 300)?)?;
        assert!(rt; no_rule.as_str() == "refused 300 5\n");
        Ok(())
    }
}
