// Bad and borderline records at a desk, and its print into buffers of several lengths.
#![tactic(auto)]

#[cfg(test)]
mod tests {
    use deck::{Desk, RECORD_LENGTH, answer_deck, take_deck};
    use standard::fault::{Fault, Ground};

    const SITE: [u8; 7] = [b'S', 3, 1, 10, 2, 1, 0];

    const LOWER: [u8; 7] = [b'F', 0, 30, 0, 0, 78, 32];

    const UPPER: [u8; 7] = [b'F', 0, 60, 0, 0, 78, 32];

    const SLOW: [u8; 8] = [b'M', 1, 244, 2, 2, 106, 3, 232];

    const QUICK: [u8; 8] = [b'M', 0, 190, 2, 3, 232, 253, 150];

    const RUN: [u8; 2] = [b'C', 1];

    // What stands in a place for answers before it is written; no record is answered so.
    const UNSAID: Fault = Fault {
        ground: Ground::PrintBuffer,
        place: 7,
    };

    // The number and place of a refusal.
    fn told<T>(answer: Result<T, Fault>) -> Result<T, (u8, u32)> {
        answer.map_err(|fault| (fault.ground.number(), fault.place))
    }

    // A record that begins with these bytes, filled up with 0.
    fn card(bytes: &[u8]) -> [u8; RECORD_LENGTH] {
        let mut record = [0; RECORD_LENGTH];
        let used = bytes.len().min(RECORD_LENGTH);
        record[..used].copy_from_slice(&bytes[..used]);
        record
    }

    // A desk after it took these records.
    fn after(mut desk: Desk, records: &[[u8; RECORD_LENGTH]]) -> Desk {
        for record in records {
            let _ = desk.take(record);
        }
        desk
    }

    // A desk with the site and the two floors.
    fn framed() -> Desk {
        after(Desk::new(), &[card(&SITE), card(&LOWER), card(&UPPER)])
    }

    // The same, with the two modes and a run.
    fn worked() -> Desk {
        after(framed(), &[card(&SLOW), card(&QUICK), card(&RUN)])
    }

    // The records of such a desk in one piece, and one byte more.
    fn whole() -> [u8; 577] {
        let records = [
            card(&SITE),
            card(&LOWER),
            card(&UPPER),
            card(&SLOW),
            card(&QUICK),
            card(&RUN),
        ];
        let mut deck = [0; 577];
        for (piece, record) in deck.chunks_mut(RECORD_LENGTH).zip(&records) {
            piece.copy_from_slice(record);
        }
        deck
    }

    #[test]
    fn every_letter(rt: HostRuntime) {
        for letter in 0..255u8 {
            let mut desk = Desk::new();
            let answer = told(desk.take(&card(&[letter])));
            let wanted = match letter {
                b'S' => (5, 1),
                b'F' | b'W' | b'M' | b'K' | b'E' | b'C' => (4, 0),
                _ => (2, 0),
            };
            assert_eq!(rt; answer, Err(wanted));
        }
    }

    #[test]
    fn too_few_bytes(rt: HostRuntime) {
        let record = card(&SITE);
        for n in 0..96u32 {
            let mut desk = Desk::new();
            assert_eq!(rt; told(desk.take(&record[0..n as usize])), Err((1, n)));
        }
    }

    #[test]
    fn unused_bytes(rt: HostRuntime) {
        for place in 9..96u32 {
            let mut record = card(&SITE);
            record[place as usize] = 1;
            let mut desk = Desk::new();
            assert_eq!(rt; told(desk.take(&record)), Err((3, place)));
        }
    }

    #[test]
    fn site_missing_and_repeated(rt: HostRuntime) {
        let mut desk = Desk::new();
        assert_eq!(rt; told(desk.take(&card(&LOWER))), Err((4, 0)));
        assert_eq!(rt;
            told(desk.take(&card(&[b'S', 3, 1, 11, 2, 1, 0]))),
            Err((5, 3))
        );
        assert_eq!(rt; told(desk.take(&card(&SITE))), Ok(()));
        assert_eq!(rt; told(desk.take(&card(&SITE))), Err((4, 0)));
    }

    #[test]
    fn counts_of_ordinates(rt: HostRuntime) {
        for count in [0, 40, 41, 46, 47, 255u8] {
            let mut desk = framed();
            assert_eq!(rt;
                told(desk.take(&card(&[b'M', 1, 244, count]))),
                Err((12, count as u32))
            );
        }
    }

    #[test]
    fn widest_fields(rt: HostRuntime) {
        let mut desk = framed();
        assert_eq!(rt;
            told(desk.take(&card(&[b'M', 1, 244, 2, 128, 0, 0, 1]))),
            Err((14, 1))
        );
        assert_eq!(rt;
            told(desk.take(&card(&[b'M', 1, 244, 2, 0, 1, 127, 255]))),
            Err((14, 2))
        );
        assert_eq!(rt;
            told(desk.take(&card(&[b'F', 0, 90, 255, 255, 255, 255]))),
            Err((7, 3))
        );
        assert_eq!(rt;
            told(desk.take(&card(&[b'W', 2, 255, 255, 255, 255]))),
            Err((7, 2))
        );
        assert_eq!(rt; told(desk.take(&card(&[b'C', 0]))), Err((24, 1)));
        assert_eq!(rt; told(desk.take(&card(&[b'C', 5]))), Err((24, 1)));
    }

    #[test]
    fn print_into_buffers(rt: HostRuntime) {
        let desk = worked();
        let text = b"base 1600\n2 1002 1002\n1 1600 598\n";
        let mut exact = [0; 33];
        assert_eq!(rt; told(desk.print(&mut exact)), Ok(33));
        assert!(rt; &exact[0..33] == &text[0..33]);
        let mut short = [7; 32];
        assert_eq!(rt; told(desk.print(&mut short)), Err((25, 33)));
        assert!(rt; short == [7; 32]);
        let mut long = [7; 40];
        assert_eq!(rt; told(desk.print(&mut long)), Ok(33));
        assert!(rt; &long[33..40] == &[7; 7][0..7]);
    }

    #[test]
    fn whole_deck(rt: HostRuntime) {
        let mut page = [0; 40];
        assert_eq!(rt; told(take_deck(&whole()).print(&mut page)), Ok(33));
        assert!(rt; &page[0..33] == b"base 1600\n2 1002 1002\n1 1600 598\n".as_slice());
    }

    #[test]
    fn deck_of_a_cut_record(rt: HostRuntime) {
        let cut = card(&SITE);
        let mut page = [0; 5];
        assert_eq!(rt; told(take_deck(&cut[0..95]).print(&mut page)), Ok(5));
        assert!(rt; &page[0..5] == b"none\n".as_slice());
    }

    #[test]
    fn answers_of_a_whole_deck(rt: HostRuntime) {
        let mut answers = [Err(UNSAID); 8];
        let mut page = [0; 40];
        let desk = answer_deck(&whole(), &mut answers);
        assert_eq!(rt; told(desk.print(&mut page)), Ok(33));
        assert!(rt; &page[0..33] == b"base 1600\n2 1002 1002\n1 1600 598\n".as_slice());
        for answer in &answers[0..6] {
            assert_eq!(rt; told(*answer), Ok(()));
        }
        assert_eq!(rt; told(answers[6]), Err((1, 1)));
        assert_eq!(rt; told(answers[7]), Err((25, 7)));
    }

    #[test]
    fn answer_to_a_cut_record(rt: HostRuntime) {
        let cut = card(&SITE);
        let mut answers = [Err(UNSAID); 1];
        let mut page = [0; 5];
        let desk = answer_deck(&cut[0..95], &mut answers);
        assert_eq!(rt; told(desk.print(&mut page)), Ok(5));
        assert!(rt; &page[0..5] == b"none\n".as_slice());
        assert_eq!(rt; told(answers[0]), Err((1, 95)));
    }

    #[test]
    fn no_room_for_answers(rt: HostRuntime) {
        let mut page = [0; 40];
        let desk = answer_deck(&whole(), &mut []);
        assert_eq!(rt; told(desk.print(&mut page)), Ok(33));
    }
}
