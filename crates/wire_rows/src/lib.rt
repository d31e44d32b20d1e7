// Rows of bytes, and the calls and answers that they are, worked out by hand from the rules: a call
// is its number and its fields, four bytes each, low byte first, and a list behind its count in a
// byte; an answer has eight bytes for each number. Long rows are written in hexadecimal. The tests run
// every row through the code.
#![tactic(auto)]

#[cfg(test)]
mod tests {
    use protocol::{Answer, Call};
    use std::test::Fail;
    use wire::{MAX_CALL, decode, encode_call, leg_at, leg_count};
    use wire_answers::encode_answer;

    // What the bytes hold before something is written.
    const BLANK: u8 = 170;

    // Is this row read as this call, with this list beside it.
    fn reads_as(row: &[u8], call: Call, list: &[u32]) -> bool {
        let Ok(read) = decode(row) else {
            return false;
        };
        read.call == call
            && leg_count(read.list) == list.len()
            && list
                .iter()
                .enumerate()
                .all(|(i, number)| leg_at(read.list, i) == Some(*number))
    }

    // Do the bytes begin with this row, and are the others blank.
    fn holds(bytes: &[u8], row: &[u8]) -> bool {
        let Some(rest) = bytes.strip_prefix(row) else {
            return false;
        };
        rest.iter().all(|byte| *byte == BLANK)
    }

    // Is this call, with this list, written as this row, and nothing behind it.
    fn writes_as(call: Call, list: &[u32], row: &[u8]) -> bool {
        let mut out = [BLANK; MAX_CALL];
        let Some(length) = encode_call(call, list, &mut out) else {
            return false;
        };
        length == row.len() && holds(&out, row)
    }

    // Is this call, with this list, not written into these bytes, and nothing of it.
    fn too_long(call: Call, list: &[u32], out: &mut [u8]) -> bool {
        encode_call(call, list, out).is_none() && holds(out, &[])
    }

    // Is this row refused at this place.
    fn refused_at(row: &[u8], place: usize) -> bool {
        decode(row).is_err_and(|n| n == place)
    }

    // Is every row that is shorter than this one refused at its own length.
    fn cut_short(row: &[u8]) -> bool {
        (0..row.len()).all(|n| refused_at(&row[..n], n))
    }

    // Is this row this call both ways, and no call if it is cut short anywhere.
    fn is_row(row: &[u8], call: Call, list: &[u32]) -> bool {
        reads_as(row, call, list) && writes_as(call, list, row) && cut_short(row)
    }

    // Is this answer, with this list, written as this row, and nothing behind it.
    fn answers_as(answer: Answer, list: &[u64], row: &[u8]) -> bool {
        let mut out = [BLANK; 256];
        let Some(length) = encode_answer(answer, list, &mut out) else {
            return false;
        };
        length == row.len() && holds(&out, row)
    }

    #[test]
    fn calls_with_a_list(rt: HostRuntime) {
        let row = b"\0\x01\0\0\0\x02\0\0\0\x64\0\0\0\xc8\0\0\0\x03\x05\0\0\0\x03\0\0\0\x02\0\0\0";
        let open = Call::Open {
            from: 1,
            to: 2,
            leaves: 100,
            arrives: 200,
        };
        assert!(rt; is_row(row, open, &[5, 3, 2]), "open");
        let row = b"\x02\x01\0\0\0\x09\0\0\0\x02\x07\0\0\0\0\0\x01\0";
        let book = Call::Book { class: 1, seats: 9 };
        assert!(rt; is_row(row, book, &[7, 65_536]), "book");
        let row = [5, 255, 255, 0, 0, 1, 232, 3, 0, 0];
        assert!(rt;
            is_row(&row, Call::Limits { leg: 65_535 }, &[1000]),
            "limits"
        );
        let row = [8, 25, 0, 0, 0, 1, 255, 255, 255, 255];
        assert!(rt;
            is_row(&row, Call::Price { class: 25 }, &[4_294_967_295]),
            "price"
        );
    }

    #[test]
    fn calls_without_a_list(rt: HostRuntime) {
        let row = b"\x01\x01\0\0\0\x03\0\0\0\x02\0\0\0\x08\0\0\0\0\xe1\xf5\x05";
        let file = Call::File {
            origin: 1,
            goal: 3,
            class: 2,
            most_legs: 8,
            price: 100_000_000,
        };
        assert!(rt; is_row(row, file, &[]), "file");
        let booking = 999_999;
        assert!(rt;
            is_row(&[3, 63, 66, 15, 0], Call::Pay { booking }, &[]),
            "pay"
        );
        assert!(rt;
            is_row(&[4, 63, 66, 15, 0], Call::Cancel { booking }, &[]),
            "cancel"
        );
        assert!(rt;
            is_row(&[9, 63, 66, 15, 0], Call::Booking { booking }, &[]),
            "booking"
        );
        assert!(rt;
            is_row(&[6, 0, 0, 1, 0], Call::Ticks { count: 65_536 }, &[]),
            "ticks"
        );
        assert!(rt;
            is_row(&[10, 4, 3, 2, 1], Call::Leg { leg: 16_909_060 }, &[]),
            "leg"
        );
        let row = [7, 31, 0, 0, 0, 4, 0, 0, 0];
        assert!(rt; is_row(&row, Call::Free { leg: 31, class: 4 }, &[]), "free");
    }

    // Prices of class 1 on legs 0, 1, 2 and so on, so many of them.
    #[test]
    fn lists_of_each_length(rt: HostRuntime) -> Result<(), Fail> {
        let price = Call::Price { class: 1 };
        let mut row = [0; MAX_CALL];
        let mut legs = [0; 256];
        row[0] = 8;
        row[1] = 1;
        let fields = row[6..].chunks_exact_mut(4);
        for (i, (leg, field)) in (0..255u8).zip(legs.iter_mut().zip(fields)) {
            *leg = u32::from(i);
            if let Some(low) = field.first_mut() {
                *low = i;
            }
        }
        for count in [0, 1, 8, 26, 255u8] {
            row[5] = count;
            let length = 6 + 4 * count as usize;
            assert!(rt; is_row(&row[0..length], price, &legs[0..count as usize]));
            assert!(rt; refused_at(&row[0..length + 1], length), "a byte too many");
        }
        assert!(rt;
            too_long(price, &legs, &mut [BLANK; MAX_CALL]),
            "a list of 256"
        );
        assert!(rt;
            too_long(price, &legs[0..255], &mut [BLANK; 1025]),
            "a byte too few"
        );
        Ok(())
    }

    #[test]
    fn rows_that_are_no_call(rt: HostRuntime) {
        assert!(rt; refused_at(&[], 0), "the empty row");
        assert!(rt; refused_at(&[11], 0), "an unknown call");
        assert!(rt; refused_at(&[255, 1, 0, 0, 0], 0), "an unknown call");
        assert!(rt; refused_at(&[3, 1, 0, 0, 0, 0], 5), "a byte too many");
        assert!(rt;
            refused_at(&[7, 1, 0, 0, 0, 2, 0, 0, 0, 3, 4], 9),
            "two too many"
        );
        assert!(rt;
            refused_at(&[5, 1, 0, 0, 0, 0, 9], 6),
            "more than the count"
        );
        assert!(rt;
            refused_at(&[5, 1, 0, 0, 0, 2, 9, 0, 0, 0], 10),
            "less than the count"
        );
    }

    #[test]
    fn answers(rt: HostRuntime) {
        let row = b"\0\x06\0\0\0\0\0\0\0\x01\0\0\0\0\0\0\0";
        let refused = Answer::Refused {
            refusal: 6,
            place: 1,
        };
        assert!(rt; answers_as(refused, &[], row), "refused");
        let row = [1, 0, 72, 39, 173, 1, 0, 0, 0];
        let number = Answer::Number {
            value: 7_200_000_000,
        };
        assert!(rt; answers_as(number, &[], &row), "a number");
        let row = b"\x02\x3f\x42\x0f\0\0\0\0\0\x01\0\0\0\0\0\0\0";
        let booked = Answer::Booked {
            booking: 999_999,
            stands: 1,
        };
        assert!(rt; answers_as(booked, &[], row), "booked");
        let row = b"\x03\x01\0\0\0\0\0\0\0\x28\0\0\0\0\0\0\0\x08\x07\x06\x05\x04\x03\x02\x01";
        let stands = Answer::Stands {
            stands: 1,
            until: 40,
            paid: 72_623_859_790_382_856,
        };
        assert!(rt; answers_as(stands, &[], row), "stands");
        let row = b"\x04\x02\x02\0\0\0\0\0\0\0\0\x01\0\0\0\0\0\0";
        assert!(rt; answers_as(Answer::Sold, &[2, 256], row), "sold");
        assert!(rt; answers_as(Answer::Sold, &[], &[4, 0]), "nothing sold");
    }

    // As many counts as a leg can have classes, and one more.
    #[test]
    fn longest_answer(rt: HostRuntime) -> Result<(), Fail> {
        let mut row = [0; 210];
        let mut list = [0; 27];
        row[0] = 4;
        row[1] = 26;
        let fields = row[2..].chunks_exact_mut(8);
        for (i, (count, field)) in (0..26u8).zip(list.iter_mut().zip(fields)) {
            *count = u64::from(i);
            if let Some(low) = field.first_mut() {
                *low = i;
            }
        }
        assert!(rt; answers_as(Answer::Sold, &list[0..26], &row));
        let mut out = [BLANK; 256];
        assert!(rt; encode_answer(Answer::Sold, &list, &mut out).is_none());
        assert!(rt; holds(&out, &[]), "27 are refused");
        Ok(())
    }
}
