// Records of the house as the pages of a checkpoint have them: legs, fares and bookings, several of one
// sort to a page. `Record` says what the three have in common, so that filling a page and reading one
// are each one function; `journal_rows/specs/Sorts.antt` says what a sort of records is.
#![tactic(auto)]

ghost use Rattle.std.specs.Prelude.{◌≡◌, ℕ, ◌*◌, ◌<◌, [], ◌∷◌, ◌++◌, length, refl, slice_index_or};
ghost use Rattle.meaning.specs.House.{House, Booking as MeantBooking};
ghost use Rattle.meaning.specs.Lines.{Leg as MeantLeg, Fare as MeantFare};
ghost use Rattle.wire.specs.Bytes.{row_of};
ghost use Rattle.records.specs.Means.{booking_means, fare_means, leg_means};
ghost use Rattle.store.specs.Range.{FineBooking as SoundBooking, FineFare as SoundFare, FineLeg as SoundLeg};
ghost use Rattle.store.specs.Whole.{Lent, Sound, house};
ghost use Rattle.journal_rows.specs.Kinds.{kind_number};
ghost use Rattle.journal_rows.specs.declared.PageKind.{PageKind};
ghost use Rattle.journal_rows.specs.declared.PageKind.TheVariants as kinds;
ghost use Rattle.journal_rows.specs.Sorts.{IsSort, Sort, booking_sort, fare_sort, leg_sort, record_of};
ghost use Rattle.journal_rows.proofs.Laws.{booking_laws, fare_laws, leg_laws};
ghost use Rattle.journal_records.specs.Got.{RecordGot};

use checks::fare_in_range;
use journal_ranges::{booking_in_range, leg_in_range};
use journal_rows::{BOOKINGS_A_PAGE, FARES_A_PAGE, LEGS_A_PAGE, PageKind};
use journal_words::{BASE, booking_words, fare_words, leg_words, put_words, words_at};
use records::{Booking, Fare, Leg, read_booking, read_leg};
use store::Memory;

// A page that can't be the one that is asked for, on no chip of a house.
#[derive(Clone, Copy, PartialEq, Eq, Debug)]
pub struct WrongPage;

// A record of the house of which a checkpoint keeps several to a page.
pub trait Record: Drop {
    ghost KIND: { PageKind };

    ghost WORDS: { ℕ };

    ghost A_PAGE: { ℕ };

    // the record as the meaning has it
    ghost Meant: { Type 0 };

    // its sort
    ghost sort: { Sort Meant };

    // which record of the meaning a value is
    ghost means: { Self → Meant };

    // is it in range, as memory that is this house keeps it
    ghost IsSound: { House → Self → Type 0 };

    // The kind of its pages, how many words it has there, and how many of them go on a page.
    const KIND: PageKind;

    const WORDS: usize;

    const A_PAGE: usize;

    // How many there are in memory.
    fn count(m: &Memory) -> usize
        ensures { result ≡ length (sort.its (house m.now)) };

    // That of this number.
    fn at(m: &Memory, i: usize) -> Self
        requires sound { Sound m.now }
        requires there { i < length (sort.its (house m.now)) }
        ensures means { (d : Meant) → means result ≡ slice_index_or (sort.its (house m.now)) i d }
        ensures range { IsSound (house m.now) result };

    // Writes its words into a part of a page.
    fn put(&self, part: &mut [u8])
        requires range { (h : House) × IsSound h self.now }
        requires long { length part.old ≡ 4 * WORDS }
        ensures { part.new ≡ row_of 4 (sort.row (means self.now)) };

    // Record k of a page, for this memory; or it can't be one.
    fn read(page: &[u8; 512], k: usize, m: &Memory) -> Result<Self, WrongPage>
        requires { k < A_PAGE }
        ensures { RecordGot sort means IsSound (house m.now) (record_of WORDS page.now k) result };

    // Puts it into memory, behind those that are there.
    fn push(&self, m: &mut Memory)
        requires sound { Sound m.old }
        requires space { length (sort.its (house m.old)) < sort.most m.old.limits }
        requires range { IsSound (house m.old) self.now }
        ensures house { house m.new ≡ sort.put (house m.old) (sort.its (house m.old) ++ (means self.now ∷ [])) }
        ensures sound { Sound m.new }
        ensures lent { Lent m.old m.new };

    // the laws of its sort, and its numbers are those of its sort
    ghost laws: { IsSort sort };

    ghost words_are: { WORDS ≡ sort.width };

    ghost a_page_is: { A_PAGE ≡ sort.to_page };

    ghost kind_is: { kind_number KIND ≡ sort.kind };
}

impl Record for Leg {
    ghost KIND = { kinds.Legs };

    ghost WORDS = { 31 };

    ghost A_PAGE = { 4 };

    ghost Meant = { MeantLeg };

    ghost sort = { leg_sort };

    ghost means = { leg_means };

    ghost IsSound = { λ h. SoundLeg };

    ghost laws = { leg_laws };

    ghost words_are = { refl };

    ghost a_page_is = { refl };

    ghost kind_is = { refl };

    const KIND: PageKind = PageKind::Legs;

    const WORDS: usize = 31;

    const A_PAGE: usize = LEGS_A_PAGE;

    fn count(m: &Memory) -> usize {
        m.leg_count()
    }

    fn at(m: &Memory, i: usize) -> Leg {
        m.leg(i)
    }

    fn put(&self, part: &mut [u8]) {
        put_words(part, &leg_words(self));
    }

    fn read(page: &[u8; 512], k: usize, _m: &Memory) -> Result<Leg, WrongPage> {
        let mut words = [0; 31];
        words_at(page, 2 + k * 31, &mut words);
        let leg = read_leg(&words);
        if leg.classes > 26 {
            return Err(WrongPage);
        }
        if !leg_in_range(&leg) {
            return Err(WrongPage);
        }
        Ok(leg)
    }

    fn push(&self, m: &mut Memory) {
        m.push_leg(self);
    }
}

impl Record for Fare {
    ghost KIND = { kinds.Fares };

    ghost WORDS = { 5 };

    ghost A_PAGE = { 25 };

    ghost Meant = { MeantFare };

    ghost sort = { fare_sort };

    ghost means = { fare_means };

    ghost IsSound = { λ h. SoundFare };

    ghost laws = { fare_laws };

    ghost words_are = { refl };

    ghost a_page_is = { refl };

    ghost kind_is = { refl };

    const KIND: PageKind = PageKind::Fares;

    const WORDS: usize = 5;

    const A_PAGE: usize = FARES_A_PAGE;

    fn count(m: &Memory) -> usize {
        m.fare_count()
    }

    fn at(m: &Memory, k: usize) -> Fare {
        m.fare(k)
    }

    fn put(&self, part: &mut [u8]) {
        put_words(part, &fare_words(self));
    }

    fn read(page: &[u8; 512], k: usize, _m: &Memory) -> Result<Fare, WrongPage> {
        let mut words = [0; 5];
        words_at(page, 2 + k * 5, &mut words);
        let [origin, goal, class, most, price] = words;
        let fare = Fare {
            origin,
            goal,
            class,
            most,
            price,
        };
        if !fare_in_range(&fare) {
            return Err(WrongPage);
        }
        Ok(fare)
    }

    fn push(&self, m: &mut Memory) {
        m.push_fare(self);
    }
}

impl Record for Booking {
    ghost KIND = { kinds.Bookings };

    ghost WORDS = { 15 };

    ghost A_PAGE = { 8 };

    ghost Meant = { MeantBooking };

    ghost sort = { booking_sort };

    ghost means = { booking_means };

    ghost IsSound = { λ h. SoundBooking (length h.legs) };

    ghost laws = { booking_laws };

    ghost words_are = { refl };

    ghost a_page_is = { refl };

    ghost kind_is = { refl };

    const KIND: PageKind = PageKind::Bookings;

    const WORDS: usize = 15;

    const A_PAGE: usize = BOOKINGS_A_PAGE;

    fn count(m: &Memory) -> usize {
        m.booking_count()
    }

    fn at(m: &Memory, k: usize) -> Booking {
        m.booking(k)
    }

    fn put(&self, part: &mut [u8]) {
        put_words(part, &booking_words(self));
    }

    // Its legs have to be there.
    fn read(page: &[u8; 512], k: usize, m: &Memory) -> Result<Booking, WrongPage> {
        let mut words = [0; 15];
        words_at(page, 2 + k * 15, &mut words);
        let paid = words[13] as u64 + BASE * words[14] as u64;
        let booking = read_booking(&words[0..13], paid);
        if !booking_in_range(&booking, m.leg_count()) {
            return Err(WrongPage);
        }
        Ok(booking)
    }

    fn push(&self, m: &mut Memory) {
        m.push_booking(self);
    }
}
