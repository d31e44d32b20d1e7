// The lists of calls that are played, and the questions that are asked after each failure.
#![tactic(auto)]

ghost use Rattle.std.specs.Prelude.{IfOk, ◌≡◌, ◌-◌, ◌++◌, string_bytes};
ghost use Rattle.power_lists.specs.Lists.{booked_in, booking_lines, question_lines};

use std::alloc::{AllocError, Global};

// The worked example, as far as it opens, files, books and asks, with calls that are refused: three
// bookings.
pub const FIRST_STAGE: &str = "open 1 2 100 200 limits 5 3 2\n\
    open 2 3 230 300 limits 5 4\n\
    file 1 2 1 1 50\n\
    file 2 3 1 1 40\n\
    file 1 3 1 2 80\n\
    file 1 3 0 2 200\n\
    price 1 on 0 1\n\
    price 0 on 0\n\
    book 1 2 on 0 1\n\
    free 0 0\n\
    free 0 1\n\
    free 0 2\n\
    book 1 2 on 0\n\
    book 0 3 on 0 1\n\
    book 1 1 on 1 0\n\
    book 0 1 on 0\n\
    leg 0\n\
    booking 1\n";

// The whole worked example.
pub const WORKED_EXAMPLE: &str = "open 1 2 100 200 limits 5 3 2\n\
    open 2 3 230 300 limits 5 4\n\
    file 1 2 1 1 50\n\
    file 2 3 1 1 40\n\
    file 1 3 1 2 80\n\
    file 1 3 0 2 200\n\
    price 1 on 0 1\n\
    price 0 on 0\n\
    book 1 2 on 0 1\n\
    free 0 0\n\
    free 0 1\n\
    free 0 2\n\
    book 1 2 on 0\n\
    book 0 3 on 0 1\n\
    pay 0\n\
    ticks 20\n\
    booking 2\n\
    cancel 0\n\
    booking 1\n\
    limits 0 to 1 1 1\n\
    leg 0\n\
    ticks 80\n\
    booking 1\n\
    book 1 1 on 0\n";

// Two legs with more seats, and the same fares.
pub const LARGER: &str = "open 1 2 100 200 limits 90 60 30\n\
    open 2 3 230 300 limits 80 40\n\
    file 1 2 1 1 50\n\
    file 2 3 1 1 40\n\
    file 1 3 1 2 80\n\
    file 1 3 0 2 200\n";

// What is asked of the legs and the fares: each fare is the cheapest for one of the prices, so that a
// fare that is missing is seen.
pub const QUESTIONS: &str = "leg 0\n\
    leg 1\n\
    free 0 0\n\
    free 0 1\n\
    free 0 2\n\
    free 1 0\n\
    free 1 1\n\
    price 1 on 0\n\
    price 1 on 1\n\
    price 1 on 0 1\n\
    price 0 on 0 1\n";

// A booking of one seat, on one leg or both, by its number.
fn booking_line(k: u32) -> &'static str
    ensures { result.now ≡ booked_in k }
{
    match k % 4 {
        0 => "book 1 1 on 0\n",
        1 => "book 1 1 on 1\n",
        2 => "book 0 1 on 0 1\n",
        _ => "book 1 1 on 0 1\n",
    }
}

// A list, and behind it the bookings from one number up to another.
pub fn with_bookings(heap: Global, list: &str, from: u32, to: u32) -> Result<String, AllocError>
    ensures { IfOk result (λ t. string_bytes t ≡ list.now ++ booking_lines from (to - from)) }
{
    let mut text = String::new(heap);
    text.push_str(list)?;
    for k in from..to {
        text.push_str(booking_line(k))?;
    }
    Ok(text)
}

// A list of questions, and behind it one about each of so many bookings.
pub fn with_questions(heap: Global, list: &str, bookings: u32) -> Result<String, AllocError>
    ensures { IfOk result (λ t. string_bytes t ≡ list.now ++ question_lines bookings) }
{
    let mut text = String::new(heap);
    text.push_str(list)?;
    for k in 0..bookings {
        let line = format!(in heap; "booking {k}\n")?;
        text.push_str(line.as_str())?;
    }
    Ok(text)
}
