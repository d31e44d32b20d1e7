// Answers as lines, and numbers in a row.
ghost use Rattle.std.specs.Prelude.{◌≡◌, ℕ, map, decimal, Some};
ghost use Rattle.protocol.specs.Forms.{answer_of};
ghost use Rattle.scan.specs.Words.{spaced};
ghost use Rattle.std.specs.Fmt.{WritesOnOk};
ghost use Rattle.text.specs.AnswerLines.{answer_line, in_a_row, standing};

use protocol::Answer;
use std::fmt;

// An answer, and the list beside it, as a line.
#[derive(Clone, Copy)]
pub struct AnswerLine<'a> {
    pub answer: Answer,
    pub list: &'a [u64],
}

// How a booking stands, in a word.
// Kept: the cases of an answer have numbers, so how a booking stands is one.
fn stands_word(stands: u64) -> &'static str
    ensures { result.now ≡ standing stands }
{
    match stands {
        0 => "waits",
        1 => "held",
        2 => "paid",
        _ => "gone",
    }
}

// Writes numbers of any width, each behind a space.
pub fn write_spaced<W: fmt::Write, N: fmt::Display>(
    f: &mut fmt::Formatter<W>,
    numbers: &[N],
) -> fmt::Result
    ensures { (v : N → ℕ) → ((n : N) → N.output n ≡ Some (decimal (v n))) → WritesOnOk W.write_str_gives f.old result (spaced (map v numbers.now)) f.new }
{
    for number in numbers {
        write!(f, " {number}")?;
    }
    Ok(())
}

// Writes numbers with a space between two.
fn write_row<W: fmt::Write>(f: &mut fmt::Formatter<W>, numbers: &[u64]) -> fmt::Result
    ensures { WritesOnOk W.Write.write_str_gives f.old result (in_a_row numbers.now) f.new }
{
    let Some((first, rest)) = numbers.split_first() else {
        return Ok(());
    };
    write!(f, "{first}")?;
    write_spaced(f, rest)
}

impl fmt::Display for AnswerLine<'_> {
    ghost output = { λ x. Some (answer_line (answer_of x.answer x.list.now)) };

    fn fmt<W: fmt::Write>(&self, f: &mut fmt::Formatter<W>) -> fmt::Result {
        match self.answer {
            Answer::Refused { refusal, place } => write!(f, "refused {refusal} at {place}"),
            Answer::Number { value } => write!(f, "{value}"),
            Answer::Booked { booking, stands } => {
                let word = stands_word(stands);
                write!(f, "{booking} {word}")
            }
            Answer::Stands { stands: 0, .. } => write!(f, "waits"),
            Answer::Stands {
                stands: 1,
                until,
                ..
            } => write!(f, "held until {until}"),
            Answer::Stands {
                stands: 2,
                paid,
                ..
            } => write!(f, "paid {paid}"),
            Answer::Stands { paid: 0, .. } => write!(f, "gone"),
            Answer::Stands { paid, .. } => write!(f, "gone paid {paid}"),
            Answer::Sold => write_row(f, self.list),
        }
    }
}
