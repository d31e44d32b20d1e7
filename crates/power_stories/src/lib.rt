// A list of calls, what a house that never fails answers to it, and what it answers to every question
// after each of its calls; and what a house on the chip is held to.
#![tactic(auto)]

ghost use Rattle.std.specs.Prelude.{◌≡◌, map, slice_index, vec_len, string_bytes};
ghost use Rattle.chips.specs.Recorded.{said_means};
ghost use Rattle.protocol.specs.Forms.{answer_of};
ghost use Rattle.power_stories.specs.Stories.{behind};

use anyhow::anyhow;
use chips::Said;
use flash::Power;
use player::Unfinished;
use power_bench::{Bench, Life, NEVER};
use scan::read_line;
use std::alloc::Global;
use text::answers::AnswerLine;

// The list and the questions; the answers to the list; and the answers to the questions, after no
// call, after the first one, and so on.
#[derive(Drop)]
pub struct Story {
    calls: String,
    questions: String,
    given: Vec<Said>,
    asked: Vec<Vec<Said>>,
}

// What a life that power may have cut left: how many calls the chip has, whether power failed, whether
// the call under way is there, and how many answers were compared.
#[derive(Clone, Copy)]
pub struct Outcome {
    pub known: usize,
    pub failed: bool,
    pub later: bool,
    pub compared: u64,
}

// What is left of a text behind its first so many lines.
pub fn skip_lines(text: &[u8], count: usize) -> &[u8]
    ensures { result.now ≡ behind count text.now }
{
    // Kept: lines are only counted here, and nothing is indexed.
    let mut rest = text;
    for _ in 0..count {
        rest = read_line(rest).rest;
    }
    rest
}

// The place of the first answer in which two lists differ.
fn difference(a: &[Said], b: &[Said]) -> Option<usize> {
    match a.iter().zip(b.iter()).position(|(x, y)| x != y) {
        None if a.len() != b.len() => Some(a.len().min(b.len())),
        place => place,
    }
}

// The line of an answer that was given, with the list beside it.
pub fn line_of(one: &Said) -> AnswerLine<'_>
    ensures { answer_of result.answer result.list.now ≡ said_means one.now }
{
    AnswerLine {
        answer: one.answer,
        list: one.list(),
    }
}

// Prints an answer of a list, if there is one.
pub fn print_answer(
    rt: &HostRuntime,
    whose: &str,
    said: &[Said],
    place: usize,
) -> anyhow::Result<()> {
    match said.get(place) {
        Some(one) => {
            let line = line_of(one);
            println!(rt; "{whose}{line}")?;
        }
        None => println!(rt; "{whose}no answer")?,
    }
    Ok(())
}

// Prints when power was to fail, and the line whose answer differs.
fn print_place(rt: &HostRuntime, power: Power, text: &[u8], place: usize) -> anyhow::Result<()> {
    let acts = power.acts;
    let tear = power.tear;
    println!(rt; "power fails in act {acts} (0 is never) by the tear {tear:?}")?;
    let line = read_line(skip_lines(text, place)).value;
    let shown = std::str::from_utf8(line).unwrap_or("no text");
    println!(rt; "line {place}: {shown}")?;
    Ok(())
}

impl Story {
    // The story of a list, by houses in memory that have no chip.
    pub fn new(
        heap: Global,
        bench: &mut Bench,
        calls: String,
        questions: String,
    ) -> anyhow::Result<Story> {
        let given = bench.recall(heap, &[], 0, calls.as_str().as_bytes())?;
        let mut asked = Vec::new(heap);
        for count in 0..=given.len() {
            let list = calls.as_str().as_bytes();
            let answers = bench.recall(heap, list, count, questions.as_str().as_bytes())?;
            asked.push(answers)?;
        }
        Ok(Story {
            calls,
            questions,
            given,
            asked,
        })
    }

    // How many calls there are.
    pub fn len(&self) -> usize
        ensures { result ≡ vec_len self.now.given }
    {
        self.given.len()
    }

    // How many questions there are.
    pub fn question_count(&self) -> u64
        ensures { result ≡ slice_index (map (λ v. vec_len v) self.now.asked.items) 0 }
    {
        match self.asked.first() {
            Some(answers) => answers.len() as u64,
            None => 0,
        }
    }

    // The answers to the calls.
    pub fn given(&self) -> &[Said]
        ensures { result.now ≡ self.now.given.items }
    {
        self.given.as_slice()
    }

    // The calls behind the first so many.
    pub fn rest(&self, known: usize) -> &[u8]
        ensures { result.now ≡ behind known (string_bytes self.now.calls) }
    {
        skip_lines(self.calls.as_str().as_bytes(), known)
    }

    // Compares answers that were given to calls behind the first so many: they are the first ones that
    // a house that never fails gives to these.
    pub fn compare_given(
        &self,
        rt: &HostRuntime,
        power: Power,
        known: usize,
        said: &[Said],
    ) -> anyhow::Result<()> {
        for (i, one) in said.iter().enumerate() {
            let place = known.saturating_add(i);
            if let Some(wanted) = self.given.get(place) {
                if one == wanted {
                    continue;
                }
            }
            print_place(rt, power, self.calls.as_str().as_bytes(), place)?;
            print_answer(rt, "answered: ", said, i)?;
            print_answer(rt, "without failure: ", self.given.as_slice(), place)?;
            return Err(anyhow!("an answer differs"));
        }
        Ok(())
    }

    // Compares answers to all questions with those after so many calls, and, unless they are the same,
    // with those after one call more. Tells whether they are the latter.
    fn compare_asked(
        &self,
        rt: &HostRuntime,
        power: Power,
        heard: usize,
        said: &[Said],
    ) -> anyhow::Result<bool> {
        let Some(before) = self.asked.get(heard) else {
            return Err(anyhow!("more answers than calls"));
        };
        let Some(place) = difference(said, before.as_slice()) else {
            return Ok(false);
        };
        let next = self.asked.get(heard.saturating_add(1));
        if let Some(after) = next {
            if difference(said, after.as_slice()).is_none() {
                return Ok(true);
            }
        }
        print_place(rt, power, self.questions.as_str().as_bytes(), place)?;
        print_answer(rt, "answered: ", said, place)?;
        print_answer(
            rt,
            "after the calls that were answered: ",
            before.as_slice(),
            place,
        )?;
        if let Some(after) = next {
            print_answer(rt, "after the one under way: ", after.as_slice(), place)?;
        }
        Err(anyhow!("an answer differs"))
    }

    // Asks all questions after a start without failure. Tells whether the call under way is there.
    pub fn ask(
        &self,
        rt: &HostRuntime,
        bench: &mut Bench,
        power: Power,
        heard: usize,
    ) -> anyhow::Result<bool> {
        let life = bench.live(rt.alloc(), NEVER, self.questions.as_str().as_bytes())?;
        let Ok(()) = life.ending else {
            print_place(rt, power, self.questions.as_str().as_bytes(), 0)?;
            return Err(anyhow!("a chip of the house is refused"));
        };
        self.compare_asked(rt, power, heard, life.said.as_slice())
    }

    // Did power fail in a life? If not, all calls were answered.
    fn has_failed(&self, life: &Life, heard: usize) -> anyhow::Result<bool> {
        match life.ending {
            Err(Unfinished::PowerFailed) => Ok(true),
            Ok(()) => {
                if heard == self.len() {
                    Ok(false)
                } else {
                    Err(anyhow!("a life ended before its calls"))
                }
            }
            Err(Unfinished::Refused) => Err(anyhow!("a chip of the house is refused")),
            Err(Unfinished::NoMemory) => Err(anyhow!("no memory to read a line")),
        }
    }

    // Goes on behind the calls that the chip has, until power fails; starts anew, and asks everything.
    pub fn fail(
        &self,
        rt: &HostRuntime,
        bench: &mut Bench,
        known: usize,
        power: Power,
    ) -> anyhow::Result<Outcome> {
        let life = bench.live(rt.alloc(), power, self.rest(known))?;
        let count = life.said.len();
        let heard = known.saturating_add(count);
        self.compare_given(rt, power, known, life.said.as_slice())?;
        let failed = self.has_failed(&life, heard)?;
        let later = self.ask(rt, bench, power, heard)?;
        let questions = self.question_count();
        Ok(Outcome {
            known: if later {
                heard.saturating_add(1)
            } else {
                heard
            },
            failed,
            later,
            compared: (count as u64).saturating_add(questions),
        })
    }
}
