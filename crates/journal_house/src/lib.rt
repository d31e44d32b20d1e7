// What is proved of the house that is kept by a journal on a chip; specs/Right.antt has the
// statements. Each function carries one or two of them, and does nothing when called. The promise
// of the crate journal (specs/Programs.antt), where the reading of chips is a part of it, is in
// proofs/Right.antt: no contract can carry it, since it speaks of every such reading.
#![tactic(auto)]

ghost use Rattle.journal_house.specs.Right.{ByNumber, ByPage, ByPlan, CallsFast, FewPages, KnownChip, RightByReading, Rises, Roomy};

// The main promise, for all limits, and whatever calls the house can take: started on a chip that
// holds the house after some calls, the program handles the chip with care and answers as the house
// does; and in whichever act power fails, the chip that is left holds the house after the calls that
// were answered by then, or after these and the one under way. A chip is read as the calls after
// which the house is the one that its checkpoint and its log say.
pub fn right_by_reading()
    ensures { RightByReading }
{}

// A start looks at few pages, and at no others: those of a checkpoint of the house with its commit
// record, as many again of the log (or 16, if these are more), and two.
pub fn few_pages()
    ensures { FewPages }
{}

// There is room: the two slots and the ring are all of the chip, the checkpoint of every house that
// can be reached fits a slot behind the block of its commit record, and the longest log after the
// largest checkpoint fits the ring with two blocks to spare.
pub fn has_room()
    ensures { Roomy }
{}

// Pages of a block are written in rising order between two erasures of it.
pub fn rising_order()
    ensures { Rises }
{}

// A call does few acts: where the log has room, it writes at most one page and erases at most one
// block; else at most the pages of a checkpoint and its commit record, and it erases the blocks of
// these, and two more on a chip that was never used.
pub fn few_acts()
    ensures { CallsFast }
{}

// A call can be done one act at a time, by a plan from which each act takes the first away; and a
// start one page at a time, each page leaving what the start will come to as it is.
pub fn one_at_a_time()
    ensures { ByPlan × ByPage }
{}

// What a page of a checkpoint says can be found by its number.
pub fn page_by_number()
    ensures { ByNumber }
{}

// A chip that the program left has nothing on the first page of a slot but a commit record of a house
// that was opened so, or a page that is blank or spoilt: whoever finds other bytes there may refuse
// the chip.
pub fn known_chip()
    ensures { KnownChip }
{}
