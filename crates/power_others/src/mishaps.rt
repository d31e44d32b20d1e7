// How houses went wrong, each played on a new chip, and every answer printed.
use power_bench::{Bench, NEVER};
use power_stories::line_of;

// What went wrong elsewhere, and must not here, with the calls that show it.
const MISHAPS: [(&str, &str); 5] = [
    (
        "a hold that runs out is gone on each of its legs",
        "open 1 2 100 200 limits 2\nopen 2 3 230 300 limits 2\nfile 1 3 0 2 80\nbook 0 2 on 0 1\nleg 0\nleg 1\nticks 20\nbooking 0\nleg 0\nleg 1\nfree 0 0\nfree 1 0\n",
    ),
    (
        "a dearer class's limit counts for a cheap class too",
        "open 1 2 100 200 limits 2 2\nfile 1 2 0 1 90\nfile 1 2 1 1 50\nbook 0 1 on 0\nbook 1 2 on 0\nfree 0 1\nbook 1 1 on 0\nleg 0\n",
    ),
    (
        "a payment serves nobody, a limit that rises does",
        "open 1 2 100 200 limits 1\nfile 1 2 0 1 50\nbook 0 1 on 0\nbook 0 1 on 0\npay 0\nbooking 1\nlimits 0 to 2\nbooking 1\n",
    ),
    (
        "a payment is at the price of its moment",
        "open 1 2 100 200 limits 5\nfile 1 2 0 1 100\nbook 0 2 on 0\nfile 1 2 0 1 60\npay 0\nbooking 0\n",
    ),
    (
        "a limit that is lowered puts nobody out",
        "open 1 2 100 200 limits 3\nfile 1 2 0 1 50\nbook 0 3 on 0\nlimits 0 to 1\nbooking 0\nleg 0\nfree 0 0\nbook 0 1 on 0\ncancel 0\nbooking 1\n",
    ),
];

// A booking, and what is asked after a restart.
const BOOKED: &str = "open 1 2 100 200 limits 3\nfile 1 2 0 1 50\nbook 0 2 on 0\n";

const ASKED: &str = "booking 0\nleg 0\n";

// Plays a text on the chip, and prints each answer.
fn show(rt: &HostRuntime, bench: &mut Bench, text: &str) -> anyhow::Result<()> {
    let life = bench.live(rt.alloc(), NEVER, text.as_bytes())?;
    for one in life.said.as_slice() {
        let line = line_of(one);
        println!(rt; "{line}")?;
    }
    Ok(())
}

// Plays them all.
pub fn play_mishaps(rt: &HostRuntime, bench: &mut Bench, blank: &[u8]) -> anyhow::Result<()> {
    for (title, text) in MISHAPS {
        println!(rt; "{title}:")?;
        bench.set_pages(blank)?;
        show(rt, bench, text)?;
    }
    println!(rt; "a booking that was answered is there after a restart:")?;
    bench.set_pages(blank)?;
    show(rt, bench, BOOKED)?;
    show(rt, bench, ASKED)
}
