// Shows the library's main job on small made-up cards, in words. Each list that is shown was made by the library's calls; what
// stands here prints it and counts what it holds.
#![tactic(auto)]

mod card;
mod changes;
mod checks;
mod crowded;
mod image;
mod leaves;
mod listing;
mod say;
mod shifts;
mod words;

fn last_line(rt: &impl Print, wrong: u32) {
    if wrong == 0 {
        say::text(rt, b"All four checks came out as they should.\n");
        return;
    }
    say::number(rt, wrong as u64);
    say::text(
        rt,
        b" of the four checks did not come out as they should.\n",
    );
}

fn main(rt: HostRuntime) {
    listing::show(&rt);
    changes::show(&rt);
    last_line(&rt, checks::show(&rt));
}
