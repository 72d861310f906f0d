// Words on standard output. A write that fails is let go.
use format::Refusal;

pub fn text(rt: &impl Print, bytes: &[u8]) {
    let _ = rt.write_all(bytes);
}

pub fn number(rt: &impl Print, n: u64) {
    let _ = rt.print(n);
}

pub fn times(rt: &impl Print, n: u64) {
    if n == 1 {
        text(rt, b"once");
        return;
    }
    number(rt, n);
    text(rt, b" times");
}

// Every line of a text, four spaces in.
pub fn indented(rt: &impl Print, lines: &[u8]) {
    for line in lines.split_inclusive(|byte| *byte == b'\n') {
        text(rt, b"    ");
        text(rt, line);
    }
}

// What a call answered: done, or refused with a number, and what the numbers that occur here say.
pub fn answer(rt: &impl Print, refusal: Option<Refusal>) {
    let Some(refusal) = refusal else {
        text(rt, b"done");
        return;
    };
    text(rt, b"refused, number ");
    number(rt, refusal.number as u64);
    match refusal {
        Refusal::MISSING => text(rt, b" (no such reference)"),
        Refusal::STANDS => text(rt, b" (it stands there already)"),
        Refusal::LAST_ONE => text(rt, b" (it is the extent's last reference)"),
        Refusal::NO_FIT => text(rt, b" (it would not fit in the leaf)"),
        Refusal::NO_LEAF => text(rt, b" (its checksum is wrong)"),
        _ => {}
    }
}
