// The reference lister: reads a type byte and a body from standard input and writes what they list (lister_text).
#![tactic(auto)]

fn main(rt: HostRuntime) {
    // A type byte, and one byte more than the longest body: whatever follows, the text is the same (law `listed-cut`).
    let mut bytes = [0u8; 65537];
    let Ok(n) = input::read_all(&mut rt.stdin(), &mut bytes) else {
        let _ = eprintln!(rt; "lister: standard input could not be read");
        return;
    };
    let mut text = [0u8; 327775];
    let m = lister_text::list_in_full(&bytes[..n], &mut text);
    if rt.write_all(&text[..m]).is_err() {
        let _ = eprintln!(rt; "lister: standard output could not be written");
    }
}
