// Runs the CRC32C vectors of RFC 3720, appendix B.4, the check value of "123456789", and as many bytes as a node of 4 KiB has behind
// its checksum's field, each as one run, by bytes, by words of four bytes, and by numbers of eight, as the hash runs. Prints each
// finished checksum beside the expected one, which for the node's bytes is that of a processor's own instruction. Then says of how many
// lengths a run is what it is by bytes.
ghost use Rattle.std.specs.Prelude.{◌≤◌, length};

fn by_run(bytes: &[u8]) -> u32 {
    crc32c::finish(crc32c::update(0xffff_ffff, bytes))
}

fn by_bytes(bytes: &[u8]) -> u32 {
    let mut register = 0xffff_ffff;
    for byte in bytes {
        register = crc32c::byte_step(register, *byte);
    }
    crc32c::finish(register)
}

// What is left behind the last whole word goes in by bytes. By numbers is a function of its own: one for both would take the step and
// the reading of a chunk as closures, and be longer than the two.
fn by_words(bytes: &[u8]) -> u32 {
    let (words, rest) = bytes.as_chunks::<4>();
    let mut register = 0xffff_ffff;
    for word in words {
        register = crc32c::word_step(register, u32::from_le_bytes(*word));
    }
    crc32c::finish(crc32c::update(register, rest))
}

fn by_numbers(bytes: &[u8]) -> u32 {
    let (numbers, rest) = bytes.as_chunks::<8>();
    let mut register = 0xffff_ffff;
    for number in numbers {
        register = crc32c::u64_in(register, u64::from_le_bytes(*number));
    }
    crc32c::finish(crc32c::update(register, rest))
}

fn print(rt: &impl Print, sum: u32, expected: u32) {
    let verdict = if sum == expected {
        "equals"
    } else {
        "differs from"
    };
    let _ = println!(rt; "{sum:08x} {verdict} {expected:08x}");
}

fn compare(rt: &impl Print, bytes: &[u8], expected: u32) {
    for sum in [
        by_run(bytes),
        by_bytes(bytes),
        by_words(bytes),
        by_numbers(bytes),
    ] {
        print(rt, sum, expected);
    }
}

// Over how many of the first bytes, from none to all but the last, a run is what it is by bytes.
fn agreeing(bytes: &[u8]) -> usize
    ensures { result ≤ length bytes.now }
{
    let mut register = 0xffff_ffff;
    let mut count = 0;
    for (n, byte) in bytes.iter().enumerate() {
        if crc32c::update(0xffff_ffff, &bytes[..n]) == register {
            count += 1;
        }
        register = crc32c::byte_step(register, *byte);
    }
    count
}

// Bytes that differ from their neighbours, and from those 256 further on.
fn compare_long(rt: &impl Print) {
    let node: [u8; 4064] = std::array::from_fn(|i| (i % 251) as u8);
    compare(rt, &node, 0x9b1bd1a2);
    let count = agreeing(&node);
    let _ = println!(rt; "{count} of 4064 runs are what they are by bytes");
}

pub fn compare_all(rt: &impl Print) {
    let zeros = [0u8; 32];
    compare(rt, &zeros, 0x8a9136aa);
    let ones = [255u8; 32];
    compare(rt, &ones, 0x62a8ab43);
    let rising =
        b"\x00\x01\x02\x03\x04\x05\x06\x07\x08\x09\x0a\x0b\x0c\x0d\x0e\x0f\x10\x11\x12\x13\x14\x15\x16\x17\x18\x19\x1a\x1b\x1c\x1d\x1e\x1f";
    compare(rt, rising, 0x46dd794e);
    let falling =
        b"\x1f\x1e\x1d\x1c\x1b\x1a\x19\x18\x17\x16\x15\x14\x13\x12\x11\x10\x0f\x0e\x0d\x0c\x0b\x0a\x09\x08\x07\x06\x05\x04\x03\x02\x01\x00";
    compare(rt, falling, 0x113fdb5c);
    // a SCSI read command
    let read =
        b"\x01\xc0\x00\x00\x00\x00\x00\x00\x00\x00\x00\x00\x00\x00\x00\x00\x14\x00\x00\x00\x00\x00\x04\x00\x00\x00\x00\x14\x00\x00\x00\x18\x28\x00\x00\x00\x00\x00\x00\x00\x02\x00\x00\x00\x00\x00\x00\x00";
    compare(rt, read, 0xd9963a56);
    compare(rt, b"123456789", 0xe3069283);
    compare_long(rt);
}
