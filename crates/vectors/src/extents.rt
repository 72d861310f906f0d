// Prints hashes of data references, the key of a new tree block, and both bodies of new extents: each lent output begins as bytes
// of value ee, so that it shows which were written. A write that fails is let go.

use format::{Edited, Key, Refusal};

fn end_line(rt: &impl Print) {
    let _ = println!(rt;);
}

fn print_hash(rt: &impl Print, tree: u64, objectid: u64, offset: u64) {
    let hash = extent_write::data_ref_hash(tree, objectid, offset);
    let _ = println!(rt; "{hash:016x}");
}

fn print_key(rt: &impl Print, key: Key) {
    let _ = println!(rt; "{:016x}{:02x}{:016x}", key.objectid, key.kind, key.offset);
}

fn print_answer(rt: &impl Print, answer: Result<Edited, Refusal>) {
    let _ = match answer {
        Ok(Edited::Written(n)) => println!(rt; "written {n}"),
        Ok(Edited::Absent) => println!(rt; "absent"),
        Ok(Edited::Remove) => println!(rt; "remove"),
        Err(refusal) => println!(rt; "{refusal}"),
    };
}

fn print_bytes(rt: &impl Print, bytes: &[u8]) {
    for byte in bytes {
        let _ = print!(rt; "{byte:02x}");
    }
    end_line(rt);
}

fn print_tree_block(rt: &impl Print, t: extent_write::TreeBlockAllocation, out: &mut [u8]) {
    print_answer(rt, t.body(out));
    print_bytes(rt, out);
}

fn print_data_extent(
    rt: &impl Print,
    generation: u64,
    root: u64,
    ino: u64,
    offset: u64,
    out: &mut [u8],
) {
    let answer = extent_write::data_extent_body(generation, root, ino, offset, out);
    print_answer(rt, answer);
    print_bytes(rt, out);
}

fn print_hashes(rt: &impl Print) {
    print_hash(rt, 5, 257, 0);
    print_hash(rt, 0, 0, 0);
    print_hash(rt, 5, 257, 4096);
    print_hash(rt, 256, 258, 131072);
    print_hash(rt, 9223372036854775808, 4294967296, 2147483648);
    print_hash(
        rt,
        18446744073709551615,
        18446744073709551615,
        18446744073709551615,
    );
}

fn print_tree_blocks(rt: &impl Print) {
    let t = extent_write::TreeBlockAllocation {
        bytenr: 30474240,
        level: 1,
        generation: 7,
        owner: 5,
    };
    print_key(rt, t.key());
    let u = extent_write::TreeBlockAllocation {
        bytenr: 30474240,
        level: 1,
        generation: 0x0102030405060708,
        owner: 0x1112131415161718,
    };
    let mut room_32 = [0xeeu8; 32];
    print_tree_block(rt, u, &mut room_32);
    let mut room_33 = [0xeeu8; 33];
    print_tree_block(rt, u, &mut room_33);
    let mut room_35 = [0xeeu8; 35];
    print_tree_block(rt, u, &mut room_35);
}

fn print_data_extents(rt: &impl Print) {
    let mut room_52 = [0xeeu8; 52];
    print_data_extent(rt, 7, 5, 257, 0, &mut room_52);
    let mut room_53 = [0xeeu8; 53];
    print_data_extent(rt, 7, 5, 257, 0, &mut room_53);
    let mut room_55 = [0xeeu8; 55];
    print_data_extent(
        rt,
        0x0102030405060708,
        0x1112131415161718,
        0x2122232425262728,
        0x3132333435363738,
        &mut room_55,
    );
}

pub fn print_all(rt: &impl Print) {
    print_hashes(rt);
    print_tree_blocks(rt);
    print_data_extents(rt);
}
