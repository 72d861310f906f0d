// Works out the table of CRC32C from its polynomial and prints it: 256 lines of eight hexadecimal digits, entry 0 first. It rests on
// no table of the library.
#![tactic(auto)]

fn main(rt: HostRuntime) {
    let mut text = [0u8; crc32c_text::LENGTH];
    crc32c_text::table_text(crc32c_steps::CRC32C, &mut text);
    if rt.write_all(&text).is_err() {
        let _ = eprintln!(rt; "crc_table: standard output could not be written");
    }
}
