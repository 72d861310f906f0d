// Known answers: the tables beside the generator's result, the CRC32C vectors of RFC 3720, then hashes of data references and the
// bodies of new extents.
#![tactic(auto)]

mod checksums;
mod extents;
mod tables;

fn main(rt: HostRuntime) {
    tables::compare_all(&rt);
    checksums::compare_all(&rt);
    extents::print_all(&rt);
}
