// A program's input, read to its end. A read that fails is not the end of the input.
//
// A read goes into a slice of its own, and only the bytes that it counts are copied. No contract can say which bytes a file or a
// terminal gives, or that the input ended there: that is tested. Of a reader whose bytes are known, it says that none is left. A signal
// can interrupt a read only where the program handles signals, and none here does: an error is an error.
#![tactic(auto)]

ghost use Rattle.std.specs.Prelude.{◌≡◌, ◌+◌, ◌≤◌, ◌<◌, length, IfOk};
ghost use Rattle.std.specs.Io.KnownBytes.{IsAtEnd};
ghost use Rattle.input.specs.Reads.{PutAt, Read};

use std::io;

// One read into `chunk`, whose bytes go to the position `at` of the buffer.
fn read_by<R: io::Read>(
    reader: &mut R,
    chunk: &mut [u8],
    buf: &mut [u8],
    at: usize,
) -> io::Result<usize>
    requires { (0 < length chunk.old) × (at + length chunk.old ≤ length buf.old) }
    ensures put { PutAt at result buf.old buf.new }
    ensures end { IfOk result (λ n. n ≡ 0 → IsAtEnd (R.remaining reader.new)) }
{
    let n = reader.read(chunk)?;
    fields::copy_at(chunk, 0, n, buf, at);
    Ok(n)
}

// One read of at most 4,096 bytes to the position `at` of the buffer: no bytes are the end of the input.
fn read_some<R: io::Read>(reader: &mut R, buf: &mut [u8], at: usize) -> io::Result<usize>
    requires { at < length buf.old }
    ensures put { PutAt at result buf.old buf.new }
    ensures end { IfOk result (λ n. n ≡ 0 → IsAtEnd (R.remaining reader.new)) }
{
    let mut chunk = [0u8; 4096];
    let most = 4096.min(buf.len() - at);
    read_by(reader, &mut chunk[..most], buf, at)
}

// Reads until the input ends or the buffer is full, and answers how many bytes were read.
pub fn read_all<R: io::Read>(reader: &mut R, buf: &mut [u8]) -> io::Result<usize>
    ensures bytes { Read result buf.old buf.new }
    ensures end { IfOk result (λ n. n < length buf.old → IsAtEnd (R.remaining reader.new)) }
{
    let mut at = 0;
    while at < buf.len() {
        match read_some(reader, buf, at)? {
            0 => return Ok(at),
            n => at += n,
        }
    }
    Ok(at)
}
