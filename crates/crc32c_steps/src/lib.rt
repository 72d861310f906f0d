// The steps of a checksum's register, and the table that they make, worked out for any polynomial of 32 bits, reflected.
#![tactic(auto)]

ghost use Rattle.std.specs.Prelude.{◌≡◌};
ghost use Rattle.crc32c_steps.specs.Steps.{step as step_of, steps, table_of};

// The polynomial of CRC32C.
pub const CRC32C: u32 = 0x82f63b78;

// One step: the register is halved, rounded down, and the polynomial is xored in where the register was odd.
fn step(polynomial: u32, register: u32) -> u32
    ensures { result ≡ step_of polynomial register }
{
    if register % 2 == 0 {
        return register / 2;
    }
    (register / 2) ^ polynomial
}

// Entry n: n after eight steps.
fn entry(polynomial: u32, n: u32) -> u32
    ensures { result ≡ steps polynomial 8 n }
{
    let mut register = n;
    for k in 0..8usize {
        register = step(polynomial, register);
    }
    register
}

// The table of a polynomial.
pub fn table_of(polynomial: u32) -> [u32; 256]
    ensures { result ≡ table_of polynomial }
{
    std::array::from_fn(|n| entry(polynomial, n as u32))
}
