//! Numbers modulo 65537, where 4 is a primitive sixteenth root of unity, as 4^8 is -1.

use zx_model::Sixteenth;

pub const MODULUS: u64 = 65537;

// What stands for exp(i*pi/8).
const ROOT: u64 = 4;

pub fn plus(a: u64, b: u64) -> u64 {
    a.wrapping_add(b) % MODULUS
}

pub fn times(a: u64, b: u64) -> u64 {
    a.wrapping_mul(b) % MODULUS
}

// -1 where the bit is set.
pub fn sign(bit: bool) -> u64 {
    if bit { MODULUS - 1 } else { 1 }
}

// A power of it.
pub fn root_power(k: Sixteenth) -> u64 {
    let mut power = 1;
    for _ in 0..k.get() {
        power = times(power, ROOT);
    }
    power
}
