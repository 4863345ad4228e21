// Floats of 32 bits: bit patterns and back, tests, and the ceiling.
#![tactic(auto)]

ghost use Rattle.std.specs.Prelude.{◌≡◌, ◌<◌, from_bits, to_bits};
ghost use Rattle.std.specs.Float.{binary32};
ghost use Rattle.std.specs.Float.Ieee.Scale.{finite};
ghost use Rattle.std.specs.Float.Ieee.Positive.{positive};
ghost use Rattle.float32.specs.Ceiling.{ceil_to};
ghost use Rattle.float32.specs.Parts.{Tried};

// The float of any pattern; every NaN pattern gives the NaN.
pub fn to_f32(bits: u32) -> f32
    ensures { result ≡ from_bits binary32 bits }
{
    if bits % 0x8000_0000 > 0x7F80_0000 {
        0.0 / 0.0
    } else {
        f32::from_bits(bits)
    }
}

// The pattern of any float; a NaN's is 7FC00000.
pub fn from_f32(x: f32) -> u32
    ensures { result ≡ to_bits binary32 x }
{
    if x.is_nan() {
        0x7FC0_0000
    } else {
        f32::to_bits(x)
    }
}

pub fn is_finite(x: f32) -> bool
    ensures { result ≡ finite x }
{
    x.is_finite()
}

// Above zero, and finite.
pub fn is_size(x: f32) -> bool
    ensures { result ≡ positive x }
{
    0.0 < x && is_finite(x)
}

// Where the counting begins: at x's whole part, or at the bound where x is above it. x is above every whole number before.
fn start(x: f32, most: u32) -> u32
    requires { most < 8388608 }
    ensures { Tried most x result }
{
    if x > most as f32 {
        return most;
    }
    if x > 0.0 {
        return std::num::truncating_f32_to_u64(x) as u32;
    }
    0
}

// The least whole number that x is not above, or most + 1 where it is above most; 0 of a NaN, as the Rust's cast has it. Counted upwards, as
// on paper: x is compared with one whole number after the other.
pub fn ceiling(x: f32, most: u32) -> u32
    requires { most < 8388608 }
    ensures { result ≡ ceil_to most x }
{
    for n in start(x, most)..most + 1 {
        if !(x > n as f32) {
            return n;
        }
    }
    most + 1
}
