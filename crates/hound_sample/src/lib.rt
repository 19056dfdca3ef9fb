//! Samples, and their containers: the bytes that they take in a file.
#![tactic(auto)]

// Calls a function with the bits and bytes of a pair as constants after its other arguments: so LLVM makes vectors of
// its loop. In the second form the numbers may be no pair, and are then passed as they are.
macro_rules! by_pair {
    ($bits:expr, $width:expr, $call:ident($($argument:expr),*)) => {
        match ($width, $bits) {
            (1, _) => $call($($argument,)* 8, 1),
            (2, _) => $call($($argument,)* 16, 2),
            (3, _) => $call($($argument,)* 24, 3),
            (4, 24) => $call($($argument,)* 24, 4),
            _ => $call($($argument,)* 32, 4),
        }
    };
    ($bits:expr, $width:expr, $call:ident($($argument:expr),*), or any) => {
        match ($bits, $width) {
            (16, 2) => $call($($argument,)* 16, 2),
            (24, 3) => $call($($argument,)* 24, 3),
            (24, 4) => $call($($argument,)* 24, 4),
            (32, 4) => $call($($argument,)* 32, 4),
            (8, 1) => $call($($argument,)* 8, 1),
            _ => $call($($argument,)* $bits, $width),
        }
    };
}

mod amplitude;
mod decode;
mod float;
mod integer;
mod item;
mod laws;
mod sample;
pub(crate) mod scale;
mod slices;

pub use amplitude::{Amplitude, UnitDouble, UnitFloat, store_amplitudes, store_with_noise};
pub use decode::Decode;
pub use float::FloatBits;
pub use item::{ContainerReader, SampleError, error_of_sample, reason_of};
pub use laws::{i16s_are_kept, integers_come_back, noise_continues, scaled_integers_come_back};
pub use sample::Sample;
pub use scale::{change_bits, float_to_int, int_to_float};
pub use slices::{check_containers, decode_containers, have_containers, store_containers};
