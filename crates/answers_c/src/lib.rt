// The calls of `answers::linked` under C's names, for Rust to link; what each does is said there. A slice crosses as a pointer and a length.
#![tactic(auto)]

use answers::linked;

#[unsafe(no_mangle)]
pub extern "C" fn delgushar_any(
    text: &[u8],
    writes: bool,
    out: &mut [u8],
    number: &mut usize,
) -> u8 {
    linked::delgushar_any(text, writes, out, number)
}

#[unsafe(no_mangle)]
pub extern "C" fn delgushar_synop(
    text: &[u8],
    writes: bool,
    out: &mut [u8],
    number: &mut usize,
) -> u8 {
    linked::delgushar_synop(text, writes, out, number)
}

#[unsafe(no_mangle)]
pub extern "C" fn delgushar_metar(
    text: &[u8],
    writes: bool,
    out: &mut [u8],
    number: &mut usize,
) -> u8 {
    linked::delgushar_metar(text, writes, out, number)
}

#[unsafe(no_mangle)]
pub extern "C" fn delgushar_taf(
    text: &[u8],
    writes: bool,
    out: &mut [u8],
    number: &mut usize,
) -> u8 {
    linked::delgushar_taf(text, writes, out, number)
}

#[unsafe(no_mangle)]
pub extern "C" fn delgushar_heights_by_rule(codes: &[u32], heights: &mut [u32]) -> usize {
    linked::delgushar_heights_by_rule(codes, heights)
}

#[unsafe(no_mangle)]
pub extern "C" fn delgushar_heights_by_table(codes: &[u32], heights: &mut [u32]) -> usize {
    linked::delgushar_heights_by_table(codes, heights)
}
