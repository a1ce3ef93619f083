//! Worked cases from bits to values: words and fields in bits, levels on a line, slots, divisions, the searches for frames, whole and
//! in pieces, where samples are, the rows of frames, the texts of rows, values and faults, the summary of bits, and exceedances.
#![tactic(auto)]

#[cfg(test)]
mod bits;
#[cfg(test)]
mod divisions;
#[cfg(test)]
mod exceedances;
#[cfg(test)]
mod found_frames;
#[cfg(test)]
mod frames;
#[cfg(test)]
mod lanes;
#[cfg(test)]
mod layouts;
#[cfg(test)]
mod levels;
#[cfg(test)]
mod lines;
#[cfg(test)]
mod messages;
#[cfg(test)]
mod pieces;
#[cfg(test)]
mod rows;
#[cfg(test)]
mod slots;
#[cfg(test)]
mod summaries;
