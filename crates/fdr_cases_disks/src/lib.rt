//! Worked calls of sources, sinks, disks and twins in memory and over real files: what they give, what fails, and what a stop leaves.
//! The header of an image of version 1, and a block in a ring that is found again.
#![tactic(auto)]

#[cfg(test)]
mod calls;
#[cfg(test)]
mod disks;
#[cfg(test)]
mod fakes;
#[cfg(test)]
mod file_decks;
#[cfg(test)]
mod file_twins;
#[cfg(test)]
mod headers;
#[cfg(test)]
mod image_files;
#[cfg(test)]
mod on_disk;
#[cfg(test)]
mod rings;
#[cfg(test)]
mod sources;
#[cfg(test)]
mod storage_decks;
#[cfg(test)]
mod table_sources;
#[cfg(test)]
mod twins;
