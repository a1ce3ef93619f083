//! Worked calls of recording on two disks: its words, its start, recordings, and each answer's status and text.
#![tactic(auto)]

#[cfg(test)]
mod answers;
#[cfg(test)]
mod command_lines;
#[cfg(test)]
mod losses;
#[cfg(test)]
mod openings;
#[cfg(test)]
mod pairs;
#[cfg(test)]
mod recordings;
#[cfg(test)]
mod sure;
