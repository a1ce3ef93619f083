//! Worked cases of what is read: command lines, tables, records of bus words and traces, and the traces that are generated. Worked
//! recordings of them: the words of their slots, the blocks that they are packed into, and the image that these are added to.
#![tactic(auto)]

#[cfg(test)]
mod bus_records;
#[cfg(test)]
mod checks;
#[cfg(test)]
mod command_lines;
#[cfg(test)]
mod generated_traces;
#[cfg(test)]
mod limits;
#[cfg(test)]
mod loads;
#[cfg(test)]
mod recordings;
#[cfg(test)]
mod streams;
#[cfg(test)]
mod tables;
#[cfg(test)]
mod traces;
#[cfg(test)]
mod words;
